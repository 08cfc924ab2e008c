//! What holds of the desk's answers after every history, as theorems: the functions have no code.

ghost use Rattle.std.specs.Prelude.{◌≡◌, ◌↔◌, ◌++◌, ◌∷◌, [], Some, ◌≤ℤ◌, ℕ, ℤ, List};
ghost use Rattle.svc_types.specs.declared.account.Designation.TheVariants as designation;
ghost use Rattle.svc_types.specs.declared.desk.Arrears.{Arrears};
ghost use Rattle.svc_types.specs.declared.desk.HistoryLine.{HistoryLine};
ghost use Rattle.svc_types.specs.declared.requests.Command.TheVariants as command;
ghost use Rattle.svc_types.specs.declared.requests.Query.TheVariants as query;
ghost use Rattle.svc_world.specs.declared.answer.Answer.TheVariants as answer;
ghost use Rattle.svc_world.specs.Answers.{answer_to};
ghost use Rattle.svc_world.specs.Judging.{IsHistory, Fresh, judged};
ghost use Rattle.svc_world.specs.World.{Accepted, accepted};
ghost use Rattle.svc_desk.specs.Told.{AddsUpToBooks, IsBroughtCurrent};

/// Where a loan's history is answered, each of its columns, summed, is that number of the books that are answered of the loan.
pub fn histories_add_up_to_books()
    ensures books { (h : List Accepted) (id day : ℕ) (lines : List HistoryLine) (reversed : List (ℕ × ℕ)) → IsHistory h
        → answer_to h (query.History id) ≡ Some (answer.History id day lines reversed)
        → AddsUpToBooks h id lines }
{}

/// What is answered of arrears is the least: where a regular payment on that day is accepted next, it is answered after it that
/// no installment is due exactly where it is at least what was to be paid.
pub fn arrears_bring_current()
    ensures least { (h : List Accepted) (key : List ℕ) (id day : ℕ) (asked : Arrears) (paid : ℤ) → IsHistory h
        → answer_to h (query.Arrears id) ≡ Some (answer.Arrears id day asked)
        → judged h key (command.Pay id day paid designation.Regular) ≡ Fresh
        → IsBroughtCurrent (h ++ accepted key (command.Pay id day paid designation.Regular) ∷ []) id day
        ↔ (asked.pay ≤ℤ paid) }
{}
