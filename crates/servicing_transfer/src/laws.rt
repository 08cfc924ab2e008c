//! What a part of a history keeps, as theorems: the functions have no code.

ghost use Rattle.std.specs.Prelude.{◌≡◌, ℕ, Bool, List};
ghost use Rattle.svc_world.specs.World.{World, Accepted, world};
ghost use Rattle.svc_world.specs.Judging.{IsHistory};
ghost use Rattle.servicing_transfer.specs.Parts.{in_range, out_of_range, part_of};
ghost use Rattle.servicing_transfer.specs.declared.statement_line.StatementLine as lines;
ghost use Rattle.servicing_transfer.specs.Stated.{IsBadLine, IsStatement};
ghost use Rattle.servicing_transfer.specs.StatementTexts.{stated_loans, text_of_statement};
ghost use Rattle.servicing_transfer.specs.Confirmations.{IsConfirmation, text_of_no_difference};
ghost use Rattle.servicing_transfer.specs.Splits.{IsKeptPart, Splits};

/// The part of a history for any set of loans is a history. It has the loans of the set with their books at
/// each day and their dues of each month, and the report of each closed month has their lines as they were.
pub fn parts_are_kept()
    ensures kept { (set : ℕ → Bool) (h : List Accepted) → IsHistory h → IsKeptPart set h (part_of set h) }
{}

/// What both custodial accounts hold after a history is what they hold for its two parts together.
pub fn histories_split()
    ensures split { (low high : ℕ) (h : List Accepted) → IsHistory h
        → Splits low high h (part_of (in_range low high) h) (part_of (out_of_range low high) h) }
{}

/// A text is one statement at most, and then none of its lines is bad. Where it says of the business day what the
/// books say of each loan, confirming it finds no difference. The text that `statement` writes is such a one.
pub fn a_text_is_one_statement()
    ensures not_bad { (text : List ℕ) (day : ℕ) (stated : List lines.StatementLine) → IsStatement text day stated
        → (line : ℕ) → IsBadLine text line → ⊥ }
    ensures one_day { (text : List ℕ) (day day2 : ℕ) (stated stated2 : List lines.StatementLine)
        → IsStatement text day stated → IsStatement text day2 stated2 → day ≡ day2 }
    ensures one { (text : List ℕ) (day day2 : ℕ) (stated stated2 : List lines.StatementLine)
        → IsStatement text day stated → IsStatement text day2 stated2 → stated ≡ stated2 }
    ensures same { (w : World) (text written : List ℕ) → IsStatement text w.today (stated_loans w)
        → IsConfirmation w text written → written ≡ text_of_no_difference (stated_loans w) }
    ensures own { (h : List Accepted) → IsHistory h
        → IsStatement (text_of_statement (world h)) (world h).today (stated_loans (world h)) }
{}
