//! The laws of the books over every history of accepted commands, as theorems: the functions have no code.

ghost use Rattle.std.specs.Prelude.{◌≡◌, ◌++◌, ◌∷◌, [], Some, ◌≤ℤ◌, pos, ℕ, ℤ, List, length};
ghost use Rattle.std.specs.List.{All};
ghost use Rattle.svc_types.specs.declared.terms.Terms.{Terms};
ghost use Rattle.svc_types.specs.declared.requests.TypeChange.{TypeChange};
ghost use Rattle.svc_types.specs.declared.requests.Command.{Command};
ghost use Rattle.svc_types.specs.declared.requests.Command.TheVariants as command;
ghost use Rattle.svc_types.specs.declared.replies.Refusal.{Refusal};
ghost use Rattle.svc_types.specs.declared.requests.Query.{Query};
ghost use Rattle.svc_types.specs.declared.requests.Query.TheVariants as query;
ghost use Rattle.escrow_analysis.specs.AggregateAnalysis.{IsLeastOpening};
ghost use Rattle.svc_world.specs.Analysing.{least_opening};
ghost use Rattle.svc_world.specs.declared.answer.Answer.{Answer};
ghost use Rattle.svc_world.specs.declared.answer.Answer.TheVariants as answer;
ghost use Rattle.svc_world.specs.Answers.{answer_to, query_refusal};
ghost use Rattle.svc_world.specs.Answered.{IsAnswerTo};
ghost use Rattle.svc_world.specs.World.{Accepted, accepted, first_world, world};
ghost use Rattle.svc_world.specs.Worlds.{AreWorlds};
ghost use Rattle.custodial_book.specs.declared.part.Part.{Part};
ghost use Rattle.svc_world.specs.Custody.{custody_of, rows_in};
ghost use Rattle.svc_world.specs.Judging.{IsHistory, Fresh, Refused, judged};
ghost use Rattle.svc_world.specs.LoanCommands.{business_day, IsAsSaid};
ghost use Rattle.svc_world.specs.Laws.{AreLawful, HasSoundBooks, IsInRange, IsKindIn, IsLawfulStep, IsReversedOnce, IsUnsigned, IsUnsignedReport, ReportsGrow, rows_sum, total_for};
ghost use Rattle.svc_world.specs.LineOrder.{AreInOrder};
ghost use Rattle.svc_world.specs.Owed.{IsCashOwed};
ghost use Rattle.svc_world.specs.Unsigned.{IsUnsignedAnswer};
ghost use Rattle.svc_world.specs.UnsignedRefusals.{IsUnsignedRefusal};

/// What is held after each command of a history is sound: loans by rising number with accounts within
/// their limits, closed months in a row, and reports that add up to the dues.
pub fn worlds_are_sound()
    ensures worlds { (h : List Accepted) → IsHistory h → AreWorlds 0 first_world h }
{}

/// After every history reports and adjustments add up to what is due, each loan's money is conserved, and
/// the rows into each custodial account less those out of it are what it holds for all loans.
pub fn histories_are_lawful()
    ensures lawful { (h : List Accepted) → IsHistory h → AreLawful h }
{}

/// One accepted command more leaves the reports that were sent, and has adjustments only where it is a
/// payment, a deposit, a disbursement or a reversal: of its own loan, and of months from that of its entry on.
pub fn steps_are_lawful()
    ensures step { (h : List Accepted) (key : List ℕ) (c : Command) → IsHistory h → judged h key c ≡ Fresh → IsLawfulStep h c }
{}

/// Reports that were sent stay as they are, whatever is accepted after them: the reports of a history begin with those of
/// each part of it that came first.
pub fn reports_stay()
    ensures stay { (h more : List Accepted) → ReportsGrow (world h) (world (h ++ more)) }
{}

/// After every history, at every day, the books of each loan are books of its terms: its balance lies from 0 to the
/// principal, and suspense and the late charges that are owed are not below 0.
pub fn books_are_sound()
    ensures sound { (h : List Accepted) → IsHistory h → All HasSoundBooks (world h).loans }
{}

/// After every history no entry was reversed twice, and each reversal's number is above that of its entry.
pub fn entries_are_reversed_once()
    ensures once { (h : List Accepted) → IsHistory h → All IsReversedOnce (world h).loans }
{}

/// After every history each loan is what the commands on it say, in their order: its entries, reversals, escrow lines and
/// changes of type are theirs. The business day is the last that a command named.
pub fn loans_are_as_said()
    ensures today { (h : List Accepted) → (world h).today ≡ business_day h }
    ensures said { (h : List Accepted) (id : ℕ) → IsHistory h → IsAsSaid h id }
{}

/// After every history the rows of each loan and part add up to what the loan's total of that part is, from which the
/// custodial line follows; of a loan that is not there they add up to 0.
pub fn rows_add_up()
    ensures sums { (h : List Accepted) (id : ℕ) (part : Part) → IsHistory h
        → rows_sum id part (rows_in h) ≡ total_for (world h) id part }
{}

/// After every history nothing that texts say without a sign is below 0: of the custodial line what the accounts hold,
/// suspense, what is held and what the servicer advanced, of each line of a report both balances; and so of each answer but a
/// command with its reply.
pub fn texts_want_no_sign()
    ensures custody { (h : List Accepted) → IsHistory h → IsUnsigned (custody_of (world h)) }
    ensures reports { (h : List Accepted) → IsHistory h → All IsUnsignedReport (world h).seals.reports }
    ensures answers { (h : List Accepted) (q : Query) (a : Answer) → IsHistory h → answer_to h q ≡ Some a → IsUnsignedAnswer a }
{}

/// After every history no total of the custodial line, over at most 12,000 loans, is further from 0 than 10^18 cents.
pub fn custodial_totals_are_within()
    ensures within { (h : List Accepted) → IsHistory h → IsInRange (custody_of (world h)) }
{}

/// The opening balance of a year of twelve months, none of which pays out less than nothing, is the least with which each
/// of them ends at the cushion or above (12 CFR 1024.17(d)(2)(i)).
pub fn openings_are_least()
    ensures least { (year : List ℤ) (n : ℕ) → length year ≡ 12 → All (λ c. pos 0 ≤ℤ c) year
        → IsLeastOpening year n (least_opening year n) }
{}

/// Of the changes of a loan's remittance type that begin by a month the one that begins last counts in it, of those that
/// begin in one month the one that was accepted last; where none begins by then it is the type of the terms.
pub fn last_change_counts()
    ensures kind { (t : Terms) (types : List TypeChange) (month : ℕ) → IsKindIn t types month }
{}

/// Quotes come true: where a business day is accepted next, what is then due to pay a loan off on it is answered, and is what
/// the quote for that day said before.
pub fn quotes_come_true()
    ensures due { (h : List Accepted) (key : List ℕ) (id day : ℕ) (cents perday : ℤ) → IsHistory h
        → judged h key (command.Day day) ≡ Fresh
        → answer_to h (query.Quote id day) ≡ Some (answer.Quote id day cents perday)
        → IsAnswerTo (h ++ accepted key (command.Day day) ∷ []) (query.Payoff id day) (answer.Payoff id day cents) }
{}

/// The first commands of a history are a history: what is said of every history holds after each of its commands.
pub fn first_parts_are_histories()
    ensures first { (h more : List Accepted) → IsHistory (h ++ more) → IsHistory h }
{}

/// Custodial cash is, to the cent, what borrowers, the investor and the servicer are owed: by the rows of all commands and by
/// the custodial line, for each account and for both.
pub fn cash_is_owed()
    ensures owed { (h : List Accepted) → IsHistory h → IsCashOwed h }
{}

/// A loan's escrow lines stand in the order of the commands that made them; one that is set again keeps its place.
pub fn lines_are_in_order()
    ensures order { (h : List Accepted) (id : ℕ) → IsHistory h → AreInOrder h id }
{}

/// An amount that a refusal names, of a command or of a query, is not below 0.
pub fn refusals_want_no_sign()
    ensures commands { (h : List Accepted) (key : List ℕ) (c : Command) (why : Refusal) → IsHistory h
        → judged h key c ≡ Refused why → IsUnsignedRefusal why }
    ensures queries { (h : List Accepted) (q : Query) (why : Refusal) → query_refusal h q ≡ Some why
        → IsUnsignedRefusal why }
{}
