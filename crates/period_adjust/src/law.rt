//! What holds of all reports and adjustments, whatever calls were made.

ghost use Rattle.std.specs.Prelude.{◌≡◌, ℕ, ◌≤◌, List, [], ◌++◌, pos, Some};
ghost use Rattle.std.specs.List.{All};
ghost use Rattle.period_adjust.specs.Sealed.{Sealed, Reporting, reporting};
ghost use Rattle.period_adjust.specs.Sums.{DuePart};
ghost use Rattle.period_adjust.specs.Totals.{Call, total, after, after_all, given, given_last, SendsItsSums};
ghost use Rattle.period_adjust.specs.Conditions.{MayCall, MayCallAll, IsClosed, first_month, last_month};
ghost use Rattle.period_adjust.specs.Kept.{AreSealed};

/// After any changes of dues and any closings of months, what was reported, what was sent and what
/// is pending for a month of a loan add up to the due that was given for it last. In each report
/// the sums of a loan's lines are those of the adjustments that it sends. And reports only grow. It
/// does nothing.
pub fn reports_add_up()
    ensures sums { (calls : List Call) (part : DuePart) (loan month : ℕ) →
        MayCallAll (reporting [] []) calls →
        total part loan month (after_all (reporting [] []) calls) ≡ given_last part loan month (pos 0) calls }
    ensures lines { (calls : List Call) → MayCallAll (reporting [] []) calls →
        All SendsItsSums (after_all (reporting [] []) calls).reports }
    ensures grow { (old : Reporting) (calls : List Call) →
        (more : List Sealed) × ((after_all old calls).reports ≡ old.reports ++ more) }
{}

/// One change of dues, or one closing of a month, from any sealed reports and adjustments on: what
/// was reported, sent and is pending for a month of a loan adds up to the due that it gives, or
/// stays where it gives none; reports and adjustments stay sealed, and the sums in the lines those
/// of the adjustments sent. It does nothing.
pub fn call_adds_up()
    ensures sealed { (old : Reporting) (call : Call) → AreSealed old → MayCall old call →
        AreSealed (after old call) }
    ensures sums { (old : Reporting) (call : Call) (part : DuePart) (loan month : ℕ) →
        AreSealed old → MayCall old call →
        total part loan month (after old call) ≡ given part loan month (total part loan month old) call }
    ensures lines { (old : Reporting) (call : Call) → MayCall old call →
        All SendsItsSums old.reports → All SendsItsSums (after old call).reports }
{}

/// The closed months are those from the first to the last one. It does nothing.
pub fn closed_months_follow()
    ensures closed { (s : Reporting) (first last month : ℕ) → AreSealed s →
        first_month s.reports ≡ Some first → last_month s.reports ≡ Some last →
        first ≤ month → month ≤ last → IsClosed s.reports month }
    ensures from { (s : Reporting) (first month : ℕ) → AreSealed s →
        first_month s.reports ≡ Some first → IsClosed s.reports month → first ≤ month }
    ensures to { (s : Reporting) (last month : ℕ) → AreSealed s →
        last_month s.reports ≡ Some last → IsClosed s.reports month → month ≤ last }
{}
