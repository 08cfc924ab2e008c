//! What satisfies a loan, what may be refunded, and who is current.

ghost use Rattle.std.specs.Prelude.{◌≡◌, ◌+◌, ◌≤◌, ◌<◌, ◌*◌, pos, ◌<ℤ◌, ◌≤ℤ◌, ◌+ℤ◌};
ghost use Rattle.svc_base.specs.Calendar.{IsReadDay};
ghost use Rattle.svc_types.specs.Terms.{IsSound};
ghost use Rattle.svc_spec.specs.Books.{AreBooks, AreWithin, HaveSigns};
ghost use Rattle.svc_spec.specs.Payoff as rule;
ghost use Rattle.svc_apply.specs.Conditions.{AreNear};

use crate::installment::due_month;
use svc_base::{Cents, Day, add_days, day_interest, days360, first_day};
use svc_types::{Books, Terms};

/// What a payoff on a day asks of the borrower beside the money in suspense, in cents: the balance,
/// interest by days of a year of 360, late charges, and what was advanced for escrow.
pub fn payoff_due(books: &Books, terms: &Terms, day: Day) -> Cents
    requires terms { IsSound terms.now }
    requires boarded { IsReadDay terms.now.boarded }
    requires books { AreBooks terms.now books.now }
    ensures { result ≡ rule.payoff_due terms.now day books.now }
{
    let asked = payoff_sum(books, terms, day);
    (asked - books.suspense).max(0)
}

/// All that a payoff on a day asks, in cents.
#[tactic(auto, using(svc_base::proofs::CentsRules::cents), unfolding(svc_spec::specs::Payoff::payoff_sum))]
pub(crate) fn payoff_sum(books: &Books, terms: &Terms, day: Day) -> Cents
    requires terms { IsSound terms.now }
    requires boarded { IsReadDay terms.now.boarded }
    requires signs { HaveSigns terms.now books.now }
    requires sums { AreNear books.now }
    ensures value { result ≡ rule.payoff_sum terms.now day books.now }
    ensures low { pos 0 ≤ℤ result }
    ensures high { result ≤ℤ pos 3_000_000_000_000_000_000 }
{
    let principal = payoff_principal(books, terms, day);
    let advanced = escrow_advanced(books);
    principal + books.late_owed + advanced
}

/// The balance and its interest, where the loan is not satisfied.
fn payoff_principal(books: &Books, terms: &Terms, day: Day) -> Cents
    requires terms { IsSound terms.now }
    requires boarded { IsReadDay terms.now.boarded }
    requires signs { HaveSigns terms.now books.now }
    ensures value { result ≡ rule.payoff_principal terms.now day books.now }
    ensures low { pos 0 ≤ℤ result }
    ensures high { result ≤ℤ pos 1_000_000_000_000 }
{
    if books.upb <= 0 {
        return 0;
    }
    let interest = day_interest(books.upb, terms.rate, payoff_days(books, terms, day));
    books.upb + interest
}

/// The days of interest that a payoff asks, from the last satisfied due date, months of 30 days.
pub(crate) fn payoff_days(books: &Books, terms: &Terms, day: Day) -> u32
    requires terms { IsSound terms.now }
    requires boarded { IsReadDay terms.now.boarded }
    requires signs { HaveSigns terms.now books.now }
    requires owed { pos 0 <ℤ books.now.upb }
    ensures value { result ≡ rule.payoff_days terms.now day books.now }
    ensures bound { result ≤ 60_000 }
{
    let through = first_day(due_month(terms, books.next).previous());
    days360(through, day)
}

/// What the servicer has advanced for escrow, in cents.
pub(crate) fn escrow_advanced(books: &Books) -> Cents
    requires { AreNear books.now }
    ensures value { result ≡ rule.escrow_advanced books.now }
    ensures low { pos 0 ≤ℤ result }
    ensures high { result ≤ℤ pos 1_000_000_000_000_000_000 }
{
    (-books.escrow).max(0)
}

/// What may be refunded to the borrower, in cents: escrow, and on a satisfied loan suspense too.
pub fn available(books: &Books) -> Cents
    requires suspense { pos 0 ≤ℤ books.now.suspense }
    requires within { AreWithin books.now }
    ensures { result ≡ rule.available books.now }
{
    if books.upb > 0 {
        return books.escrow.max(0);
    }
    (books.suspense + books.escrow).max(0)
}

/// Whether the borrower is current on a day: the loan is satisfied, or the open installment's due
/// day plus 30 is not past.
pub fn is_current(books: &Books, terms: &Terms, day: Day) -> bool
    requires terms { IsSound terms.now }
    requires boarded { IsReadDay terms.now.boarded }
    requires books { AreBooks terms.now books.now }
    ensures { result ≡ rule.is_current terms.now day books.now }
{
    if books.upb <= 0 {
        return true;
    }
    day <= add_days(first_day(due_month(terms, books.next)), 30)
}
