//! What becomes of a borrower's request.

ghost use Rattle.std.specs.Prelude.{◌≡◌, ◌+◌, ◌≤◌, None, Some, IfErr, IfOk, OnOk, false};
ghost use Rattle.svc_base.specs.Calendar.{IsReadDay};
ghost use Rattle.svc_types.specs.Terms.{IsSound};
ghost use Rattle.svc_spec.specs.Books.{AreBooks};
ghost use Rattle.svc_spec.specs.Installments.{due_day};
ghost use Rattle.svc_spec.specs.Payoff.{is_current as is_current_on};
ghost use Rattle.svc_world.specs.World.{world};
ghost use Rattle.svc_core.specs.Core.{IsQueryFault};
ghost use Rattle.pmi_track.specs.Insurance as insurance;
ghost use Rattle.pmi_track.specs.Insured.{asked_cost, insurance_refusal};
ghost use Rattle.pmi_track.specs.Loans.{OfLoan, terms_in};

use crate::books::books_on_any;
use crate::ending::is_within;
use crate::insured_loan::InsuredLoan;
use crate::pmi_outcome::Denial;
use crate::schedule::{due_by, scheduled};
use std::sync::ledger::Ledger;
use svc_apply::{is_current, open_installment};
use svc_base::{Cents, Day, Steps};
use svc_core::{Core, CoreFault};
use svc_replay::LoanBooks;
use svc_types::{Books, Terms};

/// Why the borrower's request is denied, where there was one. It is refused where its day is after the
/// business day or before the boarded day; beside that it fails for want of memory alone.
pub(crate) fn denial_of<B: LoanBooks, L: Ledger>(
    core: &Core<B>,
    insured: &InsuredLoan,
    terms: &Terms,
    steps: &mut Steps<L>,
) -> Result<Option<Denial>, CoreFault>
    requires terms { terms_in (world core.now.history) insured.now.loan ≡ Some terms.now }
    ensures denial { IfOk result (λ d. OfLoan core.now.history insured.now.loan
        (λ a. d ≡ insurance.denial_of a insured.now.value insured.now.asked)) }
    ensures told { OnOk result (insurance_refusal (world core.now.history) insured.now ≡ None) }
    ensures refused { IfErr result (IsQueryFault (insurance_refusal (world core.now.history) insured.now)) }
    ensures steps { OfLoan core.now.history insured.now.loan
        (λ a. steps.new ≤ steps.old + asked_cost B.cost insured.now.asked a) }
{
    core.history_holds();
    let Some(day) = insured.asked else {
        return Ok(None);
    };
    let books = books_on_any(core, insured.loan, terms, day, steps)?;
    Ok(denial_with(&books, terms, day, insured.value))
}

/// Why a request of a day is denied, by the books of that day.
fn denial_with(books: &Books, terms: &Terms, day: Day, value: Cents) -> Option<Denial>
    requires terms { IsSound terms.now }
    requires boarded { IsReadDay terms.now.boarded }
    requires books { AreBooks terms.now books.now }
    ensures { result ≡ insurance.denial_with books.now terms.now day value }
{
    if !is_current(books, terms, day) {
        return Some(Denial::NotCurrent(open_day(books, terms, day)));
    }
    let balance = books.upb.min(scheduled(terms, due_by(terms, day)));
    if is_within(80, value, balance) {
        return None;
    }
    Some(Denial::Above(balance))
}

/// The day on which the open installment was due of a borrower who is not current.
fn open_day(books: &Books, terms: &Terms, day: Day) -> Day
    requires terms { IsSound terms.now }
    requires boarded { IsReadDay terms.now.boarded }
    requires books { AreBooks terms.now books.now }
    requires late { is_current_on terms.now day books.now ≡ false }
    ensures { result ≡ due_day terms.now books.now.next }
{
    match open_installment(books, terms) {
        Some(installment) => installment.due,
        None => unreachable!(),
    }
}
