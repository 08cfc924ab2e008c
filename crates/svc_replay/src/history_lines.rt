//! The history of a loan: its events up to the business day, each with what it changed.

ghost use Rattle.std.specs.Prelude.{◌≡◌, ◌+◌, ◌≤◌, ◌∷◌, ◌++◌, [], drop, length, IfOk, OnOk};
ghost use Rattle.svc_base.specs.Calendar.{IsReadDay, month_of as month_number};
ghost use Rattle.svc_types.specs.Terms.{IsSound};
ghost use Rattle.svc_spec.specs.Books.{AreBooks, start as start_of};
ghost use Rattle.svc_spec.specs.Entries.{AreEntries};
ghost use Rattle.svc_spec.specs.Events.{events_to};
ghost use Rattle.svc_spec.specs.History as rule;
ghost use Rattle.svc_spec.specs.Months.{cost_of_month, counted};

use crate::account::LoanAccount;
use crate::cursor::Cursor;
use crate::entries::Live;
use std::alloc::Global;
use std::sync::ledger::Ledger;
use svc_apply::{fold_step, open_installment, start};
use svc_base::{Day, Month, OutOfMemory, Steps, month_of};
use svc_types::{Books, Event, HistoryLine, Terms, What};

/// The lines of a loan's history up to the business day: of all entries that no reversal names, and of each mark that
/// changed suspense or the late charges owed. It fails for want of memory alone.
pub fn history<L: Ledger>(
    alloc: Global,
    kept: &LoanAccount,
    steps: &mut Steps<L>,
) -> Result<Vec<HistoryLine>, OutOfMemory>
    ensures lines { IfOk result (λ lines. lines.items ≡ rule.history_of kept.now.account) }
    ensures steps { steps.new ≤ steps.old
        + cost_of_month kept.now.account (month_number kept.now.account.terms.boarded) }
{
    kept.is_account();
    lines_to(alloc, kept.terms(), &kept.live(), kept.today(), steps)
}

/// The lines of the events up to a day. It counts one step for each event, and one for each installment that is
/// satisfied.
fn lines_to<L: Ledger>(
    alloc: Global,
    terms: &Terms,
    live: &Live,
    day: Day,
    steps: &mut Steps<L>,
) -> Result<Vec<HistoryLine>, OutOfMemory>
    requires terms { IsSound terms.now }
    requires boarded { IsReadDay terms.now.boarded }
    requires count { length live.now ≤ 4096 }
    requires entries { AreEntries terms.now live.now }
    ensures lines { IfOk result (λ lines. lines.items ≡ rule.lines_of_passed terms.now
        (rule.passed terms.now (start_of terms.now) live.now (events_to terms.now live.now day))) }
    ensures steps { steps.new + 1 ≤ steps.old + counted terms.now live.now day }
{
    let mut lines = Vec::new(alloc);
    let mut books = start(terms);
    let mut cursor = Cursor::new(terms);
    let mut entry = 0;
    while let Some(event) = cursor.next(terms, live, day) {
        let number = next_number(&event.what, live, &mut entry);
        let before = books;
        fold_step(&mut books, terms, &event, steps);
        add_line(&mut lines, terms, &event, number, &before, &books)?;
    }
    Ok(lines)
}

/// The number of an event's entry, the next of the live ones; a mark has none.
fn next_number(what: &What, live: &Live, entry: &mut usize) -> Option<u32>
    requires { entry.old ≤ length live.now }
    ensures number { result ≡ rule.number_for what.now (drop entry.old live.now) }
    ensures left { drop entry.new live.now ≡ rule.left_behind what.now (drop entry.old live.now) }
    ensures bound { entry.new ≤ length live.now }
{
    if !matches!(what, What::Act(_)) || *entry >= live.len() {
        return None;
    }
    let number = live.at(*entry).number;
    *entry += 1;
    Some(number)
}

/// Adds the line of an event, where it has one: by how much each column rose, and where the event left the loan.
fn add_line(
    lines: &mut Vec<HistoryLine>,
    terms: &Terms,
    event: &Event,
    number: Option<u32>,
    before: &Books,
    after: &Books,
) -> Result<(), OutOfMemory>
    requires terms { IsSound terms.now }
    requires boarded { IsReadDay terms.now.boarded }
    requires before { AreBooks terms.now before.now }
    requires after { AreBooks terms.now after.now }
    ensures { OnOk result (lines.new.items ≡ lines.old.items ++ rule.lines_of_passed terms.now
        (record { event = event.now; number = number; before = before.now; after = after.now } ∷ [])) }
{
    if !is_shown(&event.what, before, after) {
        return Ok(());
    }
    let next = open_month(terms, after);
    lines.push(HistoryLine {
        day: event.day,
        number,
        what: event.what,
        interest: after.interest - before.interest,
        principal: after.principal - before.principal,
        escrow: after.escrow - before.escrow,
        late: after.late_owed - before.late_owed,
        charges: after.late_paid - before.late_paid,
        suspense: after.suspense - before.suspense,
        upb: after.upb,
        next,
    })?;
    Ok(())
}

/// Whether an event has a line: an entry, and a mark that changes suspense or the late charges owed.
fn is_shown(what: &What, before: &Books, after: &Books) -> bool
    ensures { result ≡ rule.is_shown what.now before.now after.now }
{
    matches!(what, What::Act(_))
        || before.suspense != after.suspense
        || before.late_owed != after.late_owed
}

/// The month of the open installment, where one is open.
fn open_month(terms: &Terms, books: &Books) -> Option<Month>
    requires terms { IsSound terms.now }
    requires boarded { IsReadDay terms.now.boarded }
    requires books { AreBooks terms.now books.now }
    ensures { result ≡ rule.open_month terms.now books.now }
{
    let installment = open_installment(books, terms)?;
    Some(month_of(installment.due))
}
