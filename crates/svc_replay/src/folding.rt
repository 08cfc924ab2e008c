//! The books of a loan at a day.

ghost use Rattle.std.specs.Prelude.{◌≡◌, ◌+◌, ◌≤◌, length, true};
ghost use Rattle.std.specs.List.{All};
ghost use Rattle.svc_base.specs.Calendar.{IsReadDay};
ghost use Rattle.svc_types.specs.Terms.{IsSound};
ghost use Rattle.svc_spec.specs.Books.{AreBooks, AreWithin, IsAct};
ghost use Rattle.svc_spec.specs.Entries.{AreEntries};
ghost use Rattle.svc_spec.specs.Events.{books_at, event_of, events_to, folded};
ghost use Rattle.svc_spec.specs.Step.{step};
ghost use Rattle.svc_spec.specs.Months.{counted};
ghost use Rattle.svc_spec.proofs.DayLemmas.{on};
ghost use Rattle.svc_spec.proofs.EventLemmas.{CanFold};
ghost use Rattle.svc_replay.specs.Left.{left, next_late, IsBy, IsPlace};

use crate::cursor::Cursor;
use crate::entries::Live;
use std::sync::ledger::Ledger;
use svc_apply::{fold_step, start};
use svc_base::{Day, Steps};
use svc_types::{Books, Entry, Event, Terms, What};

/// The books of a loan at a day, folded anew from boarding over its live entries in their order of
/// effect. It counts one step for each event, and one for each installment that is satisfied.
pub fn refold<L: Ledger>(terms: &Terms, live: &Live, day: Day, steps: &mut Steps<L>) -> Books
    requires terms { IsSound terms.now }
    requires boarded { IsReadDay terms.now.boarded }
    requires after { terms.now.boarded ≤ day }
    requires count { length live.now ≤ 4096 }
    requires entries { AreEntries terms.now live.now }
    ensures books { result ≡ books_at terms.now live.now day }
    ensures sound { AreBooks terms.now result }
    ensures steps { steps.new + 1 ≡ steps.old + counted terms.now live.now day }
{
    let mut books = start(terms);
    let mut cursor = Cursor::new(terms);
    fold_left(&mut books, &mut cursor, terms, live, day, steps);
    books
}

/// Folds the books of a loan on from a day to a later one. It counts a step for each event after that day,
/// and one for each installment that is satisfied.
pub fn fold_on<L: Ledger>(
    books: &mut Books,
    terms: &Terms,
    live: &Live,
    day: Day,
    steps: &mut Steps<L>,
)
    requires terms { IsSound terms.now }
    requires boarded { IsReadDay terms.now.boarded }
    requires since { terms.now.boarded ≤ books.old.day }
    requires until { books.old.day ≤ day }
    requires count { length live.now ≤ 4096 }
    requires entries { AreEntries terms.now live.now }
    requires earlier { books.old ≡ books_at terms.now live.now books.old.day }
    ensures books { books.new ≡ books_at terms.now live.now day }
    ensures sound { AreBooks terms.now books.new }
    ensures steps { steps.new + counted terms.now live.now books.old.day
        ≡ steps.old + counted terms.now live.now day }
{
    let mut cursor = Cursor::after(terms, live, books.day);
    fold_along(books, &mut cursor, terms, live, day, steps);
}

/// Folds the books of a loan on from a place after all events up to their day, to the place after all up to a later
/// one. It counts as `fold_on` does.
pub fn fold_along<L: Ledger>(
    books: &mut Books,
    cursor: &mut Cursor,
    terms: &Terms,
    live: &Live,
    day: Day,
    steps: &mut Steps<L>,
)
    requires terms { IsSound terms.now }
    requires boarded { IsReadDay terms.now.boarded }
    requires since { terms.now.boarded ≤ books.old.day }
    requires until { books.old.day ≤ day }
    requires count { length live.now ≤ 4096 }
    requires entries { AreEntries terms.now live.now }
    requires earlier { books.old ≡ books_at terms.now live.now books.old.day }
    requires place { IsPlace terms.now live.now books.old.day cursor.old }
    ensures books { books.new ≡ books_at terms.now live.now day }
    ensures sound { AreBooks terms.now books.new }
    ensures place { IsPlace terms.now live.now day cursor.new }
    ensures steps { steps.new + counted terms.now live.now books.old.day
        ≡ steps.old + counted terms.now live.now day }
{
    fold_left(books, cursor, terms, live, day, steps);
}

/// Folds one more entry into the books of a day on which nothing else happened since its own. It counts a step, and
/// one for each installment that is satisfied.
pub fn fold_last<L: Ledger>(books: &mut Books, terms: &Terms, entry: &Entry, steps: &mut Steps<L>)
    requires terms { IsSound terms.now }
    requires boarded { IsReadDay terms.now.boarded }
    requires books { AreBooks terms.now books.old }
    requires act { IsAct entry.now.act }
    requires limits { AreWithin (step terms.now (event_of entry.now) (on entry.now.day books.old)) }
    ensures books { books.new ≡ on books.old.day
        (step terms.now (event_of entry.now) (on entry.now.day books.old)) }
    ensures sound { AreBooks terms.now books.new }
    ensures steps { steps.new + books.old.next ≡ steps.old + 1 + books.new.next }
{
    let day = books.day;
    books.day = entry.day;
    let event = Event {
        day: entry.day,
        what: What::Act(entry.act),
    };
    fold_step(books, terms, &event, steps);
    books.day = day;
}

/// Whether no event of a loan is after a day, up to a later one.
pub(crate) fn is_quiet(terms: &Terms, live: &Live, day: Day, until: Day) -> bool
    requires terms { IsSound terms.now }
    requires boarded { IsReadDay terms.now.boarded }
    requires since { terms.now.boarded ≤ day }
    requires later { day ≤ until }
    requires entries { AreEntries terms.now live.now }
    ensures { result ≡ true → All (λ e. e.day ≤ day) (events_to terms.now live.now until) }
{
    let mut cursor = Cursor::after(terms, live, day);
    cursor.next(terms, live, until).is_none()
}

/// Folds what is left of the events up to a day into books.
fn fold_left<L: Ledger>(
    books: &mut Books,
    cursor: &mut Cursor,
    terms: &Terms,
    live: &Live,
    day: Day,
    steps: &mut Steps<L>,
)
    requires terms { IsSound terms.now }
    requires boarded { IsReadDay terms.now.boarded }
    requires entries { AreEntries terms.now live.now }
    requires next { cursor.old.lates.next ≡ next_late terms.now cursor.old.lates.count }
    requires can { CanFold terms.now books.old
        (left terms.now live.now day cursor.old.month cursor.old.lates.count cursor.old.entry) }
    ensures books { books.new ≡ on day (folded terms.now books.old
        (left terms.now live.now day cursor.old.month cursor.old.lates.count cursor.old.entry)) }
    ensures sound { AreBooks terms.now books.new }
    ensures place { IsBy terms.now live.now day cursor.old.month cursor.old.lates.count cursor.old.entry
        → IsPlace terms.now live.now day cursor.new }
    ensures steps { steps.new + books.old.next ≡ steps.old
        + length (left terms.now live.now day cursor.old.month cursor.old.lates.count cursor.old.entry) + books.new.next }
{
    while let Some(event) = cursor.next(terms, live, day) {
        fold_step(books, terms, &event, steps);
    }
    books.day = day;
}
