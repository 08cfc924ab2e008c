//! The books of a loan, kept at each month's end and now.

ghost use Rattle.std.specs.Prelude.{◌≡◌, ◌-◌, ◌<◌, MatchOption, IfSome, None, Some, true};
ghost use Rattle.svc_base.specs.Calendar.{month_of as month_number};
ghost use Rattle.svc_spec.specs.Accounts.{entry_of};

use crate::ends::{collected_before, collected_by, folded, push_on, refreshed};
use crate::month_end::MonthEnd;
use std::alloc::Global;
use std::marker::Model;
use std::sync::ledger::Ledger;
use svc_base::{Day, Month, OutOfMemory, Steps, make_room, month_of};
use svc_replay::{
    BookFault, Cursor, Lates, LoanAccount, LoanBooks, facts_between, fold_last, fold_on,
};
use svc_types::{Books, Entry, MonthFacts, Terms};

/// By how many months at least the list of their ends grows: by twice those for which room is made ahead, so that it grows
/// every second time.
const STEP: usize = 8;

/// Books with checkpoints: all entries and reversals, the live entries in order, the books at the end
/// of each month from the boarded one to the one before the business day's, and those of the business
/// day. A change folds from the checkpoint before its month on.
#[derive(Drop)]
pub struct Checked {
    kept: LoanAccount,
    ends: Vec<MonthEnd>,
    now: Books,
    lates: Lates,
}

impl Model for Checked {
    ghost use Rattle.std.specs.Prelude.{◌-◌, vec_len, vec_capacity};
    ghost use Rattle.svc_replay.specs.Kept.{Kept};
    ghost use Rattle.svc_checkpoint.specs.Ends.{AreChecked};

    ghost Value = { Kept };

    ghost view = { λ c. record {
      account = c.kept.account;
      room = record {
        entries = c.kept.room.entries;
        reversals = c.kept.room.reversals;
        months = vec_capacity c.ends - vec_len c.ends;
      };
    } };

    ghost invariant = { λ c. AreChecked c.kept.account c.ends.items c.now c.lates };
}

impl LoanBooks for Checked {
    ghost use Rattle.svc_spec.specs.Months.{cost_of_month};

    ghost account = { λ c. c.account };

    ghost room = { λ c. c.room };

    ghost cost = { λ a m. cost_of_month a m };

    ghost month_cost = { λ a m. 0 };

    fn begin<L: Ledger>(
        alloc: Global,
        terms: Terms,
        today: Day,
        steps: &mut Steps<L>,
    ) -> Result<Checked, OutOfMemory> {
        // the calendar has the business day
        let place = today.day();
        prove!(place >= 1);
        let boarded = terms.boarded;
        let kept = LoanAccount::new(alloc, terms, today);
        let mut ends = Vec::new(alloc);
        make_room(&mut ends, months_between(boarded, today), STEP)?;
        let mut now = kept.refolded(boarded, steps);
        let mut cursor = Cursor::after(kept.terms(), &kept.live(), boarded);
        push_on(&kept, &mut ends, &mut now, &mut cursor, today, steps);
        let lates = cursor.lates();
        Ok(Checked {
            kept,
            ends,
            now,
            lates,
        })
    }

    #[inline(always)]
    fn reserve(&mut self, today: Day) -> Result<(), OutOfMemory> {
        self.kept.reserve()?;
        make_room(
            &mut self.ends,
            months_between(self.kept.today(), today),
            STEP,
        )?;
        Ok(())
    }

    fn post<L: Ledger>(&mut self, entry: Entry, steps: &mut Steps<L>) -> Result<(), BookFault> {
        // the boarded day is that of the terms
        self.kept.is_account();
        let is_last = self.kept.is_quiet_after(entry.day);
        self.kept.post(&entry)?;
        if is_last {
            self.kept.is_account();
            fold_last(&mut self.now, self.kept.terms(), &entry, steps);
            return Ok(());
        }
        self.now = refreshed(&self.kept, &mut self.ends, month_of(entry.day), steps);
        Ok(())
    }

    fn reverse<L: Ledger>(
        &mut self,
        number: u32,
        by: u32,
        steps: &mut Steps<L>,
    ) -> Result<(), BookFault> {
        let Some(month) = month_of_entry(&self.kept, number) else {
            return Err(BookFault::NoSuchEntry);
        };
        self.kept.reverse(number, by)?;
        self.now = refreshed(&self.kept, &mut self.ends, month, steps);
        Ok(())
    }

    fn advance<L: Ledger>(&mut self, today: Day, steps: &mut Steps<L>) -> Result<(), OutOfMemory> {
        // the calendar has the business day
        let place = today.day();
        prove!(place >= 1);
        if is_quiet_to(&self.kept, &self.lates, today) {
            self.now.day = today;
            self.kept.advance(today);
            return Ok(());
        }
        make_room(
            &mut self.ends,
            months_between(self.kept.today(), today),
            STEP,
        )?;
        let mut cursor = Cursor::after_all(
            self.kept.terms(),
            &self.kept.live(),
            self.kept.today(),
            &self.lates,
        );
        push_on(
            &self.kept,
            &mut self.ends,
            &mut self.now,
            &mut cursor,
            today,
            steps,
        );
        self.lates = cursor.lates();
        self.kept.advance(today);
        Ok(())
    }

    fn kept(&self) -> &LoanAccount {
        &self.kept
    }

    fn terms(&self) -> &Terms {
        self.kept.terms()
    }

    fn is_account(&self) {
        self.kept.is_account();
    }

    fn now(&self) -> &Books {
        &self.now
    }

    fn entry(&self, number: u32) -> Option<Entry> {
        self.kept.entry(number)
    }

    fn reversed_by(&self, number: u32) -> Option<u32> {
        self.kept.reversed_by(number)
    }

    fn books_at<L: Ledger>(&self, day: Day, steps: &mut Steps<L>) -> Books {
        folded(&self.kept, &self.ends, day, steps)
    }

    fn books_ahead<L: Ledger>(&self, day: Day, steps: &mut Steps<L>) -> Books {
        self.kept.is_account();
        let mut books = self.now;
        fold_on(&mut books, self.kept.terms(), &self.kept.live(), day, steps);
        books
    }

    fn month<L: Ledger>(&self, month: Month, _steps: &mut Steps<L>) -> MonthFacts {
        let before = collected_before(&self.kept, &self.ends, month);
        let after = collected_by(&self.kept, &self.ends, &self.now, month);
        facts_between(month, &before, &after)
    }
}

/// How many months a day's month is after an earlier day's.
fn months_between(earlier: Day, day: Day) -> usize
    ensures { result ≡ month_number day - month_number earlier }
{
    month_of(day)
        .number()
        .saturating_sub(month_of(earlier).number()) as usize
}

/// The month of the entry with that number.
fn month_of_entry(kept: &LoanAccount, number: u32) -> Option<Month>
    ensures { MatchOption (entry_of kept.now.account number) (result ≡ None)
        (λ entry. result ≡ Some (month_number entry.day)) }
{
    match &kept.entry(number) {
        Some(entry) => Some(month_of(entry.day)),
        None => None,
    }
}

/// Whether no month begins and no late charge falls due after the business day, up to a later day.
fn is_quiet_to(kept: &LoanAccount, lates: &Lates, day: Day) -> bool
    ensures month { result ≡ true → month_number day ≡ month_number kept.now.account.today }
    ensures late { result ≡ true → IfSome lates.now.next (λ late. day < late) }
{
    if month_of(day) != month_of(kept.today()) {
        return false;
    }
    match &lates.next {
        Some(late) => day < *late,
        None => true,
    }
}
