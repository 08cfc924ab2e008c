//! The account of a loan: its entries and reversals, and the live entries in order.

ghost use Rattle.std.specs.Prelude.{◌≡◌, ◌+◌, ◌≤◌, ◌<◌, length, true, None, IfSome, IsErrOf, IsOk, OnOk, OnErr};
ghost use Rattle.std.specs.Prelude.{IfErr};
ghost use Rattle.svc_base.specs.Calendar.{month_of as month_number, months_end};
ghost use Rattle.svc_spec.specs.Accounts as rule;
ghost use Rattle.svc_spec.specs.Books.{AreBooks};
ghost use Rattle.svc_spec.specs.Months.{cost_of_month, counted};
ghost use Rattle.svc_replay.specs.Faults.{most_entries, IsPostFault, IsReverseFault};
ghost use Rattle.svc_replay.specs.Kept.{IsLoweredBy, IsQuietAfter, nothing, one_entry, one_reversal};

use crate::entries::{Entries, Live};
use crate::fault::BookFault;
use crate::folding::{is_quiet, refold};
use crate::records::STEP;
use std::alloc::Global;
use std::marker::Model;
use std::sync::ledger::Ledger;
use svc_base::{Day, OutOfMemory, Steps, make_room};
use svc_types::{Books, Entry, Terms};

/// The most entries of a loan, reversed ones counted.
const MOST_ENTRIES: usize = 4_096;

/// A loan's terms, all its entries by number, their reversals and the business day. It keeps beside
/// each entry what reversed it, and the places of the live ones in the order in which they take effect.
#[derive(Drop)]
pub struct LoanAccount {
    terms: Terms,
    today: Day,
    entries: Entries,
    reversers: Vec<Option<u32>>,
    reversals: Vec<(u32, u32)>,
}

impl Model for LoanAccount {
    ghost use Rattle.std.specs.Prelude.{◌-◌, min, vec_len, vec_capacity};
    ghost use Rattle.svc_base.specs.Calendar.{months_end};
    ghost use Rattle.svc_replay.specs.Kept.{Kept, IsKept};

    ghost Value = { Kept };

    ghost view = { λ a. record {
      account = record {
        terms = a.terms;
        entries = a.entries.all;
        reversals = a.reversals.items;
        today = a.today;
      };
      room = record {
        entries = min a.entries.room (vec_capacity a.reversers - vec_len a.reversers);
        reversals = vec_capacity a.reversals - vec_len a.reversals;
        months = months_end;
      };
    } };

    ghost invariant = { λ a. IsKept
        (record {
          terms = a.terms;
          entries = a.entries.all;
          reversals = a.reversals.items;
          today = a.today;
        })
        a.entries.live a.reversers.items };
}

impl LoanAccount {
    /// The account of a loan at boarding.
    pub fn new(alloc: Global, terms: Terms, today: Day) -> LoanAccount
        requires { rule.MayBegin terms today }
        ensures { result.account ≡ rule.begun terms today }
    {
        LoanAccount {
            terms,
            today,
            entries: Entries::new(alloc),
            reversers: Vec::new(alloc),
            reversals: Vec::new(alloc),
        }
    }

    /// Makes room for one more entry and one more reversal; fails for want of memory alone.
    pub fn reserve(&mut self) -> Result<(), OutOfMemory>
        ensures kept { self.new.account ≡ self.old.account }
        ensures entry { OnOk result (1 ≤ self.new.room.entries) }
        ensures reversal { OnOk result (1 ≤ self.new.room.reversals) }
        ensures months { months_end ≤ self.new.room.months }
        ensures room { IsLoweredBy nothing self.old.room self.new.room }
        ensures succeeds { 1 ≤ self.old.room.entries → 1 ≤ self.old.room.reversals → IsOk result }
    {
        self.entries.reserve()?;
        make_room(&mut self.reversers, 1, STEP)?;
        make_room(&mut self.reversals, 1, 0)?;
        Ok(())
    }

    /// Adds an entry, which takes its place among the live ones by its day. It is Full at 4,096
    /// entries, and memory is wanted only where no room is left.
    pub fn post(&mut self, entry: &Entry) -> Result<(), BookFault>
        requires { rule.MayPost self.old.account entry.now }
        ensures ok { OnOk result (self.new.account ≡ rule.posted entry.now self.old.account) }
        ensures kept { OnErr result (self.new.account ≡ self.old.account) }
        ensures full { most_entries ≤ length self.old.account.entries → IsErrOf result BookFault.Full }
        ensures fault { IfErr result (IsPostFault self.old.account self.old.room.entries) }
        ensures room { IsLoweredBy one_entry self.old.room self.new.room }
        ensures kept_room { OnErr result (IsLoweredBy nothing self.old.room self.new.room) }
    {
        if self.entries.all().len() >= MOST_ENTRIES {
            return Err(BookFault::Full);
        }
        // the calendar has the day of the entry
        let place = entry.day.day();
        prove!(place >= 1);
        make_room(&mut self.reversers, 1, STEP)?;
        let place = self.entries.live().place_of(entry);
        self.entries.insert(place, entry)?;
        self.reversers.push_reserved(None);
        Ok(())
    }

    /// Takes an entry out of the live ones, for good. No entry is reversed twice, and memory is
    /// wanted only where no room is left.
    pub fn reverse(&mut self, number: u32, by: u32) -> Result<(), BookFault>
        ensures ok { OnOk result (self.new.account ≡ rule.reversed_in number by self.old.account) }
        ensures kept { OnErr result (self.new.account ≡ self.old.account) }
        ensures unknown { rule.entry_of self.old.account number ≡ None
            → IsErrOf result BookFault.NoSuchEntry }
        ensures again { IfSome (rule.entry_of self.old.account number)
            (λ entry. IfSome (rule.reverser_of self.old.account number)
            (λ earlier. IsErrOf result (BookFault.AlreadyReversed earlier))) }
        ensures fault { IfErr result (IsReverseFault self.old.account number self.old.room.reversals) }
        ensures room { IsLoweredBy one_reversal self.old.room self.new.room }
        ensures kept_room { OnErr result (IsLoweredBy nothing self.old.room self.new.room) }
    {
        let Some(place) = self.entries.all().place_with(number) else {
            return Err(BookFault::NoSuchEntry);
        };
        if let Some(earlier) = self.reversers[place] {
            return Err(BookFault::AlreadyReversed(earlier));
        }
        self.reversals.push((number, by))?;
        self.reversers[place] = Some(by);
        let reversed = self.entries.all().at(place);
        let place = self.entries.live().place_among(&reversed);
        self.entries.remove(place);
        Ok(())
    }

    /// Moves the business day, which never goes back.
    pub fn advance(&mut self, today: Day)
        requires { self.old.account.today ≤ today }
        ensures account { self.new.account ≡ rule.advanced_to today self.old.account }
        ensures room { self.new.room ≡ self.old.room }
    {
        self.today = today;
    }

    /// The terms of the loan.
    pub fn terms(&self) -> &Terms
        ensures { result.now ≡ self.now.account.terms }
    {
        &self.terms
    }

    /// The account is one that boarding, entries, reversals and business days can have made. The call
    /// does nothing.
    pub fn is_account(&self)
        ensures { rule.IsAccount self.now.account }
    {
        let _ = &self.terms;
    }

    /// The business day.
    pub fn today(&self) -> Day
        ensures { result ≡ self.now.account.today }
    {
        self.today
    }

    /// All reversals in their order: of each the entry's number, and that of the command which reversed it.
    pub fn reversals(&self) -> &[(u32, u32)]
        ensures { result.now ≡ self.now.account.reversals }
    {
        &self.reversals
    }

    /// The entries that no reversal names, by day, then number.
    pub fn live(&self) -> Live<'_>
        ensures { result ≡ rule.live_of self.now.account }
    {
        self.entries.live()
    }

    /// Whether nothing is known to happen to the loan after a day, up to the business day: no month begins, no late
    /// charge falls due and no entry takes effect.
    pub fn is_quiet_after(&self, day: Day) -> bool
        requires since { self.now.account.terms.boarded ≤ day }
        requires until { day ≤ self.now.account.today }
        ensures { result ≡ true → IsQuietAfter self.now.account day }
    {
        day == self.today || is_quiet(&self.terms, &self.entries.live(), day, self.today)
    }

    /// The entry with that number, reversed or not.
    pub fn entry(&self, number: u32) -> Option<Entry>
        ensures { result ≡ rule.entry_of self.now.account number }
    {
        let place = self.entries.all().place_with(number)?;
        Some(self.entries.all().at(place))
    }

    /// What reversed the entry with that number.
    pub fn reversed_by(&self, number: u32) -> Option<u32>
        ensures { result ≡ rule.reverser_of self.now.account number }
    {
        let place = self.entries.all().place_with(number)?;
        self.reversers[place]
    }

    /// The books at a day from boarding to the business day, folded anew from boarding.
    pub fn refolded<L: Ledger>(&self, day: Day, steps: &mut Steps<L>) -> Books
        requires after { self.now.account.terms.boarded ≤ day }
        requires until { day ≤ self.now.account.today }
        ensures books { result ≡ rule.books_of self.now.account day }
        ensures sound { AreBooks self.now.account.terms result }
        ensures account { rule.IsAccount self.now.account }
        ensures counted { steps.new + 1 ≡ steps.old
            + counted self.now.account.terms (rule.live_of self.now.account) day }
        ensures steps { steps.new ≤ steps.old
            + cost_of_month self.now.account (month_number self.now.account.terms.boarded) }
    {
        refold(&self.terms, &self.entries.live(), day, steps)
    }

    /// The books at a day that is not before the business day, as if nothing else were booked until then, folded anew
    /// from boarding.
    pub fn refolded_ahead<L: Ledger>(&self, day: Day, steps: &mut Steps<L>) -> Books
        requires { self.now.account.today ≤ day }
        ensures books { result ≡ rule.books_of (rule.advanced_to day self.now.account) day }
        ensures sound { AreBooks self.now.account.terms result }
        ensures steps { steps.new ≤ steps.old + cost_of_month (rule.advanced_to day self.now.account)
            (month_number self.now.account.terms.boarded) }
    {
        refold(&self.terms, &self.entries.live(), day, steps)
    }
}
