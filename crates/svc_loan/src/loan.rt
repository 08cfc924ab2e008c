//! One loan: its books, escrow lines and remittance types, and what is due for its closed months.

ghost use Rattle.std.specs.Prelude.{◌≡◌, ◌+◌, ◌-◌, ◌≤◌, ◌<◌, [], ◌∷◌, ◌++◌, length, map, true, Some, None};
ghost use Rattle.std.specs.Prelude.{OnOk, OnErr, IfOk, IsOk, is_some, vec_len, vec_capacity, pos, neg_ℤ, ◌+ℤ◌, ◌-ℤ◌, ◌≤ℤ◌};
ghost use Rattle.std.specs.List.{list_any, range_with_len};
ghost use Rattle.svc_base.specs.Calendar.{month_of as month_number};
ghost use Rattle.svc_base.specs.Sums.{total_by};
ghost use Rattle.svc_spec.specs.Accounts as rule;
ghost use Rattle.svc_spec.specs.Books.{AreBooks, total};
ghost use Rattle.svc_spec.specs.Totals.{received, returned, refunded, disbursed};
ghost use Rattle.svc_replay.specs.Faults.{most_entries};
ghost use Rattle.svc_replay.specs.Kept.{IsLoweredBy, nothing};
ghost use Rattle.escrow_lines.specs.BillLists.{AreLines, has_id, set_fault};
ghost use Rattle.svc_world.specs.Held as held;
ghost use Rattle.svc_world.specs.LoanDues.{type_change, carry_of, due_of};
ghost use Rattle.svc_world.specs.Custody.{due_sum};
ghost use Rattle.svc_loan.specs.Closed as closed;
ghost use Rattle.svc_loan.specs.Kept.{IsReady, IsAhead, KeepsMonths};
ghost use Rattle.svc_loan.specs.Moved.{moved_of};

use crate::closed::{
    add_dues, carry_after, close_next, due_after, months_between, redo, total_due,
};
use crate::moved::Moved;
use crate::reserved::{advance_reserved, post_reserved, reverse_reserved};
use crate::types::Types;
use escrow_lines::{Line, Lines};
use remit_types::{Carry, MonthDue, first};
use std::alloc::Global;
use std::marker::Model;
use std::sync::ledger::Ledger;
use svc_base::{Cents, Day, Month, OutOfMemory, Steps, make_room, month_of};
use svc_replay::{LoanAccount, LoanBooks};
use svc_types::{Books, Entry, RemitType, Terms, TypeChange};

/// By how many months at least the list of closed ones grows: by twice those for which `Loans` makes room at once, so
/// that it grows every second time.
const STEP: usize = 8;

/// A loan: its number, its books however they are kept, its escrow lines and changes of remittance type,
/// what is carried from each closed month to the next, and what was remitted to the investor for it.
#[derive(Drop)]
pub struct Loan<B: LoanBooks> {
    id: u32,
    books: B,
    lines: Lines,
    types: Types,
    carries: Vec<Carry>,
    moved: Moved,
    remitted: Cents,
}

impl<B: LoanBooks> Model for Loan<B> {
    ghost use Rattle.std.specs.Prelude.{◌-◌, vec_len, vec_capacity};
    ghost use Rattle.svc_loan.specs.Kept.{KeptLoan, held_of};
    ghost use Rattle.svc_loan.specs.Loan.{IsLoan};

    ghost Value = { KeptLoan };

    ghost view = { λ l. record {
      held = held_of l.id (B.account l.books) l.lines l.types.changes;
      closed = vec_len l.carries;
      remitted = l.remitted;
      room = record {
        books = B.room l.books;
        closings = vec_capacity l.carries - vec_len l.carries;
        types = l.types.room;
      };
    } };

    ghost invariant = { λ l. IsLoan (B.account l.books) l.types.changes l.moved
        (vec_len l.carries) l.carries.items };
}

impl<B: LoanBooks> Loan<B> {
    /// A loan that is taken on, on a business day; fails for want of memory alone.
    pub fn begin<L: Ledger>(
        alloc: Global,
        id: u32,
        terms: Terms,
        today: Day,
        steps: &mut Steps<L>,
    ) -> Result<Loan<B>, OutOfMemory>
        requires { rule.MayBegin terms today }
        ensures held { IfOk result (λ l. l.held ≡ held.boarded id terms today) }
        ensures closed { IfOk result (λ l. l.closed ≡ 0) }
        ensures remitted { IfOk result (λ l. l.remitted ≡ pos 0) }
        ensures steps { steps.new ≤ steps.old
            + B.cost (rule.begun terms today) (month_number terms.boarded) }
    {
        // the calendar has the business day
        let month = month_of(today).number();
        prove!(month >= 1);
        let books = B::begin(alloc, terms, today, steps)?;
        Ok(Loan {
            id,
            books,
            lines: Lines::new(),
            types: Types::new(alloc),
            carries: Vec::new(alloc),
            moved: Moved::new(),
            remitted: 0,
        })
    }

    /// Adds an entry, and makes the dues of its month and of later closed months anew.
    pub fn post<L: Ledger>(&mut self, entry: &Entry, steps: &mut Steps<L>)
        requires entry { rule.MayPost self.old.held.account entry.now }
        requires few { length self.old.held.account.entries < most_entries }
        requires room { 1 ≤ self.old.room.books.entries }
        ensures held { self.new.held ≡ held.with_entry entry.now self.old.held }
        ensures closed { self.new.closed ≡ self.old.closed }
        ensures remitted { self.new.remitted ≡ self.old.remitted }
        ensures months { KeepsMonths 0 self.old self.new }
        ensures steps { steps.new ≤ steps.old
            + B.cost self.new.held.account (month_number entry.now.day)
            + closed.closed_cost B.month_cost self.new.held.account self.new.closed
            (month_number entry.now.day) }
    {
        self.books.is_account();
        self.moved = self.moved.with_entry(&entry.act);
        post_reserved(&mut self.books, entry, steps);
        self.books.is_account();
        let stay = months_since(&self.books, month_of(entry.day));
        redo(&mut self.carries, &self.books, &self.types, stay, steps);
    }

    /// Reverses an entry of the loan that is not reversed, and makes the dues of its month and of later
    /// closed months anew.
    pub fn reverse<L: Ledger>(&mut self, entry: &Entry, by: u32, steps: &mut Steps<L>)
        requires entry { rule.entry_of self.old.held.account entry.now.number ≡ Some entry.now }
        requires live { rule.reverser_of self.old.held.account entry.now.number ≡ None }
        requires room { 1 ≤ self.old.room.books.reversals }
        ensures held { self.new.held ≡ held.with_reversal entry.now.number by self.old.held }
        ensures closed { self.new.closed ≡ self.old.closed }
        ensures remitted { self.new.remitted ≡ self.old.remitted }
        ensures months { KeepsMonths 0 self.old self.new }
        ensures steps { steps.new ≤ steps.old
            + B.cost self.new.held.account (month_number entry.now.day)
            + closed.closed_cost B.month_cost self.new.held.account self.new.closed
            (month_number entry.now.day) }
    {
        self.books.is_account();
        reverse_reserved(&mut self.books, entry, by, steps);
        self.moved = self.moved.with_reversal(&entry.act);
        self.books.is_account();
        let stay = months_since(&self.books, month_of(entry.day));
        redo(&mut self.carries, &self.books, &self.types, stay, steps);
    }

    /// Moves the business day on. Closed months had ended before it, so their dues stay.
    pub fn advance<L: Ledger>(&mut self, today: Day, steps: &mut Steps<L>)
        requires later { self.old.held.account.today ≤ today }
        requires room { month_number today
            ≤ month_number self.old.held.account.today + self.old.room.books.months }
        ensures held { self.new.held ≡ held.on_day today self.old.held }
        ensures closed { self.new.closed ≡ self.old.closed }
        ensures remitted { self.new.remitted ≡ self.old.remitted }
        ensures months { KeepsMonths 0 self.old self.new }
        ensures steps { steps.new ≤ steps.old
            + B.cost self.new.held.account (month_number self.old.held.account.today) }
    {
        // the calendar has the business day
        let month = month_of(today).number();
        prove!(month >= 1);
        advance_reserved(&mut self.books, today, steps);
        self.books.is_account();
    }

    /// Adds a change of remittance type, and makes the dues of closed months from its first on anew.
    pub fn retype<L: Ledger>(&mut self, from: Month, kind: RemitType, steps: &mut Steps<L>)
        requires from { held.boarded_month self.old.held ≤ from }
        requires room { 1 ≤ self.old.room.types }
        ensures held { self.new.held ≡ held.with_type (type_change from kind) self.old.held }
        ensures closed { self.new.closed ≡ self.old.closed }
        ensures remitted { self.new.remitted ≡ self.old.remitted }
        ensures months { KeepsMonths 0 self.old self.new }
        ensures steps { steps.new ≤ steps.old
            + closed.closed_cost B.month_cost self.new.held.account self.new.closed from }
    {
        self.types.add(TypeChange { from, kind });
        let stay = months_since(&self.books, from);
        redo(&mut self.carries, &self.books, &self.types, stay, steps);
    }

    /// Sets an escrow line, of which nothing is wrong and for which there is a place.
    pub fn set_line(&mut self, line: Line)
        requires { set_fault line self.old.held.lines ≡ None }
        ensures held { self.new.held ≡ held.with_bill line self.old.held }
        ensures closed { self.new.closed ≡ self.old.closed }
        ensures remitted { self.new.remitted ≡ self.old.remitted }
        ensures months { KeepsMonths 0 self.old self.new }
    {
        match self.lines.set(line) {
            Ok(()) => {}
            Err(_) => unreachable!(),
        }
    }

    /// Takes out the escrow line with an id that some line has.
    pub fn drop_line(&mut self, id: u32)
        requires { list_any (has_id id) self.old.held.lines ≡ true }
        ensures held { self.new.held ≡ held.without_bill id self.old.held }
        ensures closed { self.new.closed ≡ self.old.closed }
        ensures remitted { self.new.remitted ≡ self.old.remitted }
        ensures months { KeepsMonths 0 self.old self.new }
    {
        match self.lines.drop_line(id) {
            Ok(()) => {}
            Err(_) => unreachable!(),
        }
    }

    /// Closes the month after the last closed one, the boarded month first. It has ended.
    pub fn close_month<L: Ledger>(&mut self, steps: &mut Steps<L>)
        requires ended { held.boarded_month self.old.held + self.old.closed
            < month_number self.old.held.account.today }
        requires room { 1 ≤ self.old.room.closings }
        ensures held { self.new.held ≡ self.old.held }
        ensures closed { self.new.closed ≡ self.old.closed + 1 }
        ensures remitted { self.new.remitted ≡ self.old.remitted }
        ensures months { KeepsMonths 1 self.old self.new }
        ensures steps { steps.new ≤ steps.old + B.month_cost self.old.held.account
            (held.boarded_month self.old.held + self.old.closed) }
    {
        close_next(&mut self.carries, &self.books, &self.types, steps);
    }

    /// Adds what a report sends for the loan, in cents, to what was remitted for it.
    #[tactic(auto, using(svc_base::proofs::CentsRules::cents))]
    pub fn remit(&mut self, cents: Cents)
        requires low { neg_ℤ (pos 1_000_000_000_000_000_000) ≤ℤ (self.old.remitted +ℤ cents) }
        requires high { (self.old.remitted +ℤ cents) ≤ℤ pos 1_000_000_000_000_000_000 }
        ensures held { self.new.held ≡ self.old.held }
        ensures closed { self.new.closed ≡ self.old.closed }
        ensures remitted { self.new.remitted ≡ self.old.remitted +ℤ cents }
        ensures months { KeepsMonths 0 self.old self.new }
    {
        self.remitted += cents;
    }

    /// Makes room for one more entry, reversal, change of type and closed month, and for a business day;
    /// fails for want of memory alone.
    #[inline(always)]
    pub fn reserve(&mut self, today: Day) -> Result<(), OutOfMemory>
        ensures held { self.new.held ≡ self.old.held }
        ensures closed { self.new.closed ≡ self.old.closed }
        ensures remitted { self.new.remitted ≡ self.old.remitted }
        ensures months { KeepsMonths 0 self.old self.new }
        ensures ready { OnOk result (IsReady today self.new) }
        ensures succeeds { IsReady today self.old → IsOk result }
    {
        self.books.reserve(today)?;
        self.types.reserve()?;
        make_room(&mut self.carries, 1, STEP)?;
        Ok(())
    }

    /// Makes room for business days up to one and for so many closed months; fails for want of memory alone.
    pub fn reserve_months(&mut self, today: Day, closings: usize) -> Result<(), OutOfMemory>
        ensures held { self.new.held ≡ self.old.held }
        ensures closed { self.new.closed ≡ self.old.closed }
        ensures remitted { self.new.remitted ≡ self.old.remitted }
        ensures months { KeepsMonths 0 self.old self.new }
        ensures ahead { OnOk result (IsAhead (month_number today) closings self.new) }
        ensures succeeds { 1 ≤ self.old.room.books.entries → 1 ≤ self.old.room.books.reversals
            → IsAhead (month_number today) closings self.old → IsOk result }
    {
        self.books.reserve(today)?;
        make_room(&mut self.carries, closings, STEP)?;
        Ok(())
    }

    /// The loan's number.
    pub fn id(&self) -> u32
        ensures { result ≡ self.now.held.id }
    {
        self.id
    }

    /// What holds of every loan: its account is one, its lines are sound, and its closed months ended
    /// before the business day's month. The call does nothing.
    pub fn is_sound(&self)
        ensures account { rule.IsAccount self.now.held.account }
        ensures lines { AreLines self.now.held.lines }
        ensures ended { held.boarded_month self.now.held + self.now.closed
            ≤ month_number self.now.held.account.today }
    {
        let _ = self.lines.len();
        self.books.is_account();
    }

    /// The terms.
    pub fn terms(&self) -> &Terms
        ensures { result.now ≡ self.now.held.account.terms }
    {
        self.books.terms()
    }

    /// The books at the business day. What the loan received, less what was returned, refunded and
    /// disbursed, is what they hold and have collected.
    pub fn now(&self) -> &Books
        ensures books { result.now ≡ held.books_now self.now.held }
        ensures sound { AreBooks self.now.held.account.terms result.now }
        ensures conserved { received self.now.held.account -ℤ returned self.now.held.account
            -ℤ refunded self.now.held.account -ℤ disbursed self.now.held.account ≡ total result.now }
    {
        self.books.now()
    }

    /// The books at a day from boarding to the business day.
    pub fn books_at<L: Ledger>(&self, day: Day, steps: &mut Steps<L>) -> Books
        requires after { self.now.held.account.terms.boarded ≤ day }
        requires until { day ≤ self.now.held.account.today }
        ensures books { result ≡ rule.books_of self.now.held.account day }
        ensures sound { AreBooks self.now.held.account.terms result }
        ensures steps { steps.new ≤ steps.old + B.cost self.now.held.account (month_number day) }
    {
        self.books.books_at(day, steps)
    }

    /// The books at a day that is not before the business day, of the account advanced to it.
    pub fn books_ahead<L: Ledger>(&self, day: Day, steps: &mut Steps<L>) -> Books
        requires { self.now.held.account.today ≤ day }
        ensures books { result ≡ rule.books_of (rule.advanced_to day self.now.held.account) day }
        ensures sound { AreBooks self.now.held.account.terms result }
        ensures steps { steps.new ≤ steps.old + B.cost (rule.advanced_to day self.now.held.account)
            (month_number self.now.held.account.today) }
    {
        self.books.books_ahead(day, steps)
    }

    /// The loan's account: all entries and their reversals.
    pub fn account(&self) -> &LoanAccount
        ensures { result.now.account ≡ self.now.held.account }
    {
        self.books.kept()
    }

    /// The changes of remittance type, as they were accepted.
    pub fn types(&self) -> &[TypeChange]
        ensures { result.now ≡ self.now.held.types }
    {
        self.types.slice()
    }

    /// The entry with that number, reversed or not.
    pub fn entry(&self, number: u32) -> Option<Entry>
        ensures { result ≡ rule.entry_of self.now.held.account number }
    {
        self.books.entry(number)
    }

    /// What reversed the entry with that number.
    pub fn reversed_by(&self, number: u32) -> Option<u32>
        ensures { result ≡ rule.reverser_of self.now.held.account number }
    {
        self.books.reversed_by(number)
    }

    /// The escrow lines.
    pub fn lines(&self) -> &Lines
        ensures { result.now ≡ self.now.held.lines }
    {
        &self.lines
    }

    /// How many changes of remittance type there are.
    pub fn type_count(&self) -> usize
        ensures { result ≡ length self.now.held.types }
    {
        self.types.len()
    }

    /// How many months are closed, from the boarded one on.
    pub fn closed(&self) -> usize
        ensures { result ≡ self.now.closed }
    {
        self.carries.len()
    }

    /// What the entries brought in and paid out, in cents, and how many there are.
    pub fn moved(&self) -> Moved
        ensures { result ≡ moved_of self.now.held.account }
    {
        self.moved
    }

    /// What was remitted to the investor for the loan, in cents.
    pub fn remitted(&self) -> Cents
        ensures { result ≡ self.now.remitted }
    {
        self.remitted
    }

    /// Appends what is due for each closed month from one on, for which there is room.
    pub fn add_dues(&self, month: Month, dues: &mut Vec<MonthDue>)
        requires from { held.boarded_month self.now.held ≤ month }
        requires room { vec_len dues.old + (held.boarded_month self.now.held + self.now.closed - month)
            ≤ vec_capacity dues.old }
        ensures dues { dues.new.items ≡ dues.old.items ++ map (due_of self.now.held)
            (range_with_len month (held.boarded_month self.now.held + self.now.closed - month)) }
        ensures capacity { vec_capacity dues.new ≡ vec_capacity dues.old }
    {
        add_dues(&self.carries, &self.books, &self.types, month, dues);
    }

    /// What is due for a closed month.
    pub fn due_at(&self, month: Month) -> MonthDue
        requires from { held.boarded_month self.now.held ≤ month }
        requires closed { month < held.boarded_month self.now.held + self.now.closed }
        ensures { result ≡ due_of self.now.held month }
    {
        let months = months_since(&self.books, month);
        due_after(&self.carries, &self.books, &self.types, month, months)
    }

    /// The remittance at the end of a closed month; before the boarded month that of boarding.
    pub fn carry_at(&self, month: Month) -> Carry
        requires { month < held.boarded_month self.now.held + self.now.closed }
        ensures { result ≡ carry_of self.now.held month }
    {
        let terms = self.books.terms();
        let boarded = month_of(terms.boarded).number();
        if month.number() < boarded {
            return first(terms);
        }
        self.carries[months_since(&self.books, month)]
    }

    /// What is due for all closed months, interest and principal, in cents.
    pub fn dues_total(&self) -> Cents
        ensures { result ≡ total_by due_sum (map (due_of self.now.held)
            (range_with_len (held.boarded_month self.now.held) self.now.closed)) }
    {
        self.books.is_account();
        let carry = carry_after(&self.carries, &self.books, &self.types, self.carries.len());
        total_due(&carry, self.books.terms())
    }
}

/// How many months a month is after the boarded one.
fn months_since<B: LoanBooks>(books: &B, month: Month) -> usize
    ensures { result ≡ month - month_number (B.account books.now).terms.boarded }
{
    months_between(month_of(books.terms().boarded), month)
}
