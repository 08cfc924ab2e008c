//! All loans, by rising number.

ghost use Rattle.std.specs.Prelude.{IsTrue, ◌≡◌, ◌+◌, ◌≤◌, ◌<◌, [], length, map, nat_lt, true, false, is_some, slice_index_or, None, Some, IsOk, OnOk, pos, neg_ℤ, ◌+ℤ◌, ◌≤ℤ◌};
ghost use Rattle.std.specs.List.{All, list_any, sum_by};
ghost use Rattle.std.specs.Option.{option_map};
ghost use Rattle.std.specs.List.Sorted.{IsPartitionPoint};
ghost use Rattle.svc_base.specs.Calendar.{month_of as month_number};
ghost use Rattle.svc_spec.specs.Accounts as rule;
ghost use Rattle.svc_replay.specs.Faults.{most_entries};
ghost use Rattle.escrow_lines.specs.BillLists.{has_id, set_fault};
ghost use Rattle.svc_world.specs.Held as held;
ghost use Rattle.svc_world.specs.LoanDues.{type_change};
ghost use Rattle.svc_loan.specs.Closed as closed;
ghost use Rattle.svc_loan.specs.Loans.{Rise, IsPlaceIn, IsThere, IsFound, OfLoan, find_kept, with_kept, held_in, closed_in, remitted_in};
ghost use Rattle.svc_loan.specs.Kept.{IsReady, HasMonth, HasAmpleRoom, IsAhead, KeepsMonths};
ghost use Rattle.svc_loan.specs.Loans.{remitted_by, MayCloseMonth, closed_by, advance_cost, close_cost};
ghost use Rattle.svc_loan.specs.Loans.{first_boarded, earlier_of};

use crate::loan::Loan;
use crate::place::Place;
use escrow_lines::Line;
use std::alloc::Global;
use std::marker::Model;
use std::sync::ledger::Ledger;
use svc_base::{Cents, Day, Month, OutOfMemory, Steps, first_day, month_of};
use svc_replay::LoanBooks;
use svc_types::{Entry, RemitType};

/// For how many months at once room is made in all loans.
const AHEAD: u32 = 4;

/// The months of the calendar.
const MONTHS: u32 = 25_692;

/// All loans by rising number. A loan is found where room was made or something was remitted last, or just behind it,
/// and else by binary search; it is put in by moving pointers. Room for business days and closed months is made in all
/// loans for some months at once.
#[derive(Drop)]
pub struct Loans<B: LoanBooks> {
    loans: Vec<Box<Loan<B>>>,
    last: usize,
    /// Each loan has room for business days up to this month.
    until: u32,
    /// For so many closed months each loan has room.
    closings: usize,
    /// The first month in which a loan was boarded.
    first: Option<Month>,
}

impl<B: LoanBooks> Model for Loans<B> {
    ghost use Rattle.std.specs.Prelude.{◌-◌, map, vec_len, vec_capacity};
    ghost use Rattle.svc_loan.specs.Loans.{KeptLoans, AreLoans};

    ghost Value = { KeptLoans };

    ghost view = { λ l. record {
      loans = map (λ b. b.value) l.loans.items;
      room = vec_capacity l.loans - vec_len l.loans;
    } };

    ghost invariant = { λ l. AreLoans l.until l.closings l.first (map (λ b. b.value) l.loans.items) };
}

impl<B: LoanBooks> Loans<B> {
    /// No loan.
    pub fn new(alloc: Global) -> Loans<B>
        ensures { result.loans ≡ [] }
    {
        Loans {
            loans: Vec::new(alloc),
            last: 0,
            until: 0,
            closings: 0,
            first: None,
        }
    }

    /// How many loans there are.
    pub fn len(&self) -> usize
        ensures { result ≡ length self.now.loans }
    {
        self.loans.len()
    }

    /// Makes room for one more loan; fails for want of memory alone.
    pub fn reserve(&mut self) -> Result<(), OutOfMemory>
        ensures loans { self.new.loans ≡ self.old.loans }
        ensures room { OnOk result (1 ≤ self.new.room) }
        ensures succeeds { 1 ≤ self.old.room → IsOk result }
    {
        self.loans.reserve(1)?;
        Ok(())
    }

    /// The first month in which a loan was boarded, where one is there.
    pub fn first_boarded(&self) -> Option<Month>
        ensures { result ≡ first_boarded (held_in self.now.loans) }
    {
        self.first
    }

    /// The loan with that number.
    pub fn get(&self, id: u32) -> Option<&Loan<B>>
        ensures { option_map (λ r. r.now) result ≡ find_kept id self.now.loans }
    {
        let place = place_of(&self.loans, id, self.last)?;
        Some(&self.loans[place])
    }

    /// Where the loan with that number stands, where it is there.
    pub fn find(&self, id: u32) -> Option<Place>
        ensures { IsFound id self.now.loans result }
    {
        let index = place_of(&self.loans, id, self.last)?;
        Some(Place { id, index })
    }

    /// The loan that stands at a place.
    pub fn loan(&self, place: Place) -> &Loan<B>
        requires { IsThere place self.now.loans }
        ensures { find_kept place.id self.now.loans ≡ Some result.now }
    {
        &self.loans[place.index]
    }

    /// The loan at a place, in the order of numbers.
    pub fn at(&self, index: usize) -> &Loan<B>
        requires { index < length self.now.loans }
        ensures { result.now ≡ slice_index_or self.now.loans index result.now }
    {
        &self.loans[index]
    }

    /// Makes room in a loan for one more entry, reversal, change of type and closed month, and for a
    /// business day; fails for want of memory alone.
    pub fn reserve_for(&mut self, place: Place, today: Day) -> Result<(), OutOfMemory>
        requires place { IsThere place self.old.loans }
        ensures place { IsThere place self.new.loans }
        ensures held { held_in self.new.loans ≡ held_in self.old.loans }
        ensures closed { closed_in self.new.loans ≡ closed_in self.old.loans }
        ensures remitted { remitted_in self.new.loans ≡ remitted_in self.old.loans }
        ensures loan_room { self.new.room ≡ self.old.room }
        ensures ready { OnOk result (OfLoan place.id self.new.loans (IsReady today)) }
        ensures succeeds { OfLoan place.id self.old.loans (IsReady today) → IsOk result }
    {
        // lists of payments are often in the order of numbers
        self.last = place.index;
        let loan = &mut self.loans[place.index];
        loan.reserve(today)
    }

    /// Makes room in all loans for a business day and for one more closed month, and at once for those of some months on;
    /// fails for want of memory alone.
    pub fn reserve_all(&mut self, today: Day) -> Result<(), OutOfMemory>
        ensures held { held_in self.new.loans ≡ held_in self.old.loans }
        ensures closed { closed_in self.new.loans ≡ closed_in self.old.loans }
        ensures remitted { remitted_in self.new.loans ≡ remitted_in self.old.loans }
        ensures loan_room { self.new.room ≡ self.old.room }
        ensures ready { OnOk result (All (HasMonth today) self.new.loans) }
        ensures succeeds { All (HasAmpleRoom (month_number today + AHEAD) AHEAD) self.old.loans → IsOk result }
    {
        if self.is_ahead(today) {
            return Ok(());
        }
        let later = some_months_after(today);
        self.reserve_each(later)?;
        self.are_ahead(later);
        Ok(())
    }

    /// Whether all loans are known to have room for a business day and for one more closed month.
    fn is_ahead(&self, today: Day) -> bool
        ensures { IsTrue result → All (HasMonth today) self.now.loans }
    {
        month_of(today).number() <= self.until && 1 <= self.closings
    }

    /// Makes room in all loans for business days up to one, and for some closed months.
    fn reserve_each(&mut self, later: Day) -> Result<(), OutOfMemory>
        ensures held { held_in self.new.loans ≡ held_in self.old.loans }
        ensures closed { closed_in self.new.loans ≡ closed_in self.old.loans }
        ensures remitted { remitted_in self.new.loans ≡ remitted_in self.old.loans }
        ensures loan_room { self.new.room ≡ self.old.room }
        ensures ready { OnOk result (All (IsAhead (month_number later) AHEAD) self.new.loans) }
        ensures succeeds { All (HasAmpleRoom (month_number later) AHEAD) self.old.loans → IsOk result }
    {
        for i in 0..self.loans.len() {
            let loan = &mut self.loans[i];
            loan.reserve_months(later, AHEAD as usize)?;
        }
        Ok(())
    }

    /// Keeps in mind for how much all loans have room.
    fn are_ahead(&mut self, later: Day)
        requires { All (IsAhead (month_number later) AHEAD) self.old.loans }
        ensures { self.new ≡ self.old }
    {
        self.until = month_of(later).number();
        self.closings = AHEAD as usize;
    }

    /// Adds what a report sends for a loan, in cents, to what was remitted for it.
    pub fn remit(&mut self, id: u32, cents: Cents)
        requires low { OfLoan id self.old.loans
            (λ k. neg_ℤ (pos 1_000_000_000_000_000_000) ≤ℤ (k.remitted +ℤ cents)) }
        requires high { OfLoan id self.old.loans
            (λ k. (k.remitted +ℤ cents) ≤ℤ pos 1_000_000_000_000_000_000) }
        ensures held { held_in self.new.loans ≡ held_in self.old.loans }
        ensures closed { closed_in self.new.loans ≡ closed_in self.old.loans }
        ensures remitted { remitted_in self.new.loans ≡ map (remitted_by id cents) self.old.loans }
        ensures loan_room { self.new.room ≡ self.old.room }
    {
        let place = place_there(&self.loans, id, self.last);
        // the lines of a report are in the order of numbers
        self.last = place;
        let loan = &mut self.loans[place];
        loan.remit(cents);
    }

    /// Takes a loan on, whose number no other loan has and for which there is room, and answers where it stands.
    pub fn insert(&mut self, loan: Box<Loan<B>>) -> Place
        requires new { find_kept loan.value.held.id self.old.loans ≡ None }
        requires room { 1 ≤ self.old.room }
        ensures loans { self.new.loans ≡ with_kept loan.value self.old.loans }
        ensures held { held_in self.new.loans ≡ held.with_loan loan.value.held (held_in self.old.loans) }
        ensures id { result.id ≡ loan.value.held.id }
        ensures place { IsThere result self.new.loans }
    {
        let id = loan.id();
        let index = place_for(&self.loans, id);
        let boarded = month_of(loan.terms().boarded);
        let first = earlier_of(self.first, boarded);
        self.first = Some(first);
        // nothing is known of the room of the new one
        self.until = 0;
        self.closings = 0;
        match self.loans.insert(index, loan) {
            Ok(()) => {}
            Err(_) => unreachable!(),
        }
        Place { id, index }
    }

    /// Adds an entry to a loan, for which it has room.
    pub fn post<L: Ledger>(&mut self, place: Place, entry: &Entry, steps: &mut Steps<L>)
        requires place { IsThere place self.old.loans }
        requires entry { OfLoan place.id self.old.loans (λ k. rule.MayPost k.held.account entry.now) }
        requires few { OfLoan place.id self.old.loans (λ k. length k.held.account.entries < most_entries) }
        requires room { OfLoan place.id self.old.loans (λ k. 1 ≤ k.room.books.entries) }
        ensures place { IsThere place self.new.loans }
        ensures held { held_in self.new.loans
            ≡ held.changed place.id (held.with_entry entry.now) (held_in self.old.loans) }
        ensures closed { closed_in self.new.loans ≡ closed_in self.old.loans }
        ensures remitted { remitted_in self.new.loans ≡ remitted_in self.old.loans }
        ensures loan_room { self.new.room ≡ self.old.room }
        ensures steps { OfLoan place.id self.new.loans (λ k. steps.new ≤ steps.old
            + B.cost k.held.account (month_number entry.now.day)
            + closed.closed_cost B.month_cost k.held.account k.closed (month_number entry.now.day)) }
    {
        let loan = &mut self.loans[place.index];
        loan.post(entry, steps);
    }

    /// Reverses an entry of a loan, for which it has room.
    pub fn reverse<L: Ledger>(&mut self, place: Place, entry: &Entry, by: u32, steps: &mut Steps<L>)
        requires place { IsThere place self.old.loans }
        requires entry { OfLoan place.id self.old.loans
            (λ k. rule.entry_of k.held.account entry.now.number ≡ Some entry.now) }
        requires live { OfLoan place.id self.old.loans
            (λ k. rule.reverser_of k.held.account entry.now.number ≡ None) }
        requires room { OfLoan place.id self.old.loans (λ k. 1 ≤ k.room.books.reversals) }
        ensures place { IsThere place self.new.loans }
        ensures held { held_in self.new.loans
            ≡ held.changed place.id (held.with_reversal entry.now.number by) (held_in self.old.loans) }
        ensures closed { closed_in self.new.loans ≡ closed_in self.old.loans }
        ensures remitted { remitted_in self.new.loans ≡ remitted_in self.old.loans }
        ensures loan_room { self.new.room ≡ self.old.room }
        ensures steps { OfLoan place.id self.new.loans (λ k. steps.new ≤ steps.old
            + B.cost k.held.account (month_number entry.now.day)
            + closed.closed_cost B.month_cost k.held.account k.closed (month_number entry.now.day)) }
    {
        let loan = &mut self.loans[place.index];
        loan.reverse(entry, by, steps);
    }

    /// Changes the remittance type of a loan from a month on, for which it has room.
    pub fn retype<L: Ledger>(
        &mut self,
        place: Place,
        from: Month,
        kind: RemitType,
        steps: &mut Steps<L>,
    )
        requires place { IsThere place self.old.loans }
        requires from { OfLoan place.id self.old.loans (λ k. held.boarded_month k.held ≤ from) }
        requires room { OfLoan place.id self.old.loans (λ k. 1 ≤ k.room.types) }
        ensures place { IsThere place self.new.loans }
        ensures held { held_in self.new.loans
            ≡ held.changed place.id (held.with_type (type_change from kind)) (held_in self.old.loans) }
        ensures closed { closed_in self.new.loans ≡ closed_in self.old.loans }
        ensures remitted { remitted_in self.new.loans ≡ remitted_in self.old.loans }
        ensures loan_room { self.new.room ≡ self.old.room }
        ensures steps { OfLoan place.id self.new.loans (λ k. steps.new ≤ steps.old
            + closed.closed_cost B.month_cost k.held.account k.closed from) }
    {
        let loan = &mut self.loans[place.index];
        loan.retype(from, kind, steps);
    }

    /// Sets an escrow line of a loan, of which nothing is wrong and for which there is a place.
    pub fn set_line(&mut self, place: Place, line: Line)
        requires place { IsThere place self.old.loans }
        requires line { OfLoan place.id self.old.loans (λ k. set_fault line k.held.lines ≡ None) }
        ensures place { IsThere place self.new.loans }
        ensures held { held_in self.new.loans
            ≡ held.changed place.id (held.with_bill line) (held_in self.old.loans) }
        ensures closed { closed_in self.new.loans ≡ closed_in self.old.loans }
        ensures remitted { remitted_in self.new.loans ≡ remitted_in self.old.loans }
        ensures loan_room { self.new.room ≡ self.old.room }
    {
        let loan = &mut self.loans[place.index];
        loan.set_line(line);
    }

    /// Takes out the escrow line of a loan with an id that some line of it has.
    pub fn drop_line(&mut self, place: Place, line: u32)
        requires place { IsThere place self.old.loans }
        requires line { OfLoan place.id self.old.loans (λ k. list_any (has_id line) k.held.lines ≡ true) }
        ensures place { IsThere place self.new.loans }
        ensures held { held_in self.new.loans
            ≡ held.changed place.id (held.without_bill line) (held_in self.old.loans) }
        ensures closed { closed_in self.new.loans ≡ closed_in self.old.loans }
        ensures remitted { remitted_in self.new.loans ≡ remitted_in self.old.loans }
        ensures loan_room { self.new.room ≡ self.old.room }
    {
        let loan = &mut self.loans[place.index];
        loan.drop_line(line);
    }

    /// Moves the business day of all loans on, for which each has room.
    pub fn advance<L: Ledger>(&mut self, today: Day, steps: &mut Steps<L>)
        requires later { All (λ k. k.held.account.today ≤ today) self.old.loans }
        requires room { All (λ k. month_number today
            ≤ month_number k.held.account.today + k.room.books.months) self.old.loans }
        ensures held { held_in self.new.loans ≡ map (held.on_day today) (held_in self.old.loans) }
        ensures closed { closed_in self.new.loans ≡ closed_in self.old.loans }
        ensures remitted { remitted_in self.new.loans ≡ remitted_in self.old.loans }
        ensures loan_room { self.new.room ≡ self.old.room }
        ensures steps { steps.new ≤ steps.old + sum_by (advance_cost B.cost today) self.old.loans }
    {
        for i in 0..self.loans.len() {
            let loan = &mut self.loans[i];
            loan.advance(today, steps);
        }
    }

    /// Closes a month of all loans that were boarded by it: of each it is the one after the last closed
    /// one, it has ended, and there is room for it.
    pub fn close<L: Ledger>(&mut self, month: Month, steps: &mut Steps<L>)
        requires { All (MayCloseMonth month) self.old.loans }
        ensures held { held_in self.new.loans ≡ held_in self.old.loans }
        ensures closed { closed_in self.new.loans ≡ map (closed_by month) self.old.loans }
        ensures remitted { remitted_in self.new.loans ≡ remitted_in self.old.loans }
        ensures loan_room { self.new.room ≡ self.old.room }
        ensures steps { steps.new ≤ steps.old + sum_by (close_cost B.month_cost month) self.old.loans }
    {
        self.closings = self.closings.saturating_sub(1);
        for i in 0..self.loans.len() {
            let loan = &mut self.loans[i];
            close_one(loan, month, steps);
        }
    }
}

/// The first day of the month that is some months after a day's, where the calendar has it.
fn some_months_after(day: Day) -> Day
    ensures since { month_number day ≤ month_number result }
    ensures until { month_number result ≤ month_number day + AHEAD }
{
    let month = month_of(day);
    if month.number() + AHEAD < MONTHS {
        return first_day(month.plus(AHEAD));
    }
    day
}

/// The earlier of two months, of which the first may not be there.
fn earlier_of(first: Option<Month>, month: Month) -> Month
    ensures { result ≡ earlier_of first month }
{
    match first {
        Some(first) if first.number() <= month.number() => first,
        _ => month,
    }
}

/// Closes a month of a loan, where it was boarded by it.
fn close_one<B: LoanBooks, L: Ledger>(loan: &mut Loan<B>, month: Month, steps: &mut Steps<L>)
    requires { MayCloseMonth month loan.old }
    ensures held { loan.new.held ≡ loan.old.held }
    ensures closed { loan.new.closed ≡ closed_by month loan.old }
    ensures remitted { loan.new.remitted ≡ loan.old.remitted }
    ensures months { KeepsMonths 1 loan.old loan.new }
    ensures steps { steps.new ≤ steps.old + close_cost B.month_cost month loan.old }
{
    if month_of(loan.terms().boarded).number() <= month.number() {
        loan.close_month(steps);
    }
}

/// The place of the loan with that number, which is there.
fn place_there<B: LoanBooks>(loans: &[Box<Loan<B>>], id: u32, near: usize) -> usize
    requires rise { Rise (map (λ b. b.value) loans.now) }
    requires there { is_some (find_kept id (map (λ b. b.value) loans.now)) ≡ true }
    ensures { IsPlaceIn id (map (λ b. b.value) loans.now) (Some result) }
{
    match place_of(loans, id, near) {
        Some(place) => place,
        None => unreachable!(),
    }
}

/// The place of the loan with that number, where it is there. It is looked for at a place and just behind it first, since
/// lists of payments are often in the order of numbers.
fn place_of<B: LoanBooks>(loans: &[Box<Loan<B>>], id: u32, near: usize) -> Option<usize>
    requires { Rise (map (λ b. b.value) loans.now) }
    ensures { IsPlaceIn id (map (λ b. b.value) loans.now) result }
{
    if is_at(loans, near, id) {
        return Some(near);
    }
    let behind = near.saturating_add(1);
    if is_at(loans, behind, id) {
        return Some(behind);
    }
    let place = place_for(loans, id);
    if place < loans.len() && loans[place].id() == id {
        return Some(place);
    }
    None
}

/// Whether the loan with that number is at a place.
fn is_at<B: LoanBooks>(loans: &[Box<Loan<B>>], place: usize, id: u32) -> bool
    requires { Rise (map (λ b. b.value) loans.now) }
    ensures { IsTrue result → IsPlaceIn id (map (λ b. b.value) loans.now) (Some place) }
{
    place < loans.len() && loans[place].id() == id
}

/// The place after the loans with lower numbers.
fn place_for<B: LoanBooks>(loans: &[Box<Loan<B>>], id: u32) -> usize
    requires { Rise (map (λ b. b.value) loans.now) }
    ensures point { IsPartitionPoint (λ b. nat_lt b.value.held.id id ≡ true)
        (λ b. nat_lt b.value.held.id id ≡ false) loans.now result }
    ensures bound { result ≤ length loans.now }
{
    loans.partition_point(|loan| is_below(loan, id))
}

/// Whether a loan has a lower number.
fn is_below<B: LoanBooks>(loan: &Box<Loan<B>>, id: u32) -> bool
    ensures { result ≡ nat_lt loan.now.value.held.id id }
{
    loan.id() < id
}
