//! A loan that follows commands, which are told by their lines. What a call of the loan requires is tested first.

ghost use Rattle.std.specs.Prelude.{◌≡◌, ◌≤◌, ◌<◌, true, length, IsTrue, IfSome};
ghost use Rattle.std.specs.List.{list_any};
ghost use Rattle.svc_base.specs.Calendar.{IsReadDay};
ghost use Rattle.svc_types.specs.Requests.{IsCommand};
ghost use Rattle.svc_spec.specs.Accounts.{MayPost};
ghost use Rattle.svc_spec.specs.Books.{IsAct};
ghost use Rattle.svc_replay.specs.Faults.{most_entries};
ghost use Rattle.escrow_lines.specs.BillLists.{has_id};

use escrow_lines::Line;
use remit_types::Carry;
use serv_line::read_line;
use std::alloc::Global;
use std::marker::Model;
use std::sync::ledger::Ledger;
use svc_base::{Cents, Day, Month, Steps, month_of, read_number};
use svc_loan::Loan;
use svc_replay::LoanBooks;
use svc_types::{Act, Command, Entry, RemitType, Request, Terms};

/// A loan, its business day, and a number above those of its entries.
#[derive(Drop)]
pub(crate) struct Followed<B: LoanBooks> {
    loan: Loan<B>,
    today: Day,
    next: u32,
}

impl<B: LoanBooks> Model for Followed<B> {
    ghost use Rattle.svc_loan.specs.Kept.{KeptLoan};
    ghost use Rattle.svc_loan_tests.specs.Followed.{IsFollowed};

    ghost Value = { KeptLoan };

    ghost view = { λ f. f.loan };

    ghost invariant = { λ f. IsFollowed f.today f.next f.loan };
}

/// Whether a loan has a line with an id.
pub(crate) fn has_line<B: LoanBooks>(loan: &Loan<B>, id: u32) -> bool
    ensures { IsTrue result → list_any (has_id id) loan.now.held.lines ≡ true }
{
    loan.lines().find(id).is_some()
}

/// The terms of a `board` line.
pub(crate) fn terms_of(line: &str) -> Option<Terms>
    ensures { IfSome result (λ t. IsReadDay t.boarded) }
{
    match &read_line(line.as_bytes()) {
        Ok(Request::Do(_, Command::Board(_, terms))) => Some(*terms),
        _ => None,
    }
}

/// A loan that is taken on.
fn begin<B: LoanBooks, L: Ledger>(
    alloc: Global,
    id: u32,
    terms: &Terms,
    today: Day,
    steps: &mut Steps<L>,
) -> Option<Followed<B>>
    requires { IsReadDay terms.now.boarded }
{
    if terms.check().is_err() || today < terms.boarded {
        return None;
    }
    let loan = Loan::<B>::begin(alloc, id, *terms, today, steps).ok()?;
    Some(Followed {
        loan,
        today,
        next: 0,
    })
}

/// The loan of a `board` line, taken on on the business day of a `day` line.
pub(crate) fn board<B: LoanBooks, L: Ledger>(
    alloc: Global,
    day: &str,
    line: &str,
    steps: &mut Steps<L>,
) -> Option<Followed<B>> {
    let Ok(Request::Do(_, Command::Day(today))) = &read_line(day.as_bytes()) else {
        return None;
    };
    match &read_line(line.as_bytes()) {
        Ok(Request::Do(_, Command::Board(id, terms))) => begin(alloc, *id, terms, *today, steps),
        _ => None,
    }
}

impl<B: LoanBooks> Followed<B> {
    /// The loan.
    pub(crate) fn loan(&self) -> &Loan<B>
        ensures { result.now ≡ self.now }
    {
        &self.loan
    }

    /// Adds an entry that may follow, for which there is room.
    fn post<L: Ledger>(&mut self, entry: &Entry, steps: &mut Steps<L>)
        requires entry { MayPost self.old.held.account entry.now }
        requires number { entry.now.number < 1_000_000 }
        requires few { length self.old.held.account.entries < most_entries }
        requires room { 1 ≤ self.old.room.books.entries }
    {
        self.loan.post(entry, steps);
        self.next = entry.number + 1;
    }

    /// Adds an entry of a number; whether it may be added.
    pub(crate) fn enter<L: Ledger>(
        &mut self,
        number: u32,
        day: Day,
        act: Act,
        steps: &mut Steps<L>,
    ) -> bool
        requires { IsAct act }
    {
        let entry = Entry { number, day, act };
        let full = self.loan.moved().entries >= 4_096;
        let early = day < self.loan.terms().boarded || self.today < day;
        if full || early || number < self.next || number >= 1_000_000 {
            return false;
        }
        if self.loan.reserve(day).is_err() {
            return false;
        }
        self.post(&entry, steps);
        true
    }

    /// Reverses the entry with a number by a command; whether it is there and live.
    fn take_back<L: Ledger>(&mut self, number: u32, by: u32, steps: &mut Steps<L>) -> bool {
        let Some(entry) = self.loan.entry(number) else {
            return false;
        };
        if entry.number != number || self.loan.reversed_by(number).is_some() {
            return false;
        }
        if self.loan.reserve(entry.day).is_err() {
            return false;
        }
        self.loan.reverse(&entry, by, steps);
        true
    }

    /// Moves the business day on; whether it is not earlier.
    fn move_on<L: Ledger>(&mut self, today: Day, steps: &mut Steps<L>) -> bool {
        if today < self.today || self.loan.reserve(today).is_err() {
            return false;
        }
        self.loan.advance(today, steps);
        self.today = today;
        true
    }

    /// Changes the type from a month on; whether it is not before boarding.
    fn change_type<L: Ledger>(
        &mut self,
        from: Month,
        kind: RemitType,
        steps: &mut Steps<L>,
    ) -> bool {
        let boarded = month_of(self.loan.terms().boarded);
        if from < boarded || self.loan.reserve(self.today).is_err() {
            return false;
        }
        self.loan.retype(from, kind, steps);
        true
    }

    /// Closes the next month; whether it has ended.
    fn close<L: Ledger>(&mut self, steps: &mut Steps<L>) -> bool {
        self.loan.is_sound();
        let open = month_of(self.loan.terms().boarded).number() as usize + self.loan.closed();
        if open >= month_of(self.today).number() as usize
            || self.loan.reserve(self.today).is_err()
        {
            return false;
        }
        self.loan.close_month(steps);
        true
    }

    /// Sets the only escrow line; whether there is none, and nothing is wrong with it.
    fn set_line(&mut self, line: Line) -> bool {
        if !self.loan.lines().is_empty() || line.fault().is_some() {
            return false;
        }
        self.loan.set_line(line);
        true
    }

    /// Takes out an escrow line; whether it is there.
    fn drop_line(&mut self, id: u32) -> bool {
        if !has_line(&self.loan, id) {
            return false;
        }
        self.loan.drop_line(id);
        true
    }

    /// Adds what is sent for the loan; whether the sum is small.
    pub(crate) fn remit(&mut self, cents: u32) -> bool {
        let before = self.loan.remitted();
        if before < 0 || before > 10_000_000_000 {
            return false;
        }
        self.loan.remit(Cents::from(cents));
        true
    }

    /// Follows an entry command; whether it is one that may be followed.
    fn follow_entry<L: Ledger>(
        &mut self,
        number: u32,
        command: &Command,
        steps: &mut Steps<L>,
    ) -> bool
        requires { IsCommand command.now }
    {
        match command {
            Command::Pay(_, day, cents, over) => {
                self.enter(number, *day, Act::Pay(*cents, *over), steps)
            }
            Command::Curtail(_, day, cents) => {
                self.enter(number, *day, Act::Curtail(*cents), steps)
            }
            Command::Payoff(_, day, cents) => self.enter(number, *day, Act::Payoff(*cents), steps),
            Command::Deposit(_, day, cents) => {
                self.enter(number, *day, Act::Deposit(*cents), steps)
            }
            Command::Disburse {
                day,
                amount,
                line,
                ..
            } => self.enter(number, *day, Act::Disburse(*amount, *line), steps),
            Command::Refund(_, cents) => {
                self.enter(number, self.today, Act::Refund(*cents), steps)
            }
            Command::Waive(_, cents) => self.enter(number, self.today, Act::Waive(*cents), steps),
            _ => false,
        }
    }

    /// Follows a command with a number; whether it may be followed.
    fn follow_command<L: Ledger>(
        &mut self,
        number: u32,
        command: &Command,
        steps: &mut Steps<L>,
    ) -> bool
        requires { IsCommand command.now }
    {
        match command {
            Command::Day(day) => self.move_on(*day, steps),
            Command::Reverse { number: entry, .. } => self.take_back(*entry, number, steps),
            Command::Close(_) => self.close(steps),
            Command::Retype { period, kind, .. } => self.change_type(*period, *kind, steps),
            Command::Line {
                line,
                kind,
                month,
                every,
                amount,
                ..
            } => self.set_line(Line {
                id: *line,
                kind: *kind,
                month: *month,
                every: *every,
                cents: *amount,
            }),
            Command::Drop { line, .. } => self.drop_line(*line),
            _ => self.follow_entry(number, command, steps),
        }
    }

    /// Follows the command of a line, whose key is its number; whether it may be followed.
    fn follow<L: Ledger>(&mut self, line: &str, steps: &mut Steps<L>) -> bool {
        match &read_line(line.as_bytes()) {
            Ok(Request::Do(key, command)) => {
                let number = read_number(key.bytes()).unwrap_or(u32::MAX);
                self.follow_command(number, command, steps)
            }
            _ => false,
        }
    }

    /// Follows the commands of the lines of a text; whether all may be followed.
    pub(crate) fn follow_all<L: Ledger>(&mut self, lines: &str, steps: &mut Steps<L>) -> bool {
        let mut all = true;
        for line in lines.split('\n') {
            all = self.follow(line, steps) && all;
        }
        all
    }

    /// The balance at a day from boarding to the business day.
    pub(crate) fn balance_at<L: Ledger>(&self, day: Day, steps: &mut Steps<L>) -> Option<Cents> {
        if day < self.loan.terms().boarded || self.today < day {
            return None;
        }
        Some(self.loan.books_at(day, steps).upb)
    }

    /// Interest and principal due for a closed month.
    pub(crate) fn due_at(&self, month: Month) -> Option<(Cents, Cents)> {
        let boarded = month_of(self.loan.terms().boarded).number();
        if month.number() < boarded {
            return None;
        }
        if (month.number() - boarded) as usize >= self.loan.closed() {
            return None;
        }
        let due = self.loan.due_at(month);
        Some((due.interest, due.principal))
    }

    /// How many closed months there are from one on.
    pub(crate) fn closed_from(&self, alloc: Global, month: Month) -> Option<usize> {
        if month < month_of(self.loan.terms().boarded) {
            return None;
        }
        let mut dues = Vec::new(alloc);
        dues.reserve(self.loan.closed()).ok()?;
        self.loan.add_dues(month, &mut dues);
        Some(dues.len())
    }

    /// The remittance at the end of a month that is closed, or before boarding.
    pub(crate) fn carry_at(&self, month: Month) -> Option<Carry> {
        let boarded = month_of(self.loan.terms().boarded).number();
        let since = month.number().saturating_sub(boarded) as usize;
        if month.number() >= boarded && since >= self.loan.closed() {
            return None;
        }
        Some(self.loan.carry_at(month))
    }
}
