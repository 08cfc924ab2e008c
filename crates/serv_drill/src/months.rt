//! The months of the year, and what comes before them.

ghost use Rattle.std.specs.Prelude.{◌≡◌, ◌+◌, ◌*◌, ◌≤◌, ◌<◌, OnOk};
ghost use Rattle.svc_base.specs.Text.{IsReadMonth};
ghost use Rattle.serv_drill.specs.Asked.{asked};
ghost use Rattle.serv_drill.specs.Draws.{state_after};
ghost use Rattle.serv_drill.specs.Machine.{after_works, cost_of_works};
ghost use Rattle.serv_drill.specs.Tallies.{tally};
ghost use Rattle.serv_drill.specs.Works as works;

use crate::desk::{Desk, MOST_COMMANDS};
use crate::draws::Draws;
use crate::performing::INSTALLMENT;
use std::alloc::Global;
use std::sync::ledger::Ledger;
use svc_base::{Day, Month, OutOfMemory, Steps, first_day};
use svc_types::{Command, RemitType, Terms};

/// When what a draw asks for is done.
#[derive(Clone, Copy)]
enum When {
    /// In the draw's month.
    InMonth,
    /// A month later.
    MonthLater,
}

/// The month in which all loans are taken on.
fn december() -> Month
    ensures { result ≡ works.december }
{
    Month::new(2023, 12)
}

/// The month before month `j` of the year.
fn month_before(j: u32) -> Month
    requires { j < 12 }
    ensures { result ≡ works.month_before j }
{
    december().plus(1 + j)
}

/// The terms of a loan: 200,000.00 at 6 percent, of which 0.25 is the fee, in 360 installments.
#[tactic(auto, using(svc_base::specs::DayLemmas::month_length_least), unfolding(crate::specs::Works::terms_of))]
fn terms(loan: u32) -> Terms
    ensures { result ≡ works.terms_of loan }
{
    Terms {
        boarded: Day::new(december(), 15),
        principal: 20_000_000,
        rate: 6_000,
        fee: 250,
        pi: INSTALLMENT,
        term: 360,
        first: Month::new(2024, 2),
        grace: 15,
        late: 500,
        cushion: 2,
        escrow: 0,
        kind: kind_of(loan),
    }
}

/// How a loan is remitted: the loans go by turns.
fn kind_of(loan: u32) -> RemitType
    ensures { result ≡ works.type_of loan }
{
    match loan % 3 {
        1 => RemitType::AA,
        2 => RemitType::SA,
        _ => RemitType::SS,
    }
}

impl Desk {
    /// The month after a month begins, and that month is closed and remitted.
    fn turn<L: Ledger>(
        &mut self,
        alloc: Global,
        month: Month,
        steps: &mut Steps<L>,
    ) -> Result<(), OutOfMemory>
        requires month { IsReadMonth month }
        requires next { IsReadMonth (month + 1) }
        requires room { self.old.made + 3 ≤ MOST_COMMANDS }
        ensures after { OnOk result (tally self.new ≡ after_works (tally self.old) (works.turn month)) }
        ensures made { self.new.made ≤ self.old.made + 3 }
        ensures steps { steps.new ≤ steps.old + cost_of_works (tally self.old) (works.turn month) }
    {
        self.perform(alloc, &Command::Day(first_day(month.plus(1))), steps)?;
        self.perform(alloc, &Command::Close(month), steps)?;
        self.perform(alloc, &Command::Remit(month), steps)
    }

    /// Takes all loans on, from 1.
    fn board_all<L: Ledger>(
        &mut self,
        alloc: Global,
        loans: u32,
        steps: &mut Steps<L>,
    ) -> Result<(), OutOfMemory>
        requires room { self.old.made + loans ≤ MOST_COMMANDS }
        ensures after { OnOk result (tally self.new ≡ after_works (tally self.old) (works.boardings loans)) }
        ensures made { self.new.made ≤ self.old.made + loans }
        ensures steps { steps.new ≤ steps.old + cost_of_works (tally self.old) (works.boardings loans) }
    {
        for i in 0..loans {
            let command = Command::Board(i + 1, terms(i + 1));
            self.perform(alloc, &command, steps)?;
        }
        Ok(())
    }

    /// What comes before the months: all loans are taken on, and December is closed and remitted.
    pub(crate) fn begin<L: Ledger>(
        &mut self,
        alloc: Global,
        loans: u32,
        steps: &mut Steps<L>,
    ) -> Result<(), OutOfMemory>
        requires room { self.old.made + (loans + 4) ≤ MOST_COMMANDS }
        ensures after { OnOk result (tally self.new ≡ after_works (tally self.old) (works.first_works loans)) }
        ensures made { self.new.made ≤ self.old.made + (loans + 4) }
        ensures steps { steps.new ≤ steps.old + cost_of_works (tally self.old) (works.first_works loans) }
    {
        let day = Day::new(december(), 15);
        self.perform(alloc, &Command::Day(day), steps)?;
        self.board_all(alloc, loans, steps)?;
        self.turn(alloc, december(), steps)
    }

    /// What a loan's draw asks for in its month.
    fn work<L: Ledger>(
        &mut self,
        alloc: Global,
        month: Month,
        loan: u32,
        draw: u32,
        steps: &mut Steps<L>,
    ) -> Result<(), OutOfMemory>
        requires month { IsReadMonth month }
        requires room { self.old.made + 1 ≤ MOST_COMMANDS }
        ensures after { OnOk result
            (tally self.new ≡ after_works (tally self.old) (works.work_of month loan draw)) }
        ensures made { self.new.made ≤ self.old.made + 1 }
        ensures steps { steps.new ≤ steps.old + cost_of_works (tally self.old) (works.work_of month loan draw) }
    {
        match draw {
            7 | 8 => Ok(()),
            _ => self.pay(alloc, loan, first_day(month), steps),
        }
    }

    /// What a loan's draw of a month asks for a month later.
    fn late_work<L: Ledger>(
        &mut self,
        alloc: Global,
        month: Month,
        loan: u32,
        draw: u32,
        steps: &mut Steps<L>,
    ) -> Result<(), OutOfMemory>
        requires month { IsReadMonth month }
        requires room { self.old.made + 1 ≤ MOST_COMMANDS }
        ensures after { OnOk result
            (tally self.new ≡ after_works (tally self.old) (works.late_work_of month loan draw)) }
        ensures made { self.new.made ≤ self.old.made + 1 }
        ensures steps { steps.new ≤ steps.old
            + cost_of_works (tally self.old) (works.late_work_of month loan draw) }
    {
        match draw {
            8 => self.pay(alloc, loan, Day::new(month, 10), steps),
            9 => self.take_back(alloc, loan, steps),
            _ => Ok(()),
        }
    }

    /// What a loan's draw of a month asks for, in that month or later.
    fn asked<L: Ledger>(
        &mut self,
        alloc: Global,
        when: When,
        month: Month,
        loan: u32,
        draw: u32,
        steps: &mut Steps<L>,
    ) -> Result<(), OutOfMemory>
        requires month { IsReadMonth month }
        requires room { self.old.made + 1 ≤ MOST_COMMANDS }
        ensures after { OnOk result
            (tally self.new ≡ after_works (tally self.old) (asked when month loan draw)) }
        ensures made { self.new.made ≤ self.old.made + 1 }
        ensures steps { steps.new ≤ steps.old
            + cost_of_works (tally self.old) (asked when month loan draw) }
    {
        match when {
            When::InMonth => self.work(alloc, month, loan, draw, steps),
            When::MonthLater => self.late_work(alloc, month, loan, draw, steps),
        }
    }

    /// A draw of a month for each loan, and what it asks for, in that month or later.
    fn work_all<L: Ledger>(
        &mut self,
        alloc: Global,
        when: When,
        month: Month,
        loans: u32,
        draws: &mut Draws,
        steps: &mut Steps<L>,
    ) -> Result<(), OutOfMemory>
        requires month { IsReadMonth month }
        requires room { self.old.made + loans ≤ MOST_COMMANDS }
        ensures after { OnOk result (tally self.new
            ≡ after_works (tally self.old) (works.works (asked when) month draws.old.state loans)) }
        ensures draws { OnOk result (draws.new.state ≡ state_after draws.old.state loans) }
        ensures made { self.new.made ≤ self.old.made + loans }
        ensures steps { steps.new ≤ steps.old
            + cost_of_works (tally self.old) (works.works (asked when) month draws.old.state loans) }
    {
        for i in 0..loans {
            let draw = draws.next();
            self.asked(alloc, when, month, i + 1, draw, steps)?;
        }
        Ok(())
    }

    /// What is late from the month before month `j`, whose draws are given once more.
    fn late_before<L: Ledger>(
        &mut self,
        alloc: Global,
        j: u32,
        loans: u32,
        mut earlier: Draws,
        steps: &mut Steps<L>,
    ) -> Result<(), OutOfMemory>
        requires month { j < 12 }
        requires room { self.old.made + loans ≤ MOST_COMMANDS }
        ensures after { OnOk result
            (tally self.new ≡ after_works (tally self.old) (works.late_before j earlier.state loans)) }
        ensures made { self.new.made ≤ self.old.made + loans }
        ensures steps { steps.new ≤ steps.old
            + cost_of_works (tally self.old) (works.late_before j earlier.state loans) }
    {
        if j == 0 {
            return Ok(());
        }
        let month = month_before(j);
        self.work_all(alloc, When::MonthLater, month, loans, &mut earlier, steps)
    }

    /// Month `j`. It takes a draw for each loan; the draws of the month before are given once more.
    fn month<L: Ledger>(
        &mut self,
        alloc: Global,
        j: u32,
        loans: u32,
        earlier: Draws,
        draws: &mut Draws,
        steps: &mut Steps<L>,
    ) -> Result<(), OutOfMemory>
        requires month { j < 12 }
        requires room { self.old.made + (2 * loans + 3) ≤ MOST_COMMANDS }
        ensures after { OnOk result (tally self.new ≡ after_works (tally self.old)
            (works.month_from j earlier.state draws.old.state loans)) }
        ensures draws { OnOk result (draws.new.state ≡ state_after draws.old.state loans) }
        ensures made { self.new.made ≤ self.old.made + (2 * loans + 3) }
        ensures steps { steps.new ≤ steps.old
            + cost_of_works (tally self.old) (works.month_from j earlier.state draws.old.state loans) }
    {
        self.turn(alloc, month_before(j), steps)?;
        self.late_before(alloc, j, loans, earlier, steps)?;
        let month = month_before(j).plus(1);
        self.work_all(alloc, When::InMonth, month, loans, draws, steps)
    }

    /// The twelve months of the year, with draws that a number begins.
    pub(crate) fn months<L: Ledger>(
        &mut self,
        alloc: Global,
        loans: u32,
        number: u32,
        steps: &mut Steps<L>,
    ) -> Result<(), OutOfMemory>
        requires room { self.old.made + 12 * (2 * loans + 3) ≤ MOST_COMMANDS }
        ensures after { OnOk result
            (tally self.new ≡ after_works (tally self.old) (works.all_months loans number)) }
        ensures steps { steps.new ≤ steps.old + cost_of_works (tally self.old) (works.all_months loans number) }
    {
        let mut draws = Draws::new(number);
        let mut earlier = draws;
        for j in 0..12 {
            let now = draws;
            self.month(alloc, j, loans, earlier, &mut draws, steps)?;
            earlier = now;
        }
        Ok(())
    }
}
