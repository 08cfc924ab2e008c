//! Each call of a loan once, with ample memory, for both ways of keeping books.

ghost use Rattle.std.specs.Prelude.{◌≡◌, ◌<◌};
ghost use Rattle.svc_spec.specs.Books.{IsAct};

use crate::followed::{Followed, board};
use escrow_lines::Line;
use remit_types::Carry;
use std::alloc::Global;
use std::marker::Brand;
use std::sync::ledger::{Blank, Ledger};
use std::test::Fail;
use svc_base::{Cents, Day, Month, Steps, read_day};
use svc_checkpoint::Checked;
use svc_loan::{Loan, Moved};
use svc_replay::{LoanBooks, Plain};
use svc_types::{Act, Designation, Entry, EscrowPlan, LineKind, Settled};

const DAY: &str = "1 day 2024-02-01";

const BOARD: &str = "2 board 7 2023-12-15 200000.00 6000 250 1199.10 360 2024-02 15 500 2 0.00 SS";

/// An installment paid, a deposit reversed, Actual/Actual from 2024-05 on, one escrow line of two, and four months
/// closed.
const LINES: &str = "3 pay 7 2024-02-01 1199.10
4 deposit 7 2024-02-01 1.00
14 reverse 7 4
15 day 2024-04-01
16 retype 7 2024-05 AA
17 line 7 1 tax 7 12 500.00
18 drop 7 1
19 line 7 2 tax 7 12 500.00
20 close 2023-12
21 close 2024-01
22 close 2024-02
23 close 2024-03";

/// What a loan answers of itself: its number, the balance now, what reversed entry 4, its escrow lines, changes of
/// type, closed months, and cents that were remitted and are due.
#[derive(Clone, Copy, PartialEq, Eq)]
struct Answers {
    id: u32,
    upb: Cents,
    reverser: Option<u32>,
    lines: (usize, Option<Line>),
    types: usize,
    closed: usize,
    remitted: Cents,
    total: Cents,
}

fn answers_of<B: LoanBooks>(loan: &Loan<B>) -> Answers {
    Answers {
        id: loan.id(),
        upb: loan.now().upb,
        reverser: loan.reversed_by(4),
        lines: (loan.lines().len(), loan.lines().find(2)),
        types: loan.type_count(),
        closed: loan.closed(),
        remitted: loan.remitted(),
        total: loan.dues_total(),
    }
}

const ANSWERS: Answers = Answers {
    id: 7,
    upb: 19_980_090,
    reverser: Some(14),
    lines: (
        1,
        Some(Line {
            id: 2,
            kind: LineKind::Tax,
            month: 7,
            every: 12,
            cents: 50_000,
        }),
    ),
    types: 1,
    closed: 4,
    remitted: 231_490,
    total: 231_490,
};

/// The balance on 2024-01-28, interest and principal due for 2024-02, how many months are due from 2024-03 and
/// 2024-04 on, and the remittance before boarding and at the end of 2024-03.
#[derive(Clone, Copy, PartialEq, Eq)]
struct Owed {
    earlier: Option<Cents>,
    february: Option<(Cents, Cents)>,
    from_march: Option<usize>,
    from_april: Option<usize>,
    before: Option<Carry>,
    march: Option<Carry>,
}

fn owed_of<B: LoanBooks, L: Ledger>(
    alloc: Global,
    loan: &Followed<B>,
    steps: &mut Steps<L>,
) -> Owed {
    let march = Month::new(2024, 3);
    Owed {
        earlier: balance_on(loan, b"2024-01-28", steps),
        february: loan.due_at(Month::new(2024, 2)),
        from_march: loan.closed_from(alloc, march),
        from_april: loan.closed_from(alloc, Month::new(2024, 4)),
        before: loan.carry_at(Month::new(2023, 11)),
        march: loan.carry_at(march),
    }
}

fn balance_on<B: LoanBooks, L: Ledger>(
    loan: &Followed<B>,
    day: &[u8],
    steps: &mut Steps<L>,
) -> Option<Cents> {
    loan.balance_at(read_day(day).ok()?, steps)
}

const OWED: Owed = Owed {
    earlier: Some(20_000_000),
    february: Some((95_833, 19_910)),
    from_march: Some(1),
    from_april: Some(0),
    before: Some(Carry {
        upb: 20_000_000,
        balance: 20_000_000,
        actual: 0,
        scheduled: 0,
        passed: 0,
    }),
    march: Some(Carry {
        upb: 19_980_090,
        balance: 19_960_080,
        actual: 95_833,
        scheduled: 191_570,
        passed: 191_570,
    }),
};

/// Whether an entry is a payment of one installment with a number and a day.
fn is_installment(entry: Option<Entry>, number: u32, day: &[u8]) -> bool {
    match (entry, read_day(day)) {
        (Some(entry), Ok(day)) => {
            entry.number == number
                && entry.day == day
                && entry.act == Act::Pay(119_910, Designation::Regular)
        }
        _ => false,
    }
}

/// All that is asked of the loan, whether all of it could happen, and whether its entries 3 and 9 are a payment.
#[derive(Clone, Copy, PartialEq, Eq)]
struct Asked {
    happened: [bool; 3],
    answers: Answers,
    owed: Owed,
    third: bool,
    ninth: bool,
}

fn ask<B: LoanBooks, L: Ledger>(
    alloc: Global,
    loan: &mut Followed<B>,
    steps: &mut Steps<L>,
) -> Asked {
    let happened = [
        loan.follow_all(LINES, steps),
        loan.remit(115_743),
        loan.remit(115_747),
    ];
    Asked {
        happened,
        answers: answers_of(loan.loan()),
        owed: owed_of(alloc, loan, steps),
        third: is_installment(loan.loan().entry(3), 3, b"2024-02-01"),
        ninth: loan.loan().entry(9).is_some(),
    }
}

fn ask_of_new<B: LoanBooks, L: Ledger>(alloc: Global, blank: Blank) -> Option<Asked>
    requires name { blank.name ≡ L.name }
    requires parts { blank.parts ≡ L.parts }
    requires some { 0 < L.parts }
{
    let mut steps = Steps::<L>::new(blank);
    let mut loan: Followed<B> = board(alloc, DAY, BOARD, &mut steps)?;
    Some(ask(alloc, &mut loan, &mut steps))
}

const ASKED: Asked = Asked {
    happened: [true, true, true],
    answers: ANSWERS,
    owed: OWED,
    third: true,
    ninth: false,
};

#[test]
fn a_loan_answers_for_itself(rt: HostRuntime) {
    let plain = ask_of_new::<Plain, Brand>(rt.alloc(), Blank::new(1));
    assert!(rt; plain == Some(ASKED), "kept plainly");
    let checked = ask_of_new::<Checked, Brand>(rt.alloc(), Blank::new(1));
    assert!(rt; checked == Some(ASKED), "kept with checkpoints");
}

/// Whether the entry of a loan moved that, and what is said of it once it is reversed.
fn has_moved<B: LoanBooks, L: Ledger>(
    loan: &mut Followed<B>,
    entered: &Moved,
    reversed: &Moved,
    steps: &mut Steps<L>,
) -> bool {
    let before = loan.loan().moved() == *entered;
    let followed = loan.follow_all("4 reverse 7 3", steps);
    before && followed && loan.loan().moved() == *reversed
}

/// The same of the entry of a line.
fn has_line_moved<B: LoanBooks, L: Ledger>(
    alloc: Global,
    (line, entered, reversed): &(&str, Moved, Moved),
    steps: &mut Steps<L>,
) -> bool {
    match board::<B, L>(alloc, DAY, BOARD, steps) {
        Some(mut loan) => {
            let followed = loan.follow_all(line, steps);
            followed && has_moved(&mut loan, entered, reversed, steps)
        }
        None => false,
    }
}

/// The same of an analysis that refunds 1,000.00.
fn has_analysis_moved<B: LoanBooks, L: Ledger>(
    alloc: Global,
    day: Day,
    steps: &mut Steps<L>,
) -> bool {
    match board::<B, L>(alloc, DAY, BOARD, steps) {
        Some(mut loan) => {
            let followed = loan.enter(3, day, analysis(), steps);
            followed && has_moved(&mut loan, &REFUNDED, &NOTHING, steps)
        }
        None => false,
    }
}

fn analysis() -> Act
    ensures { IsAct result }
{
    let plan = EscrowPlan {
        start: Month::new(2024, 7),
        base: 13_000,
        credit: 0,
        short: 0,
        short_months: 0,
        deficient: 0,
        deficient_months: 0,
    };
    Act::Analyse(Settled {
        plan,
        refund: 100_000,
        within30: 0,
    })
}

/// One entry that moved nothing, an installment, and entries that brought in or paid out 1,000.00.
const NOTHING: Moved = Moved {
    entries: 1,
    received: 0,
    returned: 0,
    refunded: 0,
    disbursed: 0,
};

const INSTALLMENT: Moved = Moved {
    received: 119_910,
    ..NOTHING
};

const INSTALLMENT_RETURNED: Moved = Moved {
    returned: 119_910,
    ..INSTALLMENT
};

const RECEIVED: Moved = Moved {
    received: 100_000,
    ..NOTHING
};

const RETURNED: Moved = Moved {
    returned: 100_000,
    ..RECEIVED
};

const REFUNDED: Moved = Moved {
    refunded: 100_000,
    ..NOTHING
};

const DISBURSED: Moved = Moved {
    disbursed: 100_000,
    ..NOTHING
};

/// One act of each kind, what it moved, and what is said of it once it is reversed.
const MOVED: [(&str, Moved, Moved); 7] = [
    (
        "3 pay 7 2024-02-01 1199.10",
        INSTALLMENT,
        INSTALLMENT_RETURNED,
    ),
    ("3 curtail 7 2024-02-01 1000.00", RECEIVED, RETURNED),
    ("3 payoff 7 2024-02-01 1000.00", RECEIVED, RETURNED),
    ("3 deposit 7 2024-02-01 1000.00", RECEIVED, RETURNED),
    ("3 disburse 7 2024-02-01 1000.00 1", DISBURSED, NOTHING),
    ("3 refund 7 1000.00", REFUNDED, NOTHING),
    ("3 waive 7 1000.00", NOTHING, NOTHING),
];

/// The place of the last line that moved otherwise, and whether an analysis moved what it should.
fn moved_otherwise<B: LoanBooks, L: Ledger>(
    alloc: Global,
    blank: Blank,
    day: Day,
) -> (Option<usize>, bool)
    requires name { blank.name ≡ L.name }
    requires parts { blank.parts ≡ L.parts }
    requires some { 0 < L.parts }
{
    let mut steps = Steps::<L>::new(blank);
    let mut otherwise = None;
    for (place, row) in MOVED.iter().enumerate() {
        if !has_line_moved::<B, L>(alloc, row, &mut steps) {
            otherwise = Some(place);
        }
    }
    (
        otherwise,
        has_analysis_moved::<B, L>(alloc, day, &mut steps),
    )
}

#[test]
fn what_entries_brought_in_and_paid_out(rt: HostRuntime) -> Result<(), Fail> {
    let day = read_day(b"2024-02-01")?;
    let moved = moved_otherwise::<Plain, Brand>(rt.alloc(), Blank::new(1), day);
    assert_eq!(rt; moved, (None, true));
    Ok(())
}
