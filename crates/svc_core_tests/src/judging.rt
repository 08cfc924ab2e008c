//! Judging apart from accepting.

ghost use Rattle.std.specs.Prelude.{◌≡◌, ◌<◌};

use crate::desk::reply_to;
use serv_line::read_line;
use std::alloc::Global;
use std::marker::Brand;
use std::sync::ledger::{Blank, Ledger};
use std::test::Fail;
use svc_base::{OutOfMemory, Steps, write_day};
use svc_checkpoint::Checked;
use svc_core::{Core, Verdict};
use svc_replay::{LoanBooks, Plain};
use svc_types::{Extra, Reply, Request};

/// Whether the command of a line is judged fresh.
fn is_fresh<B: LoanBooks, L: Ledger>(core: &mut Core<B>, line: &str, steps: &mut Steps<L>) -> bool {
    match &read_line(line.as_bytes()) {
        Ok(Request::Do(key, command)) => core.judge(key, command, steps) == Ok(Verdict::Fresh),
        _ => false,
    }
}

/// The reply to the command of a line, which is judged fresh and accepted.
fn judge_and_accept<B: LoanBooks, L: Ledger>(
    core: &mut Core<B>,
    line: &str,
    steps: &mut Steps<L>,
) -> Option<Reply> {
    match &read_line(line.as_bytes()) {
        Ok(Request::Do(key, command)) => match core.judge(key, command, steps) {
            Ok(Verdict::Fresh) => Some(core.accept(key, command, steps)),
            _ => None,
        },
        _ => None,
    }
}

/// Whether the accepted command with a number is the one of a line.
fn is_posted<B: LoanBooks>(core: &Core<B>, number: u32, line: &str) -> bool {
    match &read_line(line.as_bytes()) {
        Ok(Request::Do(key, command)) => core.posted(number) == Some((*key, *command)),
        _ => false,
    }
}

/// Whether a line has a reply.
fn says<B: LoanBooks, L: Ledger>(
    alloc: Global,
    core: &mut Core<B>,
    (line, wanted): (&str, &str),
    steps: &mut Steps<L>,
) -> bool {
    match reply_to(alloc, core, line.as_bytes(), steps) {
        Ok(said) => said.as_slice() == wanted.as_bytes(),
        Err(_) => false,
    }
}

/// A loan whose first installment is paid.
const DAY: (&str, &str) = ("k1 day 2024-02-01", "ok 1\n");

const BOARD: (&str, &str) = (
    "k2 board 1 2023-12-15 200000.00 6000 250 1199.10 360 2024-02 15 500 2 0.00 SS",
    "ok 2\n",
);

const PAY: (&str, &str) = ("k3 pay 1 2024-02-01 1199.10", "ok 3\n");

/// Commands that are judged alone; the first one is accepted then.
const NEXT_DAY: &str = "k4 day 2024-03-17";

const NEXT_PAY: &str = "k4 pay 1 2024-02-01 1199.10";

const NEXT_BOARD: &str =
    "k4 board 2 2023-12-15 200000.00 6000 250 1199.10 360 2024-02 15 500 2 0.00 AA";

/// The books of the loan before that day, and on it.
const BEFORE: (&str, &str) = (
    "? books 1",
    "books 1 2024-02-01 upb 199800.90 next 2024-03 escrow 0.00 suspense 0.00 late 0.00 interest 1000.00 fee 41.67 principal 199.10 charges 0.00 pay 1199.10\n",
);

const AFTER: (&str, &str) = (
    "? books 1",
    "books 1 2024-03-17 upb 199800.90 next 2024-03 escrow 0.00 suspense 0.00 late 59.96 interest 1000.00 fee 41.67 principal 199.10 charges 0.00 pay 1199.10\n",
);

/// How many commands are accepted, the business day, whether the books are as wanted, and whether the fourth command
/// is that day's.
#[derive(Clone, Copy, Debug, PartialEq, Eq)]
struct Seen {
    count: u32,
    today: [u8; 10],
    books: bool,
    fourth: bool,
}

fn look_at<B: LoanBooks, L: Ledger>(
    alloc: Global,
    core: &mut Core<B>,
    books: (&'static str, &'static str),
    steps: &mut Steps<L>,
) -> Seen {
    Seen {
        count: core.count(),
        today: write_day(core.today()),
        books: says(alloc, core, books, steps),
        fourth: is_posted(core, 4, NEXT_DAY),
    }
}

/// What is found: the loan is paid, three commands are fresh and leave all as it was; the first one is accepted, and
/// has its reply when it comes again.
#[derive(Clone, Copy, Debug, PartialEq, Eq)]
struct Found {
    paid: [bool; 3],
    fresh: [bool; 3],
    left: Seen,
    reply: Option<Reply>,
    after: Seen,
    again: bool,
}

fn play<B: LoanBooks, L: Ledger>(alloc: Global, core: &mut Core<B>, steps: &mut Steps<L>) -> Found {
    Found {
        paid: [
            says(alloc, core, DAY, steps),
            says(alloc, core, BOARD, steps),
            says(alloc, core, PAY, steps),
        ],
        fresh: [
            is_fresh(core, NEXT_DAY, steps),
            is_fresh(core, NEXT_PAY, steps),
            is_fresh(core, NEXT_BOARD, steps),
        ],
        left: look_at(alloc, core, BEFORE, steps),
        reply: judge_and_accept(core, NEXT_DAY, steps),
        after: look_at(alloc, core, AFTER, steps),
        again: says(alloc, core, (NEXT_DAY, "ok 4\n"), steps),
    }
}

/// The same over books that begin empty.
fn play_over<B: LoanBooks, L: Ledger>(alloc: Global, blank: Blank) -> Result<Found, OutOfMemory>
    requires name { blank.name ≡ L.name }
    requires parts { blank.parts ≡ L.parts }
    requires some { 0 < L.parts }
{
    let mut core = Core::<B>::new(alloc)?;
    let mut steps = Steps::<L>::new(blank);
    Ok(play(alloc, &mut core, &mut steps))
}

const WANTED: Found = Found {
    paid: [true, true, true],
    fresh: [true, true, true],
    left: Seen {
        count: 3,
        today: *b"2024-02-01",
        books: true,
        fourth: false,
    },
    reply: Some(Reply {
        number: 4,
        extra: Extra::Plain,
    }),
    after: Seen {
        count: 4,
        today: *b"2024-03-17",
        books: true,
        fourth: true,
    },
    again: true,
};

#[test]
fn judging_alone_changes_nothing(rt: HostRuntime) -> Result<(), Fail> {
    assert_eq!(rt;
        play_over::<Plain, Brand>(rt.alloc(), Blank::new(1))?,
        WANTED
    );
    assert_eq!(rt;
        play_over::<Checked, Brand>(rt.alloc(), Blank::new(1))?,
        WANTED
    );
    Ok(())
}
