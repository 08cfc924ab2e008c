//! Rows and balances that were worked out by hand, from the totals of loans before and after commands.

ghost use Rattle.std.specs.Prelude.{◌≡◌, ◌<◌, ◌≤◌, IsTrue, OnOk};
ghost use Rattle.std.specs.List.{All};
ghost use Rattle.custodial_book.specs.Rows.{balance_of};
ghost use Rattle.period_adjust_tests.specs.Cash.{IsSmall, AreSmall, IsLow};

use custodial_book::{Account, Book, Part, Row, Totals};
use std::alloc::Global;
use std::test::Fail;
use svc_base::{Cents, OutOfMemory};

/// A loan's totals, none of them below 0.
#[derive(Clone, Copy)]
struct Sums {
    received: u32,
    returned: u32,
    refunded: u32,
    disbursed: u32,
    collected: u32,
    fee: u32,
    late: u32,
    pi_advance: u32,
    escrow_advance: u32,
    remitted: u32,
    residual: u32,
}

const NOTHING: Sums = Sums {
    received: 0,
    returned: 0,
    refunded: 0,
    disbursed: 0,
    collected: 0,
    fee: 0,
    late: 0,
    pi_advance: 0,
    escrow_advance: 0,
    remitted: 0,
    residual: 0,
};

/// A first payment of 1,199.10: interest 1,000.00 with a fee of 41.67, and principal 199.10.
const PAID: Sums = Sums {
    received: 119_910,
    collected: 119_910,
    fee: 4_167,
    ..NOTHING
};

/// Its interest and principal remitted.
const REMITTED: Sums = Sums {
    remitted: 115_743,
    ..PAID
};

/// The next month's too, which was not paid.
const AHEAD: Sums = Sums {
    pi_advance: 115_747,
    remitted: 231_490,
    ..PAID
};

/// After the first payment a payoff of 200,300.40.
const PAID_OFF: Sums = Sums {
    received: 20_149_950,
    collected: 20_149_950,
    fee: 6_248,
    ..NOTHING
};

/// It is remitted with a residual.
const PAYOFF_REMITTED: Sums = Sums {
    remitted: 20_095_833,
    residual: 47_869,
    ..PAID_OFF
};

/// The payoff is reversed.
const REVERSED: Sums = Sums {
    received: 20_149_950,
    returned: 20_030_040,
    pi_advance: 19_980_090,
    remitted: 20_095_833,
    ..PAID
};

/// The next remittance takes most of it back.
const TAKEN_BACK: Sums = Sums {
    pi_advance: 115_747,
    remitted: 231_490,
    ..REVERSED
};

/// An escrow of 1,500.00.
const DEPOSITED: Sums = Sums {
    received: 150_000,
    ..NOTHING
};

/// Another loan's escrow of 300.00.
const ANOTHER: Sums = Sums {
    received: 30_000,
    ..NOTHING
};

/// A bill of 2,000.00.
const DISBURSED: Sums = Sums {
    disbursed: 200_000,
    escrow_advance: 50_000,
    ..DEPOSITED
};

/// A deposit of 600.00.
const RECOVERED: Sums = Sums {
    received: 210_000,
    disbursed: 200_000,
    ..NOTHING
};

/// A total in cents.
#[tactic(auto, using(std::proofs::lemmas::Int::ints))]
fn small(total: u32) -> Cents
    ensures { IsSmall result }
{
    Cents::from(total)
}

/// The same, in cents.
#[tactic(auto, using(crate::proofs::CashLemmas::small_kept))]
fn totals(sums: &Sums) -> Totals
    ensures { AreSmall result }
{
    Totals {
        received: small(sums.received),
        returned: small(sums.returned),
        refunded: small(sums.refunded),
        disbursed: small(sums.disbursed),
        collected: small(sums.collected),
        fee: small(sums.fee),
        late: small(sums.late),
        pi_advance: small(sums.pi_advance),
        escrow_advance: small(sums.escrow_advance),
        remitted: small(sums.remitted),
        residual: small(sums.residual),
    }
}

/// A command's change of a loan's totals, the rows that it adds, and what T and P hold then.
#[derive(Clone, Copy)]
struct Change<'a> {
    number: u32,
    loan: u32,
    before: Sums,
    after: Sums,
    rows: &'a [(Part, Cents)],
    held: (Cents, Cents),
}

/// Whether no more than ten million dollars are held or lacking in an account.
#[tactic(auto, using(std::proofs::lemmas::Int::ints))]
fn is_low(cents: Cents) -> bool
    ensures { IsTrue result → IsLow cents }
{
    if cents < -1_000_000_000 {
        return false;
    }
    cents <= 1_000_000_000
}

/// Whether the book has the rows and the balances of a change.
fn has(book: &Book, change: &Change) -> bool {
    let rows = book.rows(change.number);
    for (row, part) in rows.iter().zip(change.rows) {
        let wanted = Row {
            number: change.number,
            loan: change.loan,
            part: part.0,
            cents: part.1,
        };
        if *row != wanted {
            return false;
        }
    }
    rows.len() == change.rows.len()
        && book.balance(Account::T) == change.held.0
        && book.balance(Account::P) == change.held.1
}

/// Adds the rows of a change: whether they and the balances are as wanted.
fn follows(book: &mut Book, change: &Change) -> Result<bool, OutOfMemory>
    requires { All (λ row. row.number < change.now.number) book.old.rows }
    ensures { OnOk result (All (λ row. row.number ≤ change.now.number) book.new.rows) }
{
    if !is_low(book.balance(Account::T)) {
        return Ok(false);
    }
    if !is_low(book.balance(Account::P)) {
        return Ok(false);
    }
    let before = totals(&change.before);
    let after = totals(&change.after);
    book.append(change.number, change.loan, &before, &after)?;
    Ok(has(book, change))
}

/// The command of the first change that is not as wanted, of some that rise by number.
fn wrong_command(alloc: Global, changes: &[Change]) -> Result<Option<u32>, OutOfMemory> {
    let mut book = Book::new(alloc);
    book.reserve(11)?;
    let mut last = 0;
    for change in changes {
        let number = change.number;
        if number <= last || !follows(&mut book, change)? {
            return Ok(Some(number));
        }
        last = number;
    }
    Ok(None)
}

/// The first payment is booked.
fn first_payment() -> Change<'static> {
    Change {
        number: 3,
        loan: 1,
        before: NOTHING,
        after: PAID,
        rows: &[
            (Part::Received, 119_910),
            (Part::Collected, 119_910),
            (Part::Fee, 4_167),
        ],
        held: (0, 115_743),
    }
}

/// A payment of one month is remitted; then the next month's, which was not paid, is advanced.
#[test]
fn a_month_remitted_ahead(rt: HostRuntime) -> Result<(), Fail> {
    let changes = [
        first_payment(),
        Change {
            number: 11,
            loan: 1,
            before: PAID,
            after: REMITTED,
            rows: &[(Part::Remitted, 115_743)],
            held: (0, 0),
        },
        Change {
            number: 12,
            loan: 1,
            before: REMITTED,
            after: AHEAD,
            rows: &[(Part::PiAdvance, 115_747), (Part::Remitted, 115_747)],
            held: (0, 0),
        },
    ];
    assert_eq!(rt; wrong_command(rt.alloc(), &changes)?, None);
    Ok(())
}

/// After the first payment a payoff of 200,300.40 is remitted with a residual; then it is reversed,
/// and the next remittance takes most of it back.
#[test]
fn a_payoff_reversed_after_it_was_remitted(rt: HostRuntime) -> Result<(), Fail> {
    let changes = [
        first_payment(),
        Change {
            number: 5,
            loan: 1,
            before: PAID,
            after: PAID_OFF,
            rows: &[
                (Part::Received, 20_030_040),
                (Part::Collected, 20_030_040),
                (Part::Fee, 2_081),
            ],
            held: (0, 20_143_702),
        },
        Change {
            number: 12,
            loan: 1,
            before: PAID_OFF,
            after: PAYOFF_REMITTED,
            rows: &[(Part::Remitted, 20_095_833), (Part::Residual, 47_869)],
            held: (0, 0),
        },
        Change {
            number: 13,
            loan: 1,
            before: PAYOFF_REMITTED,
            after: REVERSED,
            rows: &[
                (Part::Returned, 20_030_040),
                (Part::Collected, -20_030_040),
                (Part::Fee, -2_081),
                (Part::PiAdvance, 19_980_090),
                (Part::Residual, -47_869),
            ],
            held: (0, 0),
        },
        Change {
            number: 16,
            loan: 1,
            before: REVERSED,
            after: TAKEN_BACK,
            rows: &[
                (Part::PiAdvance, -19_864_343),
                (Part::Remitted, -19_864_343),
            ],
            held: (0, 0),
        },
    ];
    assert_eq!(rt; wrong_command(rt.alloc(), &changes)?, None);
    Ok(())
}

/// A bill of 2,000.00 on an escrow of 1,500.00 is advanced by the servicer and not by another loan's
/// 300.00; a deposit of 600.00 pays the advance back first.
#[test]
fn an_escrow_advanced_and_recovered(rt: HostRuntime) -> Result<(), Fail> {
    let changes = [
        Change {
            number: 5,
            loan: 2,
            before: NOTHING,
            after: DEPOSITED,
            rows: &[(Part::Received, 150_000)],
            held: (150_000, 0),
        },
        Change {
            number: 6,
            loan: 3,
            before: NOTHING,
            after: ANOTHER,
            rows: &[(Part::Received, 30_000)],
            held: (180_000, 0),
        },
        Change {
            number: 7,
            loan: 2,
            before: DEPOSITED,
            after: DISBURSED,
            rows: &[(Part::Disbursed, 200_000), (Part::EscrowAdvance, 50_000)],
            held: (30_000, 0),
        },
        Change {
            number: 8,
            loan: 2,
            before: DISBURSED,
            after: RECOVERED,
            rows: &[(Part::Received, 60_000), (Part::EscrowAdvance, -50_000)],
            held: (40_000, 0),
        },
    ];
    assert_eq!(rt; wrong_command(rt.alloc(), &changes)?, None);
    Ok(())
}
