//! Commands that are the same in each field, and commands that differ in one.

use std::test::Fail;
use svc_base::{Day, Month, read_day, read_month};
use svc_types::{
    Command, Designation, LineKind, PartPlan, Plan, RemitType, SurplusPlan, Terms, is_same,
};

/// A plan that spreads a shortage over a year.
fn spread(months: u32) -> Plan {
    Plan {
        surplus: SurplusPlan::Unsaid,
        short: PartPlan::Spread(months),
        deficient: PartPlan::Unsaid,
    }
}

/// A loan of 200,000.00 of that remittance type.
fn terms_of(boarded: Day, first: Month, kind: RemitType) -> Terms {
    Terms {
        boarded,
        principal: 20_000_000,
        rate: 6_000,
        fee: 250,
        pi: 119_910,
        term: 360,
        first,
        grace: 15,
        late: 500,
        cushion: 2,
        escrow: 0,
        kind,
    }
}

/// A tax line of 500.00 in that month.
fn tax_in(month: u32) -> Command {
    Command::Line {
        loan: 1,
        line: 2,
        kind: LineKind::Tax,
        month,
        every: 12,
        amount: 50_000,
    }
}

/// The places of two commands of which a wrong thing is said: each is the same as itself alone.
fn wrong_pair(commands: &[Command]) -> Option<(usize, usize)> {
    for (i, a) in commands.iter().enumerate() {
        for (j, b) in commands.iter().enumerate() {
            if is_same(a, b) != (i == j) {
                return Some((i, j));
            }
        }
    }
    None
}

#[test]
fn commands_are_the_same_in_each_field(rt: HostRuntime) -> Result<(), Fail> {
    let day = read_day(b"2024-02-01")?;
    let boarded = read_day(b"2023-12-15")?;
    let month = read_month(b"2024-02")?;
    let later = read_month(b"2024-03")?;
    let commands = [
        Command::Day(day),
        Command::Day(boarded),
        Command::Board(1, terms_of(boarded, month, RemitType::SS)),
        Command::Board(1, terms_of(boarded, month, RemitType::SA)),
        Command::Board(2, terms_of(boarded, month, RemitType::SS)),
        Command::Pay(1, day, 119_910, Designation::Regular),
        Command::Pay(1, day, 119_910, Designation::Principal),
        Command::Pay(1, day, 119_911, Designation::Regular),
        Command::Curtail(1, day, 119_910),
        Command::Payoff(1, day, 119_910),
        Command::Deposit(1, day, 119_910),
        Command::Disburse {
            loan: 1,
            day,
            amount: 119_910,
            line: 2,
        },
        Command::Refund(1, 119_910),
        Command::Waive(1, 119_910),
        Command::Reverse { loan: 1, number: 2 },
        tax_in(7),
        tax_in(8),
        Command::Drop { loan: 1, line: 2 },
        Command::Analyse(1, spread(12)),
        Command::Analyse(1, spread(13)),
        Command::Close(month),
        Command::Close(later),
        Command::Remit(month),
        Command::Retype {
            loan: 1,
            period: month,
            kind: RemitType::AA,
        },
        Command::Retype {
            loan: 1,
            period: month,
            kind: RemitType::SA,
        },
    ];
    assert_eq!(rt; wrong_pair(&commands), None);
    Ok(())
}
