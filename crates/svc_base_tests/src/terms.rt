//! Terms at both ends of their ranges.

use std::test::Fail;
use svc_base::{read_day, read_month};
use svc_types::{RemitType, TermFault, Terms};

/// A loan of 200,000.00 at 6% over 30 years, taken on in December 2023.
fn usual() -> Option<Terms> {
    Some(Terms {
        boarded: read_day(b"2023-12-15").ok()?,
        principal: 20_000_000,
        rate: 6_000,
        fee: 250,
        pi: 119_910,
        term: 360,
        first: read_month(b"2024-02").ok()?,
        grace: 15,
        late: 500,
        cushion: 2,
        escrow: 0,
        kind: RemitType::SS,
    })
}

#[test]
fn each_term_has_its_range(rt: HostRuntime) -> Result<(), Fail> {
    let terms = usual().ok_or("no terms")?;
    // principal, rate, fee, payment and number of installments
    for (principal, rate, fee, pi, term, want) in [
        (20_000_000, 6_000, 250, 119_910, 360, Ok(())),
        (1, 6_000, 250, 1, 360, Ok(())),
        (10_000_000_000, 6_000, 250, 10_000_000_000, 360, Ok(())),
        (0, 6_000, 250, 119_910, 360, Err(TermFault::Principal)),
        (
            10_000_000_001,
            6_000,
            250,
            10_000_000_000,
            360,
            Err(TermFault::Principal),
        ),
        (20_000_000, 1, 1, 119_910, 360, Ok(())),
        (20_000_000, 0, 0, 119_910, 360, Err(TermFault::RateRange)),
        (20_000_000, 25_000, 250, 500_000, 360, Ok(())),
        (
            20_000_000,
            25_001,
            250,
            500_000,
            360,
            Err(TermFault::RateRange),
        ),
        (20_000_000, 6_000, 0, 119_910, 360, Ok(())),
        (20_000_000, 6_000, 6_000, 119_910, 360, Ok(())),
        (
            20_000_000,
            6_000,
            6_001,
            119_910,
            360,
            Err(TermFault::FeeRange),
        ),
        (
            20_000_000,
            6_000,
            250,
            100_000,
            360,
            Err(TermFault::Payment),
        ),
        (20_000_000, 6_000, 250, 100_001, 360, Ok(())),
        (
            20_000_000,
            6_000,
            250,
            10_000_000_001,
            360,
            Err(TermFault::Payment),
        ),
        (20_000_000, 6_000, 250, 119_910, 0, Err(TermFault::Term)),
        (20_000_000, 6_000, 250, 119_910, 1, Ok(())),
        (20_000_000, 6_000, 250, 119_910, 480, Ok(())),
        (20_000_000, 6_000, 250, 119_910, 481, Err(TermFault::Term)),
    ] {
        let row = Terms {
            principal,
            rate,
            fee,
            pi,
            term,
            ..terms
        };
        assert_eq!(rt; row.check(), want);
    }
    Ok(())
}

#[test]
fn each_date_and_charge_has_its_range(rt: HostRuntime) -> Result<(), Fail> {
    let terms = usual().ok_or("no terms")?;
    // first due month, days of grace, late charge, cushion, escrow payment and rate
    for (first, grace, late, cushion, escrow, rate, want) in [
        ("2023-12", 15, 500, 2, 0, 6_000, Err(TermFault::FirstDue)),
        ("2024-01", 15, 500, 2, 0, 6_000, Ok(())),
        ("2024-02", 15, 500, 2, 0, 6_000, Ok(())),
        ("2024-03", 15, 500, 2, 0, 6_000, Err(TermFault::FirstDue)),
        ("2024-02", 0, 500, 2, 0, 6_000, Ok(())),
        ("2024-02", 28, 500, 2, 0, 6_000, Ok(())),
        ("2024-02", 29, 500, 2, 0, 6_000, Err(TermFault::Grace)),
        ("2024-02", 15, 0, 2, 0, 6_000, Ok(())),
        ("2024-02", 15, 1_000, 2, 0, 6_000, Ok(())),
        ("2024-02", 15, 1_001, 2, 0, 6_000, Err(TermFault::Late)),
        ("2024-02", 15, 500, 0, 0, 6_000, Ok(())),
        ("2024-02", 15, 500, 3, 0, 6_000, Err(TermFault::Cushion)),
        ("2024-02", 15, 500, 2, -1, 6_000, Err(TermFault::EscrowPay)),
        ("2024-02", 15, 500, 2, 10_000_000_000, 6_000, Ok(())),
        (
            "2024-02",
            15,
            500,
            2,
            10_000_000_001,
            6_000,
            Err(TermFault::EscrowPay),
        ),
        ("2024-02", 15, 500, 3, 0, 0, Err(TermFault::RateRange)),
        ("2024-02", 15, 1_001, 3, 0, 6_000, Err(TermFault::Late)),
    ] {
        let row = Terms {
            first: read_month(first.as_bytes())?,
            grace,
            late,
            cushion,
            escrow,
            rate,
            ..terms
        };
        assert_eq!(rt; row.check(), want);
    }
    Ok(())
}
