//! Texts of refusals and replies.

use serv_line::{
    push_bad, push_full, push_line, push_refusal, push_reply, refusal_code, write_bad, write_full,
    write_refusal, write_reply,
};
use std::alloc::Global;
use std::test::Fail;
use svc_base::{Month, OutOfMemory, first_day, last_day};
use svc_types::{
    Extra, Figures, Limit, LineWhy, PlanFault, PlanPart, Query, Refusal, Reply, Request, TermFault,
};

fn month() -> Month {
    Month::new(2024, 4)
}

fn is_refused(alloc: Global, refusal: &Refusal, text: &str) -> Result<bool, OutOfMemory> {
    Ok(write_refusal(alloc, refusal)?.as_slice() == text.as_bytes())
}

#[test]
fn refusals_up_to_13_have_their_texts(rt: HostRuntime) -> Result<(), Fail> {
    let rows: [(Refusal, &str); 13] = [
        (Refusal::KeyReused(3), "no 1 KeyReused 3\n"),
        (Refusal::Full(Limit::Types), "no 2 Full Types\n"),
        (
            Refusal::DayNotLater(first_day(month())),
            "no 3 DayNotLater 2024-04-01\n",
        ),
        (Refusal::LoanExists, "no 4 LoanExists\n"),
        (Refusal::NoSuchLoan, "no 5 NoSuchLoan\n"),
        (
            Refusal::BadTerms(TermFault::Payment),
            "no 6 BadTerms 4 Payment\n",
        ),
        (Refusal::BoardedLate(month()), "no 7 BoardedLate 2024-04\n"),
        (Refusal::BadAmount, "no 8 BadAmount\n"),
        (
            Refusal::FutureDated(first_day(month())),
            "no 9 FutureDated 2024-04-01\n",
        ),
        (
            Refusal::BeforeBoarding(last_day(month())),
            "no 10 BeforeBoarding 2024-04-30\n",
        ),
        (
            Refusal::OverPrincipal(19_880_090),
            "no 11 OverPrincipal 198800.90\n",
        ),
        (
            Refusal::PayoffShort(20_030_040),
            "no 12 PayoffShort 200300.40\n",
        ),
        (Refusal::NoSuchEntry, "no 13 NoSuchEntry\n"),
    ];
    for (refusal, text) in rows {
        assert!(rt; is_refused(rt.alloc(), &refusal, text)?, "{text}");
    }
    Ok(())
}

#[test]
fn refusals_from_14_on_have_their_texts(rt: HostRuntime) -> Result<(), Fail> {
    let rows: [(Refusal, &str); 14] = [
        (Refusal::AlreadyReversed(14), "no 14 AlreadyReversed 14\n"),
        (Refusal::NotReversible, "no 15 NotReversible\n"),
        (Refusal::NoSuchLine, "no 16 NoSuchLine\n"),
        (
            Refusal::BadLine(LineWhy::MonthRange),
            "no 17 BadLine 2 MonthRange\n",
        ),
        (
            Refusal::BadPlan(PlanFault::MustSpread(PlanPart::Short)),
            "no 18 BadPlan 2 MustSpread Short\n",
        ),
        (Refusal::OverRefund(0), "no 19 OverRefund 0.00\n"),
        (Refusal::OverWaiver(5_996), "no 20 OverWaiver 59.96\n"),
        (Refusal::WrongPeriod(month()), "no 21 WrongPeriod 2024-04\n"),
        (
            Refusal::NotEnded(last_day(month())),
            "no 22 NotEnded 2024-04-30\n",
        ),
        (Refusal::NotClosed(None), "no 23 NotClosed -\n"),
        (Refusal::WrongRemit(month()), "no 24 WrongRemit 2024-04\n"),
        (
            Refusal::AdjustmentsFull(4_000_000),
            "no 25 AdjustmentsFull 4000000\n",
        ),
        (Refusal::ClosedMonth(month()), "no 27 ClosedMonth 2024-04\n"),
        (Refusal::NoSuchCommand, "no 28 NoSuchCommand\n"),
    ];
    for (refusal, text) in rows {
        assert!(rt; is_refused(rt.alloc(), &refusal, text)?, "{text}");
    }
    Ok(())
}

#[test]
fn each_value_of_a_refusal_has_its_text(rt: HostRuntime) -> Result<(), Fail> {
    let rows: [(Refusal, &str); 9] = [
        (Refusal::Full(Limit::Commands), "no 2 Full Commands\n"),
        (
            Refusal::BadTerms(TermFault::EscrowPay),
            "no 6 BadTerms 10 EscrowPay\n",
        ),
        (
            Refusal::BadPlan(PlanFault::MustRefund),
            "no 18 BadPlan 1 MustRefund\n",
        ),
        (
            Refusal::BadPlan(PlanFault::MustSpread(PlanPart::Deficient)),
            "no 18 BadPlan 3 MustSpread Deficient\n",
        ),
        (
            Refusal::BadPlan(PlanFault::TooFewMonths(11)),
            "no 18 BadPlan 4 TooFewMonths 11\n",
        ),
        (
            Refusal::BadPlan(PlanFault::TooManyMonths(61)),
            "no 18 BadPlan 5 TooManyMonths 61\n",
        ),
        (
            Refusal::BadPlan(PlanFault::NothingToPlan(PlanPart::Short)),
            "no 18 BadPlan 6 NothingToPlan Short\n",
        ),
        (
            Refusal::NotClosed(Some(month())),
            "no 23 NotClosed 2024-04\n",
        ),
        (Refusal::BadLine(LineWhy::Every), "no 17 BadLine 3 Every\n"),
    ];
    for (refusal, text) in rows {
        assert!(rt; is_refused(rt.alloc(), &refusal, text)?, "{text}");
    }
    Ok(())
}

fn is_answered(alloc: Global, number: u32, extra: Extra, text: &str) -> Result<bool, OutOfMemory> {
    let written = write_reply(alloc, &Reply { number, extra })?;
    Ok(written.as_slice() == text.as_bytes())
}

fn figures() -> Figures {
    Figures {
        from: Month::new(2024, 7),
        base: 13_000,
        cushion: 26_000,
        opening: 104_000,
        balance: 109_000,
        surplus: 5_000,
        short: 0,
        deficient: 0,
        refund: 5_000,
        within30: 0,
        pay: 13_000,
    }
}

const ANALYSED: &str =
    "ok 7 base 130.00 cushion 260.00 opening 1040.00 balance 1090.00 surplus 50.00 \
short 0.00 deficient 0.00 refund 50.00 within30 0.00 pay 130.00\n";

#[test]
fn each_reply_has_its_text(rt: HostRuntime) -> Result<(), Fail> {
    let closed = Extra::Closed {
        lines: 1,
        interest: -95_737,
        principal: -20_010,
    };
    let remitted = Extra::Remitted { net: 115_743 };
    for (number, extra, text) in [
        (1, Extra::Plain, "ok 1\n"),
        (
            16,
            closed,
            "ok 16 lines 1 interest -957.37 principal -200.10\n",
        ),
        (11, remitted, "ok 11 net 1157.43\n"),
        (7, Extra::Analysed(figures()), ANALYSED),
    ] {
        assert!(rt; is_answered(rt.alloc(), number, extra, text)?, "{text}");
    }
    Ok(())
}

fn is_bad(alloc: Global, place: u32, text: &str) -> Result<bool, OutOfMemory> {
    Ok(write_bad(alloc, place)?.as_slice() == text.as_bytes())
}

fn is_full(alloc: Global, length: u64, text: &str) -> Result<bool, OutOfMemory> {
    Ok(write_full(alloc, length)?.as_slice() == text.as_bytes())
}

/// A text of each kind, one after another.
fn pushed(alloc: Global) -> Result<Vec<u8>, OutOfMemory> {
    let mut out = Vec::new(alloc);
    push_bad(&mut out, 0)?;
    push_full(&mut out, 268_435_456)?;
    push_refusal(&mut out, &Refusal::BadAmount)?;
    push_reply(&mut out, &SECOND)?;
    push_line(&mut out, &Request::Ask(Query::Custodial))?;
    Ok(out)
}

const SECOND: Reply = Reply {
    number: 2,
    extra: Extra::Plain,
};

const PUSHED: &str = "bad 0\nno 26 JournalFull 268435456\nno 8 BadAmount\nok 2\n? custodial";

#[test]
fn other_replies_have_their_texts(rt: HostRuntime) -> Result<(), Fail> {
    assert!(rt; is_bad(rt.alloc(), 9, "bad 9\n")?);
    assert!(rt; is_bad(rt.alloc(), 512, "bad 512\n")?);
    assert!(rt; is_full(rt.alloc(), 29, "no 26 JournalFull 29\n")?);
    assert_eq!(rt; refusal_code(&Refusal::ClosedMonth(month())), 27);
    assert_eq!(rt; refusal_code(&Refusal::NoSuchCommand), 28);
    assert_eq!(rt; pushed(rt.alloc())?.as_slice(), PUSHED.as_bytes());
    Ok(())
}
