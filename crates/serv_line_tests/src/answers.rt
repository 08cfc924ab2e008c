//! The text of each answer.

ghost use Rattle.std.specs.Prelude.{◌≤◌, ◌≤ℤ◌, pos};
ghost use Rattle.svc_world.specs.Unsigned.{AreUnsignedBooks, AreUnsignedFigures, IsUnsignedCash};
ghost use Rattle.serv_report.specs.AnswerTexts.{IsSpellable};
ghost use Rattle.serv_report.specs.EscrowText.{HasYear};

use custodial_book::{Part, Row};
use escrow_analysis::Analysis;
use serv_report::{custodial, escrow, push_answer, push_custodial, push_escrow, write_answer};
use std::alloc::Global;
use std::test::Fail;
use svc_base::{Cents, Day, Month, OutOfMemory, first_day, last_day};
use svc_types::{Books, EscrowPlan, Figures};
use svc_world::{Answer, Custody, RowList};

/// Whether an answer has this text, and is appended to it as the same again.
fn is_written(alloc: Global, answer: &Answer, text: &str) -> Result<bool, OutOfMemory>
    requires { IsSpellable answer.now }
{
    let mut out = write_answer(alloc, answer)?;
    let is_text = out.as_slice() == text.as_bytes();
    push_answer(&mut out, answer)?;
    Ok(is_text && is_twice(&out, text))
}

/// Whether the bytes are this text and the same again.
fn is_twice(bytes: &[u8], text: &str) -> bool {
    match bytes.strip_prefix(text.as_bytes()) {
        Some(rest) => rest == text.as_bytes(),
        None => false,
    }
}

/// A day of 2024.
#[tactic(auto, using(svc_base::specs::DayLemmas::month_length_least))]
fn day(month: u32, day: u32) -> Day
    requires month { (1 ≤ month) × (month ≤ 12) }
    requires day { (1 ≤ day) × (day ≤ 28) }
{
    Day::new(Month::new(2024, month), day)
}

/// A plan that asks for nothing.
fn no_plan() -> EscrowPlan {
    EscrowPlan {
        start: Month::new(2023, 12),
        base: 0,
        credit: 0,
        short: 0,
        short_months: 0,
        deficient: 0,
        deficient_months: 0,
    }
}

/// The books of a loan on which an installment was paid.
fn paid_books(day: Day) -> Books
    ensures { AreUnsignedBooks result }
{
    Books {
        day,
        upb: 19_980_090,
        next: 2,
        escrow: 0,
        suspense: 0,
        late_owed: 0,
        interest: 100_000,
        fee: 4_167,
        principal: 19_910,
        curtailed: 0,
        late_paid: 0,
        plan: no_plan(),
        earlier: no_plan(),
        satisfied: None,
    }
}

fn has_books(
    alloc: Global,
    loan: u32,
    books: Books,
    next: Option<Month>,
    pay: Cents,
    text: &str,
) -> Result<bool, OutOfMemory>
    requires books { AreUnsignedBooks books }
    requires pay { pos 0 ≤ℤ pay }
{
    let answer = Answer::Books {
        loan,
        books,
        next,
        pay,
    };
    is_written(alloc, &answer, text)
}

const FIRST_BOOKS: &str =
    "books 1 2024-02-01 upb 199800.90 next 2024-03 escrow 0.00 suspense 0.00 late 0.00 \
interest 1000.00 fee 41.67 principal 199.10 charges 0.00 pay 1199.10\n";

const LATE_BOOKS: &str =
    "books 12000 2024-03-20 upb 199600.80 next 2024-04 escrow -500.00 suspense 0.01 late 59.96 \
interest 1999.00 fee 83.30 principal 399.20 charges 59.95 pay 1199.10\n";

const SATISFIED_BOOKS: &str =
    "books 1 2024-02-16 upb 0.00 next - escrow 0.00 suspense 0.00 late 0.00 \
interest 1499.50 fee 62.48 principal 200000.00 charges 0.00 pay 0.00\n";

/// The books of a loan in arrears.
fn late_books() -> Books
    ensures { AreUnsignedBooks result }
{
    Books {
        upb: 19_960_080,
        next: 3,
        escrow: -50_000,
        suspense: 1,
        late_owed: 5_996,
        interest: 199_900,
        fee: 8_330,
        principal: 39_920,
        late_paid: 5_995,
        ..paid_books(day(3, 20))
    }
}

/// The books of a loan that was paid off.
fn satisfied_books() -> Books
    ensures { AreUnsignedBooks result }
{
    Books {
        upb: 0,
        interest: 149_950,
        fee: 6_248,
        principal: 20_000_000,
        satisfied: Some(day(2, 16)),
        ..paid_books(day(2, 16))
    }
}

#[test]
fn books_have_their_line(rt: HostRuntime) -> Result<(), Fail> {
    let march = Some(Month::new(2024, 3));
    let april = Some(Month::new(2024, 4));
    let first = paid_books(day(2, 1));
    assert!(rt; has_books(rt.alloc(), 1, first, march, 119_910, FIRST_BOOKS)?);
    assert!(rt; has_books(rt.alloc(), 12_000, late_books(), april, 119_910, LATE_BOOKS)?);
    assert!(rt; has_books(rt.alloc(), 1, satisfied_books(), None, 0, SATISFIED_BOOKS)?);
    Ok(())
}

fn has_payoff(
    alloc: Global,
    loan: u32,
    day: Day,
    cents: Cents,
    text: &str,
) -> Result<bool, OutOfMemory>
    requires { pos 0 ≤ℤ cents }
{
    is_written(alloc, &Answer::Payoff { loan, day, cents }, text)
}

#[test]
fn payoffs_have_their_line(rt: HostRuntime) -> Result<(), Fail> {
    let first = first_day(Month::new(1990, 1));
    let last = last_day(Month::new(2099, 12));
    let text = "payoff 1 2024-02-16 200300.40\n";
    assert!(rt; has_payoff(rt.alloc(), 1, day(2, 16), 20_030_040, text)?);
    let text = "payoff 0 1990-01-01 0.00\n";
    assert!(rt; has_payoff(rt.alloc(), 0, first, 0, text)?);
    let text = "payoff 4294967295 2099-12-31 1000000000000.05\n";
    assert!(rt; has_payoff(rt.alloc(), 4_294_967_295, last, 100_000_000_000_005, text)?);
    Ok(())
}

/// What the accounts hold after four months were remitted of which one was not paid.
const ADVANCED: Custody = Custody {
    t: 0,
    p: 0,
    suspense: 0,
    escrow: 0,
    escrow_advance: 0,
    held: 0,
    pi_advance: 115_747,
};

const ADVANCED_TEXT: &str =
    "custodial T 0.00 P 0.00 suspense 0.00 escrow 0.00 escrow-advance 0.00 held 0.00 pi-advance 1157.47\n";

const OVERDRAWN: Custody = Custody {
    t: 30_000,
    p: 0,
    suspense: 0,
    escrow: -20_000,
    escrow_advance: 50_000,
    held: 0,
    pi_advance: 0,
};

const OVERDRAWN_TEXT: &str =
    "custodial T 300.00 P 0.00 suspense 0.00 escrow -200.00 escrow-advance 500.00 held 0.00 pi-advance 0.00\n";

const EACH_ITS_OWN: Custody = Custody {
    t: -1,
    p: -200,
    suspense: 300,
    escrow: 400,
    escrow_advance: 500,
    held: 600,
    pi_advance: 700,
};

const EACH_TEXT: &str =
    "custodial T -0.01 P -2.00 suspense 3.00 escrow 4.00 escrow-advance 5.00 held 6.00 pi-advance 7.00\n";

/// Whether the accounts have this line, by each call that writes it.
fn has_accounts(alloc: Global, custody: &Custody, text: &str) -> Result<bool, OutOfMemory>
    requires { IsUnsignedCash custody.now }
{
    let mut out = custodial(alloc, custody)?;
    push_custodial(&mut out, custody)?;
    Ok(is_twice(&out, text) && is_written(alloc, &Answer::Custodial(*custody), text)?)
}

#[test]
fn accounts_have_their_line(rt: HostRuntime) -> Result<(), Fail> {
    assert!(rt; has_accounts(rt.alloc(), &ADVANCED, ADVANCED_TEXT)?);
    assert!(rt; has_accounts(rt.alloc(), &OVERDRAWN, OVERDRAWN_TEXT)?);
    assert!(rt; has_accounts(rt.alloc(), &EACH_ITS_OWN, EACH_TEXT)?);
    Ok(())
}

/// A row of loan 1.
const fn row(number: u32, part: Part, cents: Cents) -> Row {
    Row {
        number,
        loan: 1,
        part,
        cents,
    }
}

/// Whether the rows of a command have this text.
fn has_rows(alloc: Global, number: u32, rows: &[Row], text: &str) -> Result<bool, OutOfMemory> {
    let rows = RowList::from_vec(Vec::from_slice(alloc, rows)?);
    is_written(alloc, &Answer::Rows { number, rows }, text)
}

const PAID_TEXT: &str = "rows 3 count 3\n\
row 1 Received Borrower T 1199.10\n\
row 1 Collected T P 1199.10\n\
row 1 Fee P Servicer 41.67\n\
end\n";

/// An amount that goes the other way keeps the names of both sides.
const REPAID_TEXT: &str = "rows 13 count 4\n\
row 1 Received Borrower T 1199.10\n\
row 1 Collected T P 1199.10\n\
row 1 Fee P Servicer 41.63\n\
row 1 PiAdvance Servicer P -1157.47\n\
end\n";

#[test]
fn rows_have_their_lines(rt: HostRuntime) -> Result<(), Fail> {
    let paid = [
        row(3, Part::Received, 119_910),
        row(3, Part::Collected, 119_910),
        row(3, Part::Fee, 4_167),
    ];
    assert!(rt; has_rows(rt.alloc(), 3, &paid, PAID_TEXT)?);
    let repaid = [
        row(13, Part::Received, 119_910),
        row(13, Part::Collected, 119_910),
        row(13, Part::Fee, 4_163),
        row(13, Part::PiAdvance, -115_747),
    ];
    assert!(rt; has_rows(rt.alloc(), 13, &repaid, REPAID_TEXT)?);
    assert!(rt; has_rows(rt.alloc(), 1, &[], "rows 1 count 0\nend\n")?);
    Ok(())
}

/// Each part, and the text of a row of 0.05 of it.
const PARTS: [(Part, &str); 11] = [
    (
        Part::Received,
        "rows 7 count 1\nrow 1 Received Borrower T 0.05\nend\n",
    ),
    (
        Part::Returned,
        "rows 7 count 1\nrow 1 Returned T Borrower 0.05\nend\n",
    ),
    (
        Part::Refunded,
        "rows 7 count 1\nrow 1 Refunded T Borrower 0.05\nend\n",
    ),
    (
        Part::Disbursed,
        "rows 7 count 1\nrow 1 Disbursed T Payee 0.05\nend\n",
    ),
    (
        Part::Collected,
        "rows 7 count 1\nrow 1 Collected T P 0.05\nend\n",
    ),
    (
        Part::Fee,
        "rows 7 count 1\nrow 1 Fee P Servicer 0.05\nend\n",
    ),
    (
        Part::Late,
        "rows 7 count 1\nrow 1 Late T Servicer 0.05\nend\n",
    ),
    (
        Part::PiAdvance,
        "rows 7 count 1\nrow 1 PiAdvance Servicer P 0.05\nend\n",
    ),
    (
        Part::EscrowAdvance,
        "rows 7 count 1\nrow 1 EscrowAdvance Servicer T 0.05\nend\n",
    ),
    (
        Part::Remitted,
        "rows 7 count 1\nrow 1 Remitted P Investor 0.05\nend\n",
    ),
    (
        Part::Residual,
        "rows 7 count 1\nrow 1 Residual P Servicer 0.05\nend\n",
    ),
];

#[test]
fn each_part_has_its_names(rt: HostRuntime) -> Result<(), Fail> {
    for (part, text) in PARTS.iter() {
        assert!(rt;
            has_rows(rt.alloc(), 7, &[row(7, *part, 5)], text)?,
            "{text}"
        );
    }
    Ok(())
}

/// The analysis of a year that pays 500.00 in July, 360.00 in September and 700.00 in December.
const THREE_BILLS: Analysis = Analysis {
    base: 13_000,
    cushion: 26_000,
    opening: 104_000,
    trial: [
        -37_000, -24_000, -47_000, -34_000, -21_000, -78_000, -65_000, -52_000, -39_000, -26_000,
        -13_000, 0,
    ],
    target: [
        67_000, 80_000, 57_000, 70_000, 83_000, 26_000, 39_000, 52_000, 65_000, 78_000, 91_000,
        104_000,
    ],
};

const ESCROW_TEXT: &str =
    "escrow 2 from 2024-07 base 130.00 cushion 260.00 opening 1040.00 balance 1090.00 surplus 50.00 short 0.00 deficient 0.00 pay 130.00\n\
month 2024-07 paid 500.00 trial -370.00 target 670.00\n\
month 2024-08 paid 0.00 trial -240.00 target 800.00\n\
month 2024-09 paid 360.00 trial -470.00 target 570.00\n\
month 2024-10 paid 0.00 trial -340.00 target 700.00\n\
month 2024-11 paid 0.00 trial -210.00 target 830.00\n\
month 2024-12 paid 700.00 trial -780.00 target 260.00\n\
month 2025-01 paid 0.00 trial -650.00 target 390.00\n\
month 2025-02 paid 0.00 trial -520.00 target 520.00\n\
month 2025-03 paid 0.00 trial -390.00 target 650.00\n\
month 2025-04 paid 0.00 trial -260.00 target 780.00\n\
month 2025-05 paid 0.00 trial -130.00 target 910.00\n\
month 2025-06 paid 0.00 trial 0.00 target 1040.00\n\
end\n";

fn worked_figures() -> Figures
    ensures year { HasYear result.from }
    ensures amounts { AreUnsignedFigures result }
{
    Figures {
        from: Month::new(2024, 7),
        base: 13_000,
        cushion: 26_000,
        opening: 104_000,
        balance: 109_000,
        surplus: 5_000,
        short: 0,
        deficient: 0,
        refund: 0,
        within30: 0,
        pay: 13_000,
    }
}

/// The text of the worked analysis, and the same appended to it.
fn worked_text(alloc: Global) -> Result<Vec<u8>, OutOfMemory> {
    let figures = worked_figures();
    let mut out = escrow(alloc, 2, &figures, &THREE_BILLS)?;
    push_escrow(&mut out, 2, &figures, &THREE_BILLS)?;
    Ok(out)
}

fn is_answered(alloc: Global) -> Result<bool, OutOfMemory> {
    let answer = Answer::Escrow {
        loan: 2,
        figures: worked_figures(),
        analysis: THREE_BILLS,
    };
    is_written(alloc, &answer, ESCROW_TEXT)
}

#[test]
fn an_analysis_has_its_months(rt: HostRuntime) -> Result<(), Fail> {
    assert!(rt; is_twice(&worked_text(rt.alloc())?, ESCROW_TEXT));
    assert!(rt; is_answered(rt.alloc())?);
    Ok(())
}

/// An analysis at the ends of what it may have.
const LAST_YEAR: Analysis = Analysis {
    base: 9_223_372_036_854_775_807,
    cushion: 0,
    opening: 1,
    trial: [
        -9_223_372_036_854_775_807,
        9_223_372_036_854_775_807,
        -9_223_372_036_854_775_807,
        0,
        0,
        0,
        0,
        0,
        0,
        0,
        0,
        0,
    ],
    target: [1; 12],
};

/// What a month pays out may need more than 64 bits.
const LAST_TEXT: &str =
    "escrow 9 from 2140-01 base 0.00 cushion 0.00 opening 0.01 balance -0.01 surplus 0.00 short 0.01 deficient 0.01 pay 0.00\n\
month 2140-01 paid 184467440737095516.14 trial -92233720368547758.07 target 0.01\n\
month 2140-02 paid -92233720368547758.07 trial 92233720368547758.07 target 0.01\n\
month 2140-03 paid 276701161105643274.21 trial -92233720368547758.07 target 0.01\n\
month 2140-04 paid 0.00 trial 0.00 target 0.01\n";

fn last_text(alloc: Global) -> Result<Vec<u8>, OutOfMemory> {
    let figures = Figures {
        from: Month::new(2140, 1),
        base: 0,
        cushion: 0,
        opening: 1,
        balance: -1,
        surplus: 0,
        short: 1,
        deficient: 1,
        refund: 0,
        within30: 0,
        pay: 0,
    };
    escrow(alloc, 9, &figures, &LAST_YEAR)
}

#[test]
fn the_last_year_that_is_spelled_begins_with_2140(rt: HostRuntime) -> Result<(), Fail> {
    let text = last_text(rt.alloc())?;
    assert!(rt; text.starts_with(LAST_TEXT.as_bytes()), "{text:?}");
    Ok(())
}
