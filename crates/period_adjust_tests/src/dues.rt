//! Dues month by month, by running `due` for each type and for changes of type.

ghost use Rattle.std.specs.Prelude.{◌≡◌, pos, IsTrue, IfSome};
ghost use Rattle.svc_types.specs.Terms.{IsSound};
ghost use Rattle.remit_types.specs.Limits.{IsWithin, HasSums, AreWithin};

use remit_types::{Carry, MonthFacts, RemitType, Terms, due, first};
use svc_base::{Cents, Day, Month};
use svc_types::RemitType::{AA, SA, SS};

/// 200,000.00 at 6%, of which 0.25% is the fee, first due in 2024-02.
#[tactic(auto, using(svc_base::specs::DayLemmas::month_length_least), unfolding(svc_base::specs::Money::month_interest))]
fn worked_loan() -> Terms
    ensures sound { IsSound result }
    ensures principal { result.principal ≡ pos 20_000_000 }
{
    Terms {
        boarded: Day::new(Month::new(2023, 12), 15),
        principal: 20_000_000,
        rate: 6_000,
        fee: 250,
        pi: 119_910,
        term: 360,
        first: Month::new(2024, 2),
        grace: 15,
        late: 500,
        cushion: 2,
        escrow: 0,
        kind: SS,
    }
}

/// The sums lie between -10^18 and 10^18.
fn has_sums(carry: &Carry) -> bool
    ensures { IsTrue result → HasSums carry.now }
{
    let limit = 1_000_000_000_000_000_000;
    let low = -limit <= carry.actual && -limit <= carry.scheduled && -limit <= carry.passed;
    let high = carry.actual <= limit && carry.scheduled <= limit && carry.passed <= limit;
    low && high
}

/// A month and its type, what it did to the loan, and what is due for it: interest, principal and
/// the investor's balance.
#[derive(Clone, Copy)]
struct Row {
    kind: RemitType,
    month: (u32, u32),
    upb: u32,
    curtailed: u32,
    interest: u32,
    fee: u32,
    satisfied: bool,
    want: (Cents, Cents, Cents),
}

/// A month in which nothing was paid.
fn unpaid(kind: RemitType, month: (u32, u32), upb: u32, want: (Cents, Cents, Cents)) -> Row {
    Row {
        kind,
        month,
        upb,
        curtailed: 0,
        interest: 0,
        fee: 0,
        satisfied: false,
        want,
    }
}

/// A month in which interest and the fee in it were collected.
fn paid(
    kind: RemitType,
    month: (u32, u32),
    upb: u32,
    collected: (u32, u32),
    want: (Cents, Cents, Cents),
) -> Row {
    let (interest, fee) = collected;
    Row {
        interest,
        fee,
        ..unpaid(kind, month, upb, want)
    }
}

/// The two months before the first due month, in which nothing is due.
fn boarding(kind: RemitType) -> [Row; 2] {
    [
        unpaid(kind, (2023, 12), 20_000_000, (0, 0, 20_000_000)),
        unpaid(kind, (2024, 1), 20_000_000, (0, 0, 20_000_000)),
    ]
}

/// The payoff on 2024-02-16 after the first installment.
fn paid_off(kind: RemitType) -> Row {
    Row {
        satisfied: true,
        ..paid(
            kind,
            (2024, 2),
            0,
            (149_950, 6_248),
            (95_833, 20_000_000, 0),
        )
    }
}

/// What a row's month did to the loan; none where it is no month of these years, or its balance
/// lies above the principal.
fn facts(terms: &Terms, row: &Row) -> Option<MonthFacts>
    ensures { IfSome result (AreWithin terms.now) }
{
    let (year, month) = row.month;
    let upb = Cents::from(row.upb);
    if !(2023..=2024).contains(&year) || !(1..=12).contains(&month) || upb > terms.principal {
        return None;
    }
    Some(MonthFacts {
        month: Month::new(year, month),
        upb,
        curtailed: Cents::from(row.curtailed),
        interest: Cents::from(row.interest),
        fee: Cents::from(row.fee),
        satisfied: row.satisfied,
    })
}

/// Whether a month's due and the balances after it are those of the row.
fn is_due(carry: &mut Carry, terms: &Terms, row: &Row) -> bool
    requires terms { IsSound terms.now }
    requires carry { IsWithin terms.now carry.old }
    ensures { IsWithin terms.now carry.new }
{
    let Some(facts) = facts(terms, row) else {
        return false;
    };
    if !has_sums(carry) {
        return false;
    }
    let got = due(carry, terms, row.kind, &facts);
    let balances = (carry.upb, carry.balance) == (Cents::from(row.upb), got.balance);
    balances && (got.interest, got.principal, got.balance) == row.want
}

/// The first month, from the boarded one on, whose due is not that of its row.
fn wrong_month(start: RemitType, rows: &[Row]) -> Option<(u32, u32)> {
    let before = boarding(start);
    let terms = worked_loan();
    let mut carry = first(&terms);
    for row in before.iter().chain(rows) {
        if !is_due(&mut carry, &terms, row) {
            return Some(row.month);
        }
    }
    None
}

#[test]
fn scheduled_interest_and_principal(rt: HostRuntime) {
    let first = paid(
        SS,
        (2024, 2),
        19_980_090,
        (100_000, 4_167),
        (95_833, 19_910, 19_980_090),
    );
    let unpaid_month = unpaid(SS, (2024, 3), 19_980_090, (95_737, 20_010, 19_960_080));
    let late = paid(
        SS,
        (2024, 3),
        19_960_080,
        (99_900, 4_163),
        (95_737, 20_010, 19_960_080),
    );
    assert_eq!(rt; wrong_month(SS, &[first, unpaid_month]), None);
    assert_eq!(rt; wrong_month(SS, &[first, late]), None);
    let curtailed = Row {
        curtailed: 100_000,
        ..paid(
            SS,
            (2024, 2),
            19_880_090,
            (100_000, 4_167),
            (95_833, 119_910, 19_880_090),
        )
    };
    let after = unpaid(SS, (2024, 3), 19_880_090, (95_258, 20_510, 19_859_580));
    assert_eq!(rt; wrong_month(SS, &[curtailed, after]), None);
    assert_eq!(rt; wrong_month(SS, &[paid_off(SS)]), None);
}

#[test]
fn scheduled_interest_and_actual_principal(rt: HostRuntime) {
    let first = paid(
        SA,
        (2024, 2),
        19_980_090,
        (100_000, 4_167),
        (95_833, 19_910, 19_980_090),
    );
    let unpaid_month = unpaid(SA, (2024, 3), 19_980_090, (95_737, 0, 19_980_090));
    let second = paid(
        SA,
        (2024, 3),
        19_960_080,
        (99_900, 4_163),
        (95_737, 20_010, 19_960_080),
    );
    assert_eq!(rt; wrong_month(SA, &[first, unpaid_month]), None);
    assert_eq!(rt; wrong_month(SA, &[first, second]), None);
    assert_eq!(rt; wrong_month(SA, &[paid_off(SA)]), None);
}

#[test]
fn actual_interest_and_principal(rt: HostRuntime) {
    let first = paid(
        AA,
        (2024, 2),
        19_980_090,
        (100_000, 4_167),
        (95_833, 19_910, 19_980_090),
    );
    let unpaid_month = unpaid(AA, (2024, 3), 19_980_090, (0, 0, 19_980_090));
    let second = paid(
        AA,
        (2024, 3),
        19_960_080,
        (99_900, 4_163),
        (95_737, 20_010, 19_960_080),
    );
    assert_eq!(rt; wrong_month(AA, &[first, unpaid_month]), None);
    assert_eq!(rt; wrong_month(AA, &[first, second]), None);
    // the first installment's payment was reversed, and that of March pays it
    let nothing = unpaid(AA, (2024, 2), 20_000_000, (0, 0, 20_000_000));
    let in_march = paid(
        AA,
        (2024, 3),
        19_980_090,
        (100_000, 4_167),
        (95_833, 19_910, 19_980_090),
    );
    assert_eq!(rt; wrong_month(AA, &[nothing, in_march]), None);
}

#[test]
fn changes_of_type(rt: HostRuntime) {
    let first = paid(
        AA,
        (2024, 2),
        19_980_090,
        (100_000, 4_167),
        (95_833, 19_910, 19_980_090),
    );
    let unpaid_month = unpaid(AA, (2024, 3), 19_980_090, (0, 0, 19_980_090));
    // two months' interest in the first month of Scheduled/Actual, and back again
    let scheduled = unpaid(SA, (2024, 4), 19_980_090, (191_474, 0, 19_980_090));
    let actual = unpaid(AA, (2024, 5), 19_980_090, (-191_474, 0, 19_980_090));
    assert_eq!(rt;
        wrong_month(AA, &[first, unpaid_month, scheduled, actual]),
        None
    );
    // March was paid late: 958.32 less
    let second = paid(
        AA,
        (2024, 3),
        19_960_080,
        (99_900, 4_163),
        (95_737, 20_010, 19_960_080),
    );
    let less = unpaid(SA, (2024, 4), 19_960_080, (191_474 - 95_832, 0, 19_960_080));
    assert_eq!(rt; wrong_month(AA, &[first, second, less]), None);
    // a satisfied loan passes what it collected beyond its schedule
    let satisfied = Row {
        satisfied: true,
        ..unpaid(AA, (2024, 3), 0, (47_869, 0, 0))
    };
    assert_eq!(rt; wrong_month(SS, &[paid_off(SS), satisfied]), None);
}
