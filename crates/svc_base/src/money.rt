//! Amounts of money, rates, and what a rate takes of an amount.

ghost use Rattle.std.specs.Prelude.{◌≡◌, ◌<◌, ◌≤◌, ◌^◌, ◌*◌, pos, ◌≤ℤ◌};
ghost use Rattle.svc_base.specs.Money as money;

/// An amount of money in cents.
pub type Cents = i64;

/// A yearly rate in thousandths of a percent: 6.875% is 6875.
pub type Rate = u32;

/// One month's interest on a balance, in cents, half a cent rounded up.
#[tactic(auto, using(crate::proofs::MoneyLemmas::limits), unfolding(crate::specs::Money::month_interest))]
pub fn month_interest(upb: Cents, rate: Rate) -> Cents
    requires amount { money.IsAmount upb }
    requires rate { rate ≤ 25_000 }
    ensures value { result ≡ money.month_interest upb rate }
    ensures low { pos 0 ≤ℤ result }
    ensures high { result ≤ℤ pos 208_333_333 }
{
    half_up(upb as u64 * u64::from(rate), 1_200_000)
}

/// The interest of some days of a year of 360, in cents, half a cent rounded up.
#[tactic(auto, using(crate::proofs::MoneyLemmas::limits), unfolding(crate::specs::Money::day_interest))]
pub fn day_interest(upb: Cents, rate: Rate, days: u32) -> Cents
    requires amount { money.IsAmount upb }
    requires rate { rate ≤ 25_000 }
    requires days { days ≤ 60_000 }
    ensures value { result ≡ money.day_interest upb rate days }
    ensures low { pos 0 ≤ℤ result }
    ensures high { result ≤ℤ pos 416_666_666_667 }
{
    wide_half_up(
        upb as u128 * u128::from(rate) * u128::from(days),
        36_000_000,
    )
}

/// So many hundredths of a percent of an amount, in cents, half a cent rounded up.
#[tactic(auto, using(crate::proofs::MoneyLemmas::limits), unfolding(crate::specs::Money::share_bp))]
pub fn share_bp(cents: Cents, bp: u32) -> Cents
    requires amount { money.IsAmount cents }
    requires bp { bp ≤ 10_000 }
    ensures value { result ≡ money.share_bp cents bp }
    ensures low { pos 0 ≤ℤ result }
    ensures high { result ≤ℤ pos 10_000_000_000 }
{
    half_up(cents as u64 * u64::from(bp), 10_000)
}

/// `a / b` rounded to the nearest whole number, a half upwards.
fn half_up(a: u64, b: u64) -> Cents
    requires positive { 0 < b }
    requires divisor { b < 2 ^ 62 }
    requires dividend { a < 2 ^ 62 }
    ensures { result ≡ pos (money.half_up a b) }
{
    ((2 * a + b) / (2 * b)) as Cents
}

/// The same of a wider dividend, which takes a division of 128 bits.
fn wide_half_up(part: u128, whole: u128) -> Cents
    requires positive { 0 < whole }
    requires divisor { whole < 2 ^ 62 }
    requires dividend { part < 2 ^ 65 }
    requires fits { part < 2 ^ 62 * whole }
    ensures { result ≡ pos (money.half_up part whole) }
{
    ((2 * part + whole) / (2 * whole)) as Cents
}
