//! Reading numbers, amounts, days and months: a text is read exactly where it is the spelling of a
//! value in range.

ghost use Rattle.std.specs.Prelude.{◌≡◌, ◌≢◌, ℕ, ◌+◌, ◌*◌, ◌<◌, ◌≤◌, ◌^◌, ◌∷◌, ◌++◌, [], List, ◌↔◌, ◌⊎◌, ℤ};
ghost use Rattle.std.specs.Prelude.{IfSome, IfNone, IfOk, IfErr, OnErr, IsTrue, SomeIff, slice_index, length};
ghost use Rattle.std.specs.Str.Parse.{IsNumeral, digits_value};
ghost use Rattle.std.specs.Char.{digit_value};
ghost use Rattle.svc_base.specs.Calendar.{month_length, IsReadDay};
ghost use Rattle.svc_base.specs.Text.{text_of_number, text_of_amount, text_of_month, text_of_day};
ghost use Rattle.svc_base.specs.Text.{two_digits, four_digits, text_of_cents, IsReadAmount, IsCivilMonth};
ghost use Rattle.svc_base.specs.Text.{IsCivilDay, IsReadMonth, IsMonthFault, IsDayFault, IsOtherYear};

use crate::day::Day;
use crate::day_fault::DayFault;
use crate::money::Cents;
use crate::month::Month;
use jiff::civil::Date;

/// Whether a text begins as a number without a sign or a leading zero does.
fn begins_plain(text: &[u8]) -> bool
    ensures sign { IsTrue result → slice_index text.now 0 ≢ 43 }
    ensures zero { IsTrue result → slice_index text.now 0 ≡ 48 → length text.now ≡ 1 }
    ensures other { IsTrue result ⊎ (slice_index text.now 0 ≡ 43) ⊎
        ((slice_index text.now 0 ≡ 48) × (1 < length text.now)) }
{
    match text {
        [b'+', ..] => false,
        [b'0', _, ..] => false,
        _ => true,
    }
}

/// A number with one more decimal digit, where that is one and the number stays below 2^64.
fn with_digit(number: u64, byte: u8) -> Option<u64>
    ensures { SomeIff result ((digit_value byte < 10) × (number * 10 + digit_value byte < 2 ^ 64))
        (number * 10 + digit_value byte) }
{
    let digit = char::from(byte).to_digit(10)?;
    number.checked_mul(10)?.checked_add(u64::from(digit))
}

/// The number below 2^64 that decimal digits write.
fn parse_digits(text: &[u8]) -> Option<u64>
    ensures { SomeIff result (IsNumeral 10 text.now × (digits_value 10 text.now < 2 ^ 64))
        (digits_value 10 text.now) }
{
    if text.is_empty() {
        return None;
    }
    let mut number = 0;
    for byte in text {
        number = with_digit(number, *byte)?;
    }
    Some(number)
}

/// The number below 2^64 that a text spells in decimal digits without a leading zero.
#[tactic(auto, using(crate::proofs::TextLemmas::reading))]
fn read_digits(text: &[u8]) -> Option<u64>
    ensures read { IfSome result (λ n. text.now ≡ text_of_number n) }
    ensures none { IfNone result ((n : ℕ) → n < 2 ^ 64 → text.now ≢ text_of_number n) }
{
    if !begins_plain(text) {
        return None;
    }
    parse_digits(text)
}

/// The number from 0 to 4,294,967,295 that a text spells.
#[tactic(auto, using(std::proofs::lemmas::Fmt::decimal_injective))]
pub fn read_number(text: &[u8]) -> Option<u32>
    ensures read { IfSome result (λ n. text.now ≡ text_of_number n) }
    ensures none { IfNone result ((n : ℕ) → n < 2 ^ 32 → text.now ≢ text_of_number n) }
{
    u32::try_from(read_digits(text)?).ok()
}

/// The number that two bytes spell in two digits.
fn read_pair(tens: u8, ones: u8) -> Option<u32>
    ensures read { IfSome result (λ n. (n < 100) × (tens ∷ ones ∷ [] ≡ two_digits n)) }
    ensures none { IfNone result ((n : ℕ) → n < 100 → tens ∷ ones ∷ [] ≢ two_digits n) }
{
    match (tens, ones) {
        (b'0'..=b'9', b'0'..=b'9') => { Some(10 * u32::from(tens - b'0') + u32::from(ones - b'0')) }
        _ => None,
    }
}

/// What stands before a mark and two digits at a text's end, and the number that they spell.
fn split_pair(text: &[u8], mark: u8) -> Option<(&[u8], u32)>
    ensures read { IfSome result (λ p. (p.1 < 100) × (text.now ≡ p.0.now ++ (mark ∷ two_digits p.1))) }
    ensures none { IfNone result ((whole : List ℕ) (n : ℕ) → n < 100 →
        text.now ≢ whole ++ (mark ∷ two_digits n)) }
{
    let (whole, [byte, tens, ones]) = text.split_last_chunk::<3>()?;
    if *byte != mark {
        return None;
    }
    let number = read_pair(*tens, *ones)?;
    Some((whole, number))
}

/// The cents that a text spells with two decimals, of fewer whole units than a limit.
#[tactic(auto, using(crate::proofs::TextLemmas::cents_joined))]
pub fn read_cents(text: &[u8], limit: u64) -> Option<u128>
    ensures read { IfSome result (λ n. (n < 100 * limit) × (text.now ≡ text_of_cents n)) }
    ensures none { IfNone result ((n : ℕ) → n < 100 * limit → text.now ≢ text_of_cents n) }
{
    let (whole, cents) = split_pair(text, b'.')?;
    let units = read_digits(whole)?;
    if units >= limit {
        return None;
    }
    Some(100 * u128::from(units) + u128::from(cents))
}

/// The amount that a text spells: 1 to 11 digits, a point and two digits, as `1199.10`.
pub fn read_amount(text: &[u8]) -> Option<Cents>
    ensures read { IfSome result (λ z. text.now ≡ text_of_amount z) }
    ensures range { IfSome result IsReadAmount }
    ensures none { IfNone result ((z : ℤ) → IsReadAmount z → text.now ≢ text_of_amount z) }
{
    let cents = read_cents(text, 100_000_000_000)?;
    Some(cents as Cents)
}

/// The number that a text spells in four digits.
fn read_year(text: &[u8]) -> Option<u32>
    ensures read { IfSome result (λ n. (n < 10_000) × (text.now ≡ four_digits n)) }
    ensures none { IfNone result ((n : ℕ) → n < 10_000 → text.now ≢ four_digits n) }
{
    let [a, b, c, d] = *text else {
        return None;
    };
    let century = read_pair(a, b)?;
    let year = read_pair(c, d)?;
    Some(100 * century + year)
}

/// The month of a year of four digits that a text spells, as a count of months.
pub fn read_civil_month(text: &[u8]) -> Option<u32>
    ensures read { IfSome result (λ m. IsCivilMonth m × (text.now ≡ text_of_month m)) }
    ensures none { IfNone result ((m : ℕ) → IsCivilMonth m → text.now ≢ text_of_month m) }
{
    let (year, month) = split_pair(text, b'-')?;
    let year = read_year(year)?;
    if month < 1 || month > 12 {
        return None;
    }
    Some(12 * year + (month - 1))
}

/// The day of a year of four digits that a text spells, as a number.
fn read_civil_day(text: &[u8]) -> Option<u32>
    ensures read { IfSome result (λ d. IsCivilDay d × (text.now ≡ text_of_day d)) }
    ensures none { IfNone result ((d : ℕ) → IsCivilDay d → text.now ≢ text_of_day d) }
{
    let (month, day) = split_pair(text, b'-')?;
    let month = read_civil_month(month)?;
    if !is_date(month, day) {
        return None;
    }
    Some(31 * month + (day - 1))
}

/// Whether a month of a year of four digits has a day of that number.
#[tactic(auto, using(std::proofs::lemmas::Int::ints), unfolding(crate::specs::Calendar::month_length))]
fn is_date(month: u32, day: u32) -> bool
    requires month { IsCivilMonth month }
    requires day { day < 100 }
    ensures { IsTrue result ↔ ((1 ≤ day) × (day ≤ month_length month)) }
{
    Date::new((month / 12) as i16, (month % 12 + 1) as i8, day as i8).is_ok()
}

/// Whether requests may name days of a year.
fn is_read_year(year: u32) -> bool
    ensures inside { IsTrue result → (1990 ≤ year) × (year ≤ 2099) }
    ensures outside { IsTrue result ⊎ IsOtherYear year }
{
    year >= 1990 && year <= 2099
}

/// The month that a text spells as `2024-02`, of a year from 1990 to 2099.
pub fn read_month(text: &[u8]) -> Result<Month, DayFault>
    ensures read { IfOk result (λ m. text.now ≡ text_of_month m) }
    ensures range { IfOk result IsReadMonth }
    ensures none { OnErr result ((m : ℕ) → IsReadMonth m → text.now ≢ text_of_month m) }
    ensures fault { IfErr result (IsMonthFault text.now) }
{
    let Some(month) = read_civil_month(text) else {
        return Err(DayFault::NotADate);
    };
    if !is_read_year(month / 12) {
        return Err(DayFault::YearOutside);
    }
    Ok(Month::new(month / 12, month % 12 + 1))
}

/// The day that a text spells as `2024-02-01`, of a year from 1990 to 2099.
#[inline(always)]
pub fn read_day(text: &[u8]) -> Result<Day, DayFault>
    ensures read { IfOk result (λ d. text.now ≡ text_of_day d) }
    ensures range { IfOk result IsReadDay }
    ensures none { OnErr result ((d : ℕ) → IsReadDay d → text.now ≢ text_of_day d) }
    ensures fault { IfErr result (IsDayFault text.now) }
{
    let Some(day) = read_civil_day(text) else {
        return Err(DayFault::NotADate);
    };
    let (year, month, place) = (day / 31 / 12, day / 31 % 12 + 1, day % 31 + 1);
    if !is_read_year(year) {
        return Err(DayFault::YearOutside);
    }
    Ok(Day::new(Month::new(year, month), place))
}
