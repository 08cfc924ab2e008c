//! The analysis of a computation year.

ghost use Rattle.std.specs.Prelude.{◌≡◌, ℕ, ◌*◌, ◌/◌, ◌≤◌, ℤ, pos, ◌+ℤ◌, ◌-ℤ◌, ◌≤ℤ◌, neg_ℤ, unsigned_abs, List, map, All};
ghost use Rattle.svc_base.specs.EscrowMonths.{IsMonthPaid};
ghost use Rattle.escrow_analysis.specs.AggregateAnalysis.{IsBalance, IsLeastOpening, months, total, balance_after};
ghost use Rattle.escrow_analysis.specs.AggregateAnalysis as rule;
ghost use Rattle.escrow_analysis.specs.WorkedYears.{three_bills, one_bill};

use svc_base::Cents;

/// What a computation year asks of an escrow account, in cents.
#[derive(Clone, Copy, Debug, PartialEq, Eq)]
pub struct Analysis {
    /// The monthly escrow payment.
    pub base: Cents,
    /// What the account keeps at its lowest.
    pub cushion: Cents,
    /// The balance that the account needs before the first month.
    pub opening: Cents,
    /// The balance at the end of each month, where the account opens with nothing.
    pub trial: [Cents; 12],
    /// The balance at the end of each month, where it opens with `opening`.
    pub target: [Cents; 12],
}

/// Analyses the 12 months that pay out these cents, with a cushion of so many months
/// (12 CFR 1024.17(d)(2)(i)).
pub fn analyse(year: &[Cents; 12], cushion_months: u32) -> Analysis
    requires months { All IsMonthPaid year.now }
    requires cushion_months { cushion_months ≤ 2 }

    ensures base { result.base ≡ rule.base year.now }
    ensures cushion { result.cushion ≡ rule.cushion year.now cushion_months }
    ensures trial { result.trial ≡ map (rule.trial year.now) months }

    ensures opening { IsLeastOpening year.now cushion_months result.opening }
    ensures target { result.target ≡ map (rule.target year.now result.opening) months }

    ensures above_cushion { result.cushion ≤ℤ result.opening }
    ensures opening_high { result.opening ≤ℤ pos 2_240_000_000_000 }
    ensures base_high { result.base ≤ℤ pos 160_000_000_000 }

    // 1024.17(c)(1)(ii): a cushion is at most one sixth of the year's total.
    ensures sixth { result.cushion ≤ℤ pos (unsigned_abs (total year.now) / 6) }
{
    let total = total_of(year);
    let base = total / 12;
    let cushion = u64::from(cushion_months) * total / 12;
    let trial = balances(year, 0, base);
    let opening = least_opening(&trial, cushion);
    Analysis {
        base: base as Cents,
        cushion: cushion as Cents,
        opening: opening as Cents,
        trial,
        target: balances(year, opening, base),
    }
}

/// Two years worked out by hand, by the definitions alone. It does nothing.
pub fn worked_years()
    ensures base { rule.base three_bills ≡ pos 13000 }
    ensures cushion { rule.cushion three_bills 2 ≡ pos 26000 }
    ensures trial_first { rule.trial three_bills 1 ≡ neg_ℤ (pos 37000) }
    ensures trial_lowest { rule.trial three_bills 6 ≡ neg_ℤ (pos 78000) }
    ensures target_lowest { rule.target three_bills (pos 104000) 6 ≡ pos 26000 }
    ensures target_last { rule.target three_bills (pos 104000) 12 ≡ pos 104000 }

    ensures base_rounds_down { rule.base one_bill ≡ pos 833 }
    ensures cushion_rounds_down { rule.cushion one_bill 2 ≡ pos 1667 }
    ensures target_of_one_bill { rule.target one_bill (pos 10837) 12 ≡ pos 10830 }
{}

/// What the months pay out together.
fn total_of(year: &[Cents; 12]) -> u64
    requires { All IsMonthPaid year.now }
    ensures value { total year.now ≡ pos result }
    ensures high { result ≤ 1_920_000_000_000 }
{
    let mut total = 0;
    for paid in year {
        total += *paid as u64;
    }
    total
}

/// The balance at the end of each month, where the account opens with that much and takes in a
/// payment each month.
fn balances(year: &[Cents; 12], opening: u64, payment: u64) -> [Cents; 12]
    requires months { All IsMonthPaid year.now }
    requires opening { opening ≤ 4_000_000_000_000 }
    requires payment { payment ≤ 160_000_000_000 }
    ensures value { result ≡ map (balance_after year.now (pos opening) payment) months }
    ensures bounds { All IsBalance result }
{
    let mut balances = [0; 12];
    let mut balance = opening as Cents;
    for (k, paid) in year.iter().enumerate() {
        balance += payment as Cents - paid;
        balances[k] = balance;
    }
    balances
}

/// The least opening at or above the cushion that keeps each balance there.
fn least_opening(trial: &[Cents; 12], cushion: u64) -> u64
    requires cushion { cushion ≤ 320_000_000_000 }
    requires trial { All IsBalance trial.now }
    ensures above_cushion { cushion ≤ result }
    ensures high { result ≤ 2_240_000_000_000 }
    ensures keeps { All (λ balance. pos cushion ≤ℤ (pos result +ℤ balance)) trial.now }
    ensures least { (other : ℤ) → pos cushion ≤ℤ other →
        All (λ balance. pos cushion ≤ℤ (other +ℤ balance)) trial.now → pos result ≤ℤ other }
{
    let mut opening = cushion;
    for balance in trial {
        if opening as Cents + balance < cushion as Cents {
            opening = (cushion as Cents - balance) as u64;
        }
    }
    opening
}
