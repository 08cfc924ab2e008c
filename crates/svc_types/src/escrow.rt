//! Escrow plans, and the choices that settle an analysis.

use svc_base::{Cents, Month};

/// The kind of an annual bill that is paid from escrow.
#[derive(Clone, Copy, Debug, PartialEq, Eq)]
pub enum LineKind {
    Tax,
    Hazard,
    Flood,
    Other,
}

/// What a borrower pays into escrow with each installment, in cents.
#[derive(Clone, Copy, Debug, PartialEq, Eq)]
pub struct EscrowPlan {
    /// The first month of the plan.
    pub start: Month,
    /// For how many months a payment has more for a shortage, and for a deficiency.
    pub short_months: u32,
    pub deficient_months: u32,
    /// The monthly part of the annual bills.
    pub base: Cents,
    /// What a surplus takes off the first twelve payments.
    pub credit: Cents,
    /// What a shortage adds to a payment.
    pub short: Cents,
    /// What a deficiency adds to a payment.
    pub deficient: Cents,
}

/// What an analysis settled: the new plan, what is paid out at once, and what is asked within 30
/// days, in cents.
#[derive(Clone, Copy, Debug, PartialEq, Eq)]
pub struct Settled {
    pub plan: EscrowPlan,
    pub refund: Cents,
    pub within30: Cents,
}

/// What is done with a surplus.
#[derive(Clone, Copy, Debug, PartialEq, Eq)]
pub enum SurplusPlan {
    Unsaid,
    Refund,
    Credit,
    Retain,
}

/// What is done with a shortage or a deficiency.
#[derive(Clone, Copy, Debug, PartialEq, Eq)]
pub enum PartPlan {
    Unsaid,
    Leave,
    Within30,
    /// Asked over that many months.
    Spread(u32),
}

/// One choice for each part of an analysis.
#[derive(Clone, Copy, Debug, PartialEq, Eq)]
pub struct Plan {
    pub surplus: SurplusPlan,
    pub short: PartPlan,
    pub deficient: PartPlan,
}

/// A part of an analysis.
#[derive(Clone, Copy, Debug, PartialEq, Eq)]
pub enum PlanPart {
    Surplus,
    Short,
    Deficient,
}

/// The numbers of an analysis, in cents.
#[derive(Clone, Copy, Debug, PartialEq, Eq)]
pub struct Figures {
    /// The first month of the year that is analysed.
    pub from: Month,
    pub base: Cents,
    pub cushion: Cents,
    pub opening: Cents,
    pub balance: Cents,
    pub surplus: Cents,
    pub short: Cents,
    pub deficient: Cents,
    pub refund: Cents,
    pub within30: Cents,
    /// The escrow part of an installment due in the plan's first month.
    pub pay: Cents,
}
