//! The texts of refusals.

ghost use Rattle.std.specs.Prelude.{◌≡◌, ◌++◌, ◌∷◌, IfOk, OnErr, OnOk};
ghost use Rattle.svc_base.specs.Text.{text_of_number, text_of_amount};
ghost use Rattle.serv_line.specs.Pushed.{Keeps};
ghost use Rattle.serv_line.specs.Refusals.{code_of, name_of_refusal, text_of_cause, text_of_closed, text_of_limit, text_of_line_why, text_of_named, text_of_plan_fault, text_of_plan_part, text_of_refusal, text_of_term_fault};

use crate::pushing::{push_amount, push_bytes, push_number, undone};
use std::alloc::Global;
use svc_base::{Cents, Month, OutOfMemory, write_day, write_month};
use svc_types::{Limit, LineWhy, PlanFault, PlanPart, Refusal, TermFault};

/// The reply to a request that is refused: `no`, the code and the name, and the value where there is
/// one. Errs only where memory is short.
pub fn write_refusal(alloc: Global, refusal: &Refusal) -> Result<Vec<u8>, OutOfMemory>
    ensures { IfOk result (λ text. text.items ≡ text_of_refusal refusal.now) }
{
    let mut out = Vec::new(alloc);
    append_refusal(&mut out, refusal)?;
    Ok(out)
}

/// Appends the reply to a request that is refused. Where memory is short `out` is as it was.
pub fn push_refusal(out: &mut Vec<u8>, refusal: &Refusal) -> Result<(), OutOfMemory>
    ensures pushed { OnOk result (out.new.items ≡ out.old.items ++ text_of_refusal refusal.now) }
    ensures kept { OnErr result (out.new.items ≡ out.old.items) }
{
    let start = out.len();
    let pushed = append_refusal(out, refusal);
    undone(out, start, pushed)
}

/// Appends the reply to a request that is refused.
#[tactic(auto, using(crate::proofs::KeepLemmas::keeps), unfolding(crate::specs::Refusals::text_of_refusal))]
fn append_refusal(out: &mut Vec<u8>, refusal: &Refusal) -> Result<(), OutOfMemory>
    ensures pushed { OnOk result (out.new.items ≡ out.old.items ++ text_of_refusal refusal.now) }
    ensures kept { OnErr result (Keeps out.old.items out.new.items) }
{
    push_named(out, refusal)?;
    push_cause(out, refusal)?;
    push_bytes(out, b"\n")
}

/// Appends the code and the name of a refusal.
#[tactic(auto, using(crate::proofs::KeepLemmas::keeps))]
fn push_named(out: &mut Vec<u8>, refusal: &Refusal) -> Result<(), OutOfMemory>
    ensures pushed { OnOk result (out.new.items ≡ out.old.items ++ text_of_named refusal.now) }
    ensures kept { OnErr result (Keeps out.old.items out.new.items) }
{
    push_bytes(out, b"no ")?;
    push_number(out, refusal_code(refusal))?;
    push_bytes(out, b" ")?;
    push_bytes(out, name(refusal))
}

/// The code of a refusal, which its line and its JSON body begin with: 1 to 25, 27 and 28.
pub fn refusal_code(refusal: &Refusal) -> u32
    ensures code { result ≡ code_of refusal.now }
{
    match refusal {
        Refusal::KeyReused(_) => 1,
        Refusal::Full(_) => 2,
        Refusal::DayNotLater(_) => 3,
        Refusal::LoanExists => 4,
        Refusal::NoSuchLoan => 5,
        Refusal::BadTerms(_) => 6,
        Refusal::BoardedLate(_) => 7,
        Refusal::BadAmount => 8,
        Refusal::FutureDated(_) => 9,
        Refusal::BeforeBoarding(_) => 10,
        Refusal::OverPrincipal(_) => 11,
        Refusal::PayoffShort(_) => 12,
        Refusal::NoSuchEntry => 13,
        Refusal::AlreadyReversed(_) => 14,
        Refusal::NotReversible => 15,
        Refusal::NoSuchLine => 16,
        Refusal::BadLine(_) => 17,
        Refusal::BadPlan(_) => 18,
        Refusal::OverRefund(_) => 19,
        Refusal::OverWaiver(_) => 20,
        Refusal::WrongPeriod(_) => 21,
        Refusal::NotEnded(_) => 22,
        Refusal::NotClosed(_) => 23,
        Refusal::WrongRemit(_) => 24,
        Refusal::AdjustmentsFull(_) => 25,
        Refusal::ClosedMonth(_) => 27,
        Refusal::NoSuchCommand => 28,
    }
}

/// The name of a refusal.
fn name(refusal: &Refusal) -> &'static [u8]
    ensures { result.now ≡ name_of_refusal refusal.now }
{
    match refusal {
        Refusal::KeyReused(_) => b"KeyReused",
        Refusal::Full(_) => b"Full",
        Refusal::DayNotLater(_) => b"DayNotLater",
        Refusal::LoanExists => b"LoanExists",
        Refusal::NoSuchLoan => b"NoSuchLoan",
        Refusal::BadTerms(_) => b"BadTerms",
        Refusal::BoardedLate(_) => b"BoardedLate",
        Refusal::BadAmount => b"BadAmount",
        Refusal::FutureDated(_) => b"FutureDated",
        Refusal::BeforeBoarding(_) => b"BeforeBoarding",
        Refusal::OverPrincipal(_) => b"OverPrincipal",
        Refusal::PayoffShort(_) => b"PayoffShort",
        Refusal::NoSuchEntry => b"NoSuchEntry",
        Refusal::AlreadyReversed(_) => b"AlreadyReversed",
        Refusal::NotReversible => b"NotReversible",
        Refusal::NoSuchLine => b"NoSuchLine",
        Refusal::BadLine(_) => b"BadLine",
        Refusal::BadPlan(_) => b"BadPlan",
        Refusal::OverRefund(_) => b"OverRefund",
        Refusal::OverWaiver(_) => b"OverWaiver",
        Refusal::WrongPeriod(_) => b"WrongPeriod",
        Refusal::NotEnded(_) => b"NotEnded",
        Refusal::NotClosed(_) => b"NotClosed",
        Refusal::WrongRemit(_) => b"WrongRemit",
        Refusal::AdjustmentsFull(_) => b"AdjustmentsFull",
        Refusal::ClosedMonth(_) => b"ClosedMonth",
        Refusal::NoSuchCommand => b"NoSuchCommand",
    }
}

/// What stands after the name.
#[tactic(auto, using(crate::proofs::KeepLemmas::keeps))]
fn push_cause(out: &mut Vec<u8>, refusal: &Refusal) -> Result<(), OutOfMemory>
    ensures pushed { OnOk result (out.new.items ≡ out.old.items ++ text_of_cause refusal.now) }
    ensures kept { OnErr result (Keeps out.old.items out.new.items) }
{
    match refusal {
        Refusal::KeyReused(number)
        | Refusal::AlreadyReversed(number)
        | Refusal::AdjustmentsFull(number) => push_spaced_number(out, *number),
        Refusal::Full(limit) => push_spaced(out, limit_text(*limit)),
        Refusal::DayNotLater(day)
        | Refusal::FutureDated(day)
        | Refusal::BeforeBoarding(day)
        | Refusal::NotEnded(day) => push_spaced(out, &write_day(*day)),
        Refusal::LoanExists
        | Refusal::NoSuchLoan
        | Refusal::BadAmount
        | Refusal::NoSuchEntry
        | Refusal::NotReversible
        | Refusal::NoSuchLine
        | Refusal::NoSuchCommand => Ok(()),
        Refusal::BadTerms(fault) => push_spaced(out, term_fault_text(*fault)),
        Refusal::BoardedLate(month)
        | Refusal::WrongPeriod(month)
        | Refusal::WrongRemit(month)
        | Refusal::ClosedMonth(month) => push_spaced(out, &write_month(*month)),
        Refusal::OverPrincipal(amount)
        | Refusal::PayoffShort(amount)
        | Refusal::OverRefund(amount)
        | Refusal::OverWaiver(amount) => push_spaced_amount(out, *amount),
        Refusal::BadLine(why) => push_spaced(out, line_why_text(*why)),
        Refusal::BadPlan(fault) => push_plan_fault(out, fault),
        Refusal::NotClosed(closed) => push_closed(out, closed),
    }
}

/// Appends a space and a text.
#[tactic(auto, using(crate::proofs::KeepLemmas::keeps))]
fn push_spaced(out: &mut Vec<u8>, text: &[u8]) -> Result<(), OutOfMemory>
    ensures pushed { OnOk result (out.new.items ≡ out.old.items ++ (32 ∷ text.now)) }
    ensures kept { OnErr result (Keeps out.old.items out.new.items) }
{
    push_bytes(out, b" ")?;
    push_bytes(out, text)
}

/// Appends a space and a number.
#[tactic(auto, using(crate::proofs::KeepLemmas::keeps))]
fn push_spaced_number(out: &mut Vec<u8>, number: u32) -> Result<(), OutOfMemory>
    ensures pushed { OnOk result (out.new.items ≡ out.old.items ++ (32 ∷ text_of_number number)) }
    ensures kept { OnErr result (Keeps out.old.items out.new.items) }
{
    push_bytes(out, b" ")?;
    push_number(out, number)
}

/// Appends a space and an amount.
#[tactic(auto, using(crate::proofs::KeepLemmas::keeps))]
fn push_spaced_amount(out: &mut Vec<u8>, amount: Cents) -> Result<(), OutOfMemory>
    ensures pushed { OnOk result (out.new.items ≡ out.old.items ++ (32 ∷ text_of_amount amount)) }
    ensures kept { OnErr result (Keeps out.old.items out.new.items) }
{
    push_bytes(out, b" ")?;
    push_amount(out, amount)
}

/// Appends a space and the last closed month, where there is one.
#[tactic(auto, using(crate::proofs::KeepLemmas::keeps))]
fn push_closed(out: &mut Vec<u8>, closed: &Option<Month>) -> Result<(), OutOfMemory>
    ensures pushed { OnOk result (out.new.items ≡ out.old.items ++ (32 ∷ text_of_closed closed.now)) }
    ensures kept { OnErr result (Keeps out.old.items out.new.items) }
{
    match closed {
        None => push_spaced(out, b"-"),
        Some(month) => push_spaced(out, &write_month(*month)),
    }
}

/// What there is no more room for.
fn limit_text(limit: Limit) -> &'static [u8]
    ensures { result.now ≡ text_of_limit limit }
{
    match limit {
        Limit::Commands => b"Commands",
        Limit::Loans => b"Loans",
        Limit::Entries => b"Entries",
        Limit::Lines => b"Lines",
        Limit::Months => b"Months",
        Limit::Types => b"Types",
    }
}

/// The range that terms miss, with its code.
fn term_fault_text(fault: TermFault) -> &'static [u8]
    ensures { result.now ≡ text_of_term_fault fault }
{
    match fault {
        TermFault::Principal => b"1 Principal",
        TermFault::RateRange => b"2 RateRange",
        TermFault::FeeRange => b"3 FeeRange",
        TermFault::Payment => b"4 Payment",
        TermFault::Term => b"5 Term",
        TermFault::FirstDue => b"6 FirstDue",
        TermFault::Grace => b"7 Grace",
        TermFault::Late => b"8 Late",
        TermFault::Cushion => b"9 Cushion",
        TermFault::EscrowPay => b"10 EscrowPay",
    }
}

/// What is wrong with an escrow line, with its code.
fn line_why_text(why: LineWhy) -> &'static [u8]
    ensures { result.now ≡ text_of_line_why why }
{
    match why {
        LineWhy::Amount => b"1 Amount",
        LineWhy::MonthRange => b"2 MonthRange",
        LineWhy::Every => b"3 Every",
    }
}

/// A part of an analysis.
fn plan_part_text(part: PlanPart) -> &'static [u8]
    ensures { result.now ≡ text_of_plan_part part }
{
    match part {
        PlanPart::Surplus => b"Surplus",
        PlanPart::Short => b"Short",
        PlanPart::Deficient => b"Deficient",
    }
}

/// Appends a space, and what is wrong with a plan, with its code.
#[tactic(auto, using(crate::proofs::KeepLemmas::keeps))]
fn push_plan_fault(out: &mut Vec<u8>, fault: &PlanFault) -> Result<(), OutOfMemory>
    ensures pushed { OnOk result (out.new.items ≡ out.old.items ++ (32 ∷ text_of_plan_fault fault.now)) }
    ensures kept { OnErr result (Keeps out.old.items out.new.items) }
{
    match fault {
        PlanFault::MustRefund => push_bytes(out, b" 1 MustRefund"),
        PlanFault::MustSpread(PlanPart::Surplus) => push_bytes(out, b" 2 MustSpread Surplus"),
        PlanFault::MustSpread(PlanPart::Short) => push_bytes(out, b" 2 MustSpread Short"),
        PlanFault::MustSpread(PlanPart::Deficient) => push_bytes(out, b" 3 MustSpread Deficient"),
        PlanFault::TooFewMonths(months) => push_months(out, b" 4 TooFewMonths ", *months),
        PlanFault::TooManyMonths(months) => push_months(out, b" 5 TooManyMonths ", *months),
        PlanFault::NothingToPlan(part) => push_part(out, b" 6 NothingToPlan ", *part),
    }
}

/// Appends a name and a number of months.
#[tactic(auto, using(crate::proofs::KeepLemmas::keeps))]
fn push_months(out: &mut Vec<u8>, name: &[u8], months: u32) -> Result<(), OutOfMemory>
    ensures pushed { OnOk result (out.new.items ≡ out.old.items ++ (name.now ++ text_of_number months)) }
    ensures kept { OnErr result (Keeps out.old.items out.new.items) }
{
    push_bytes(out, name)?;
    push_number(out, months)
}

/// Appends a name and a part of an analysis.
#[tactic(auto, using(crate::proofs::KeepLemmas::keeps))]
fn push_part(out: &mut Vec<u8>, name: &[u8], part: PlanPart) -> Result<(), OutOfMemory>
    ensures pushed { OnOk result (out.new.items ≡ out.old.items ++ (name.now ++ text_of_plan_part part)) }
    ensures kept { OnErr result (Keeps out.old.items out.new.items) }
{
    push_bytes(out, name)?;
    push_bytes(out, plan_part_text(part))
}
