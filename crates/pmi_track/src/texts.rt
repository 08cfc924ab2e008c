//! The lines that are written of insured loans.

ghost use Rattle.std.specs.Prelude.{◌≡◌, ◌++◌, ◌∷◌, [], OnErr, OnOk};
ghost use Rattle.std.specs.Option.{option_map_or};
ghost use Rattle.serv_line.specs.Pushed.{Keeps};
ghost use Rattle.pmi_track.specs.Texts as texts;

use crate::pmi_outcome::{Cause, Denial, PmiOutcome};
use serv_line::{push_amount_field, push_bytes, push_number, push_number_field};
use svc_base::{OutOfMemory, write_day};

/// Appends the line of a loan: what has become of its insurance.
#[tactic(auto, using(serv_line::proofs::KeepLemmas::keeps), unfolding(crate::specs::Texts::text_of_outcome))]
pub(crate) fn push_outcome(
    out: &mut Vec<u8>,
    loan: u32,
    outcome: &PmiOutcome,
) -> Result<(), OutOfMemory>
    ensures pushed { OnOk result (out.new.items ≡ out.old.items ++ texts.text_of_outcome loan outcome.now) }
    ensures kept { OnErr result (Keeps out.old.items out.new.items) }
{
    push_bytes(out, b"pmi ")?;
    push_number(out, loan)?;
    push_ending(out, outcome)?;
    push_bytes(out, b"\n")
}

/// Appends what has become of an insurance.
#[tactic(auto, using(serv_line::proofs::KeepLemmas::keeps), unfolding(crate::specs::Texts::text_of_ending))]
fn push_ending(out: &mut Vec<u8>, outcome: &PmiOutcome) -> Result<(), OutOfMemory>
    ensures pushed { OnOk result (out.new.items ≡ out.old.items ++ texts.text_of_ending outcome.now) }
    ensures kept { OnErr result (Keeps out.old.items out.new.items) }
{
    match outcome {
        PmiOutcome::Ends(day, cause) => {
            push_bytes(out, b" ends ")?;
            push_bytes(out, &write_day(*day))?;
            push_bytes(out, b" ")?;
            push_bytes(out, cause_text(*cause))
        }
        PmiOutcome::Runs(denial) => {
            push_bytes(out, b" runs")?;
            push_denial(out, denial)
        }
    }
}

/// The name of a cause.
fn cause_text(cause: Cause) -> &'static [u8]
    ensures { result.now ≡ texts.text_of_cause cause }
{
    match cause {
        Cause::PaidOff => b"PaidOff",
        Cause::Automatic => b"Automatic",
        Cause::Asked => b"Asked",
    }
}

/// Appends why a request was denied, where one was.
#[tactic(auto, using(serv_line::proofs::KeepLemmas::keeps), unfolding(crate::specs::Texts::text_of_denial))]
fn push_denial(out: &mut Vec<u8>, denial: &Option<Denial>) -> Result<(), OutOfMemory>
    ensures pushed { OnOk result (out.new.items
        ≡ out.old.items ++ option_map_or texts.text_of_denial denial.now []) }
    ensures kept { OnErr result (Keeps out.old.items out.new.items) }
{
    match denial {
        None => Ok(()),
        Some(Denial::NotCurrent(day)) => {
            push_bytes(out, b" denied 1 NotCurrent ")?;
            push_bytes(out, &write_day(*day))
        }
        Some(Denial::Above(balance)) => push_amount_field(out, b"denied 2 Above", *balance),
    }
}

/// Appends the line of the command that drops an escrow line of a loan.
#[tactic(auto, using(serv_line::proofs::KeepLemmas::keeps, crate::proofs::TextLemmas::drop_joined), unfolding(crate::specs::Texts::text_of_drop))]
pub(crate) fn push_drop(out: &mut Vec<u8>, loan: u32, line: u32) -> Result<(), OutOfMemory>
    ensures pushed { OnOk result (out.new.items ≡ out.old.items ++ texts.text_of_drop loan line) }
    ensures kept { OnErr result (Keeps out.old.items out.new.items) }
{
    push_drop_key(out, loan, line)?;
    push_drop_words(out, loan, line)?;
    push_bytes(out, b"\n")
}

/// Appends the key of such a command.
#[tactic(auto, using(serv_line::proofs::KeepLemmas::keeps))]
fn push_drop_key(out: &mut Vec<u8>, loan: u32, line: u32) -> Result<(), OutOfMemory>
    ensures pushed { OnOk result (out.new.items ≡ out.old.items ++ texts.drop_key loan line) }
    ensures kept { OnErr result (Keeps out.old.items out.new.items) }
{
    push_bytes(out, b"pmi-")?;
    push_number(out, loan)?;
    push_bytes(out, b"-")?;
    push_number(out, line)
}

/// Appends what stands behind the key of such a command.
#[tactic(auto, using(serv_line::proofs::KeepLemmas::keeps))]
fn push_drop_words(out: &mut Vec<u8>, loan: u32, line: u32) -> Result<(), OutOfMemory>
    ensures pushed { OnOk result (out.new.items ≡ out.old.items ++ texts.drop_words loan line) }
    ensures kept { OnErr result (Keeps out.old.items out.new.items) }
{
    push_number_field(out, b"drop", loan)?;
    push_bytes(out, b" ")?;
    push_number(out, line)
}
