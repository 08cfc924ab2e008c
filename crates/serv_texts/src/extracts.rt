//! Texts that are made of a journal's commands, and of the input where they are about it.

ghost use Rattle.std.specs.Prelude.{◌≡◌, ◌≤◌, ◌+◌, ◌^◌, ◌++◌, length, IfOk, OnOk};
ghost use Rattle.svc_world.specs.World.{accepted, world};
ghost use Rattle.svc_core.specs.Posted.{history_of};
ghost use Rattle.serv_line.specs.Replies.{ended, text_of_bad};
ghost use Rattle.serv_engine.specs.Histories.{line_of_command};
ghost use Rattle.serv_words.specs.Asked.{IsAskedExtract};
ghost use Rattle.serv_texts.specs.Extracts.{lines_of_commands, IsConfirmed, IsExtract, extract_bound};

use bank_recon::recon_text;
use pmi_track::{pmi_drops, pmi_text};
use serv_line::{push_bytes, push_line, push_wide};
use serv_words::Extract;
use servicing_transfer::{ConfirmFault, confirm, split, statement};
use std::alloc::Global;
use std::sync::ledger::Ledger;
use svc_base::{OutOfMemory, Steps};
use svc_checkpoint::Checked;
use svc_core::Core;
use svc_types::{Command, Key, Request};

/// The text that is asked for, over the commands of the books and about an input.
pub(crate) fn extract_text<L: Ledger>(
    alloc: Global,
    extract: Extract,
    core: &Core<Checked>,
    input: &[u8],
    steps: &mut Steps<L>,
) -> Result<Vec<u8>, OutOfMemory>
    requires asked { IsAskedExtract extract }
    requires size { length input.now ≤ 2 ^ 26 }
    ensures text { IfOk result (λ text. IsExtract extract core.now.history input.now text.items) }
    ensures steps { steps.new ≤ steps.old + extract_bound extract core.now.history input.now }
{
    match extract {
        Extract::Transfer(from, to) => {
            let halves = split(alloc, core, from, to)?;
            lines_of(alloc, &halves.inside)
        }
        Extract::Remain(from, to) => {
            let halves = split(alloc, core, from, to)?;
            lines_of(alloc, &halves.outside)
        }
        Extract::Statement => statement(alloc, core, steps),
        Extract::Confirm => confirmed(alloc, core, input, steps),
        Extract::Pmi => pmi_text(alloc, core, input, steps),
        Extract::PmiDrops => pmi_drops(alloc, core, input, steps),
        Extract::Reconcile(first, last) => recon_text(alloc, core, first, last, input),
    }
}

/// The lines of commands.
fn lines_of(alloc: Global, commands: &[(Key, Command)]) -> Result<Vec<u8>, OutOfMemory>
    ensures { IfOk result (λ text. text.items ≡ lines_of_commands (history_of commands.now)) }
{
    let mut text = Vec::new(alloc);
    for (key, command) in commands {
        push_command(&mut text, key, command)?;
    }
    Ok(text)
}

/// Appends the line of a command.
fn push_command(text: &mut Vec<u8>, key: &Key, command: &Command) -> Result<(), OutOfMemory>
    ensures { OnOk result (text.new.items ≡ text.old.items
        ++ ended (line_of_command (accepted key.now command.now))) }
{
    push_line(text, &Request::Do(*key, *command))?;
    push_bytes(text, b"\n")
}

/// How a statement differs from the books; of a text that is no statement, the line that does not fit.
fn confirmed<L: Ledger>(
    alloc: Global,
    core: &Core<Checked>,
    input: &[u8],
    steps: &mut Steps<L>,
) -> Result<Vec<u8>, OutOfMemory>
    ensures text { IfOk result (λ text. IsConfirmed (world core.now.history) input.now text.items) }
    ensures steps { steps.new ≤ steps.old }
{
    match confirm(alloc, core, input, steps) {
        Ok(text) => Ok(text),
        Err(ConfirmFault::BadLine(line)) => bad_line(alloc, line),
        Err(ConfirmFault::OutOfMemory) => Err(OutOfMemory),
    }
}

/// The text that names a line that does not fit.
#[tactic(auto, unfolding(serv_line::specs::Replies::text_of_bad))]
fn bad_line(alloc: Global, line: u64) -> Result<Vec<u8>, OutOfMemory>
    ensures { IfOk result (λ text. text.items ≡ text_of_bad line) }
{
    let mut text = Vec::new(alloc);
    push_bytes(&mut text, b"bad ")?;
    push_wide(&mut text, line)?;
    push_bytes(&mut text, b"\n")?;
    Ok(text)
}
