//! Books under test: a script is played to them, and their replies are compared with those that it has.

ghost use Rattle.std.specs.Prelude.{◌≡◌, ◌<◌};
ghost use Rattle.svc_types.specs.Requests.{IsQuery};

use crate::filling::{Marks, filled};
use serv_line::{LineFault, push_bytes, read_line, write_bad, write_refusal, write_reply};
use serv_report::write_answer;
use std::alloc::Global;
use std::marker::Brand;
use std::process::Abort;
use std::sync::ledger::{Blank, Ledger};
use std::test::Fail;
use svc_base::{OutOfMemory, Steps};
use svc_checkpoint::Checked;
use svc_core::{Core, CoreFault};
use svc_replay::{LoanBooks, Plain};
use svc_types::{Query, Reply, Request};

/// A part of a script: requests, each in a line that `> ` begins, and after each the reply that it must have. Of a
/// reply that ends with `..` only what stands before that is compared.
#[derive(Clone, Copy)]
pub(crate) enum Part {
    /// It is played as it stands.
    Once(&'static str),
    /// It is played again and again, with its marks filled in.
    Each(Turns),
}

/// How a part is played again and again.
#[derive(Clone, Copy)]
pub(crate) struct Turns {
    pub(crate) turns: u32,
    /// The number of its first command.
    pub(crate) number: u32,
    /// How many commands a turn has.
    pub(crate) commands: u32,
    /// The loans take turns, from that one on, so many of them.
    pub(crate) loan: u32,
    pub(crate) loans: u32,
    /// The first month, by how many it is after 2023-12, and how many turns a month has.
    pub(crate) month: u32,
    pub(crate) per_month: u32,
    pub(crate) text: &'static str,
}

/// One command a turn, the loans from 1 on, and a month a turn from 2023-12 on.
pub(crate) const TURNS: Turns = Turns {
    turns: 1,
    number: 1,
    commands: 1,
    loan: 1,
    loans: 1_000_000,
    month: 0,
    per_month: 1,
    text: "",
};

/// The loan whose turn it is.
fn loan_in(part: &Turns, turn: u32) -> u32 {
    part.loan.saturating_add(turn % part.loans.max(1))
}

/// The month of a turn, by how many it is after 2023-12.
fn month_in(part: &Turns, turn: u32) -> u32 {
    part.month.saturating_add(turn / part.per_month.max(1))
}

/// What the marks stand for in a turn, whose first command has a number.
fn marks_in(part: &Turns, turn: u32, number: u32) -> Marks {
    Marks {
        number,
        loan: loan_in(part, turn),
        month: month_in(part, turn),
    }
}

/// The text of what a command is answered.
fn reply_text(alloc: Global, reply: &Result<Reply, CoreFault>) -> Result<Vec<u8>, OutOfMemory> {
    match reply {
        Ok(reply) => write_reply(alloc, reply),
        Err(CoreFault::Refused(why)) => write_refusal(alloc, why),
        Err(CoreFault::OutOfMemory) => Err(OutOfMemory),
    }
}

/// The text of what a query is answered.
#[tactic(auto, using(serv_report::proofs::SpellLemmas::spelled))]
fn asked_text<B: LoanBooks, L: Ledger>(
    alloc: Global,
    core: &Core<B>,
    query: &Query,
    steps: &mut Steps<L>,
) -> Result<Vec<u8>, OutOfMemory>
    requires { IsQuery query.now }
{
    core.history_holds();
    match core.ask(query, steps) {
        Ok(answer) => write_answer(alloc, &answer),
        Err(CoreFault::Refused(why)) => write_refusal(alloc, &why),
        Err(CoreFault::OutOfMemory) => Err(OutOfMemory),
    }
}

/// The reply to a line.
pub(crate) fn reply_to<B: LoanBooks, L: Ledger>(
    alloc: Global,
    core: &mut Core<B>,
    line: &[u8],
    steps: &mut Steps<L>,
) -> Result<Vec<u8>, OutOfMemory> {
    match &read_line(line) {
        Ok(Request::Do(key, command)) => reply_text(alloc, &core.submit(key, command, steps)),
        Ok(Request::Ask(query)) => asked_text(alloc, core, query, steps),
        Err(LineFault(place)) => write_bad(alloc, *place),
    }
}

/// Whether a reply is the one of the script.
fn fits(said: &[u8], wanted: &[u8]) -> bool {
    match wanted.strip_suffix(b"..\n") {
        Some(front) => said.starts_with(front),
        None => said == wanted,
    }
}

/// Sends a line. Where its reply is not the one of the script, the line and the reply are appended.
fn exchange<B: LoanBooks, L: Ledger>(
    alloc: Global,
    core: &mut Core<B>,
    (line, wanted): (&str, &str),
    marks: &Marks,
    steps: &mut Steps<L>,
    differing: &mut Vec<u8>,
) -> Result<(), OutOfMemory> {
    let line = filled(alloc, line, marks)?;
    let wanted = filled(alloc, wanted, marks)?;
    let said = reply_to(alloc, core, &line, steps)?;
    if !fits(&said, &wanted) {
        push_bytes(differing, &line)?;
        push_bytes(differing, b"\n")?;
        push_bytes(differing, &said)?;
    }
    Ok(())
}

/// Sends each line of a text, and compares the replies.
fn play<B: LoanBooks, L: Ledger>(
    alloc: Global,
    core: &mut Core<B>,
    text: &str,
    marks: &Marks,
    steps: &mut Steps<L>,
    differing: &mut Vec<u8>,
) -> Result<(), OutOfMemory> {
    for one in text.split("> ") {
        if let Some((line, wanted)) = one.split_once('\n') {
            if !line.is_empty() {
                exchange(alloc, core, (line, wanted), marks, steps, differing)?;
            }
        }
    }
    Ok(())
}

/// Plays a part of a script.
fn play_part<B: LoanBooks, L: Ledger>(
    alloc: Global,
    core: &mut Core<B>,
    part: &Part,
    steps: &mut Steps<L>,
    differing: &mut Vec<u8>,
) -> Result<(), OutOfMemory> {
    match part {
        Part::Once(text) => {
            let marks = marks_in(&TURNS, 0, 1);
            play(alloc, core, text, &marks, steps, differing)
        }
        Part::Each(part) => {
            let mut number = part.number;
            for turn in 0..part.turns {
                let marks = marks_in(part, turn, number);
                play(alloc, core, part.text, &marks, steps, differing)?;
                number = number.saturating_add(part.commands);
            }
            Ok(())
        }
    }
}

/// Plays a script. Where a reply is not the one of the script, its line and what was said are appended.
pub(crate) fn play_all<B: LoanBooks, L: Ledger>(
    alloc: Global,
    core: &mut Core<B>,
    script: &[Part],
    steps: &mut Steps<L>,
    differing: &mut Vec<u8>,
) -> Result<(), OutOfMemory> {
    for part in script {
        play_part(alloc, core, part, steps, differing)?;
    }
    Ok(())
}

/// The lines of a script that are not answered as it says, each with its reply, over books that begin empty.
fn differing<B: LoanBooks, L: Ledger>(
    alloc: Global,
    blank: Blank,
    script: &[Part],
) -> Result<Vec<u8>, OutOfMemory>
    requires name { blank.name ≡ L.name }
    requires parts { blank.parts ≡ L.parts }
    requires some { 0 < L.parts }
{
    let mut core = Core::<B>::new(alloc)?;
    let mut steps = Steps::<L>::new(blank);
    let mut differing = Vec::new(alloc);
    play_all(alloc, &mut core, script, &mut steps, &mut differing)?;
    Ok(differing)
}

/// No line was answered otherwise.
pub(crate) fn agrees(rt: &impl Abort, differing: &[u8], kept: &str) {
    let lines = str::from_utf8(differing).unwrap_or("a reply that is no text");
    assert_eq!(rt; lines, "", "{kept}");
}

/// Plays a script over books that are kept with checkpoints; refolding would take too long.
pub(crate) fn over_checked(rt: &impl Abort, alloc: Global, script: &[Part]) -> Result<(), Fail> {
    let lines = differing::<Checked, Brand>(alloc, Blank::new(1), script)?;
    agrees(rt, &lines, "kept with checkpoints");
    Ok(())
}

/// Plays a script over books that are refolded.
fn over_plain(rt: &impl Abort, alloc: Global, script: &[Part]) -> Result<(), Fail> {
    let lines = differing::<Plain, Brand>(alloc, Blank::new(1), script)?;
    agrees(rt, &lines, "kept plainly");
    Ok(())
}

/// Plays a script over both ways of keeping books.
pub(crate) fn over_both(rt: &impl Abort, alloc: Global, script: &[Part]) -> Result<(), Fail> {
    over_plain(rt, alloc, script)?;
    over_checked(rt, alloc, script)
}
