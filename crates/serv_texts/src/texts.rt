//! Texts that are written over a journal.

ghost use Rattle.std.specs.Prelude.{◌≡◌, ◌≢◌, ◌≤◌, ◌+◌, ◌^◌, ◌⊎◌, ℕ, List, Option, length, true, Err, IfOk, IfErr};
ghost use Rattle.std.specs.Io.KnownBytes.{Consumes};
ghost use Rattle.svc_types.specs.Requests.{IsQuery};
ghost use Rattle.svc_types.specs.declared.requests.Request.TheVariants as request;
ghost use Rattle.svc_world.specs.World.{world};
ghost use Rattle.svc_core.specs.Bound.{query_bound};
ghost use Rattle.serv_disk.specs.Faults.{HasRisen};
ghost use Rattle.serv_machine.specs.History.{in_store, Memory};
ghost use Rattle.serv_machine.specs.Verdicts.{reply_to_request};
ghost use Rattle.serv_words.specs.Asked.{IsShowing, IsText};
ghost use Rattle.serv_words.specs.Asked as asked;
ghost use Rattle.serv_texts.specs.Input.{IsUnread};
ghost use Rattle.serv_texts.specs.Journal.{HasFileFaults, IsUnopened};
ghost use Rattle.serv_texts.specs.Status.{status_of_asking};
ghost use Rattle.serv_texts.specs.Texts.{IsAnswerText, IsInput, IsLacking, IsTextOf, IsTextOver, WritesText, text_bound};

use crate::extracts::extract_text;
use crate::journals::open_journal;
use crate::reading::read_all;
use crate::status::Status;
use crate::writing::write_text;
use serv_disk::{Disk, Sink, Source};
use serv_engine::Engine;
use serv_machine::{Machine, decide_query, push_verdict};
use serv_report::write_answer;
use serv_words::Text;
use std::alloc::Global;
use std::mem::forget;
use std::sync::ledger::Ledger;
use svc_base::{OutOfMemory, Steps};
use svc_checkpoint::Checked;
use svc_core::CoreFault;
use svc_types::{Query, Refusal};

/// Opens the journal of the disk, reads the whole source where the text is about it, and writes the text in one go.
pub fn write_over_journal<S: Source, K: Sink, D: Disk, L: Ledger>(
    alloc: Global,
    text: &Text,
    src: &mut S,
    snk: &mut K,
    disk: &mut D,
    steps: &mut Steps<L>,
) -> Status
    requires { IsText text.now }
    ensures written { (IsUnopened D.view D.faults disk.old disk.new result steps.old steps.new
        × (src.new ≡ src.old) × (snk.new ≡ snk.old))
        ⊎ IsTextOver D.view disk.old disk.new result text.now
        steps.old steps.new (S.left src.old) (S.left src.new) (K.held snk.old) (K.held snk.new) }
    ensures unread { asked.reads_input text.now ≢ true → src.new ≡ src.old }
    ensures idle { (last : Option ℕ) → result ≡ Status.NoReport last → snk.new ≡ snk.old }
    ensures file { HasFileFaults (D.view disk.old).seen result }
    ensures read { result ≡ Status.ReadFault → HasRisen (S.faults src.old) (S.faults src.new) }
    ensures write { result ≡ Status.WriteFault → HasRisen (K.faults snk.old) (K.faults snk.new) }
    ensures disk { result ≡ Status.DiskFault → HasRisen (D.faults disk.old) (D.faults disk.new) }
    ensures read_later { S.faults src.old ≤ S.faults src.new }
    ensures write_later { K.faults snk.old ≤ K.faults snk.new }
    ensures disk_later { D.faults disk.old ≤ D.faults disk.new }
{
    match open_journal(alloc, disk, steps) {
        Ok(engine) => {
            let status = write_by::<S, K, D, L>(alloc, text, &engine, src, snk, steps);
            // as `session` does
            forget(engine);
            status
        }
        Err(status) => status,
    }
}

/// Reads what the text is about, and writes the text over the engine's commands.
fn write_by<S: Source, K: Sink, D: Disk, L: Ledger>(
    alloc: Global,
    text: &Text,
    engine: &Engine<Checked>,
    src: &mut S,
    snk: &mut K,
    steps: &mut Steps<L>,
) -> Status
    requires { IsText text.now }
    ensures writes { WritesText result text.now engine.now.history steps.old steps.new
        (S.left src.old) (S.left src.new) (K.held snk.old) (K.held snk.new) }
    ensures unread { asked.reads_input text.now ≢ true → src.new ≡ src.old }
    ensures idle { (last : Option ℕ) → result ≡ Status.NoReport last → snk.new ≡ snk.old }
    ensures read { result ≡ Status.ReadFault → HasRisen (S.faults src.old) (S.faults src.new) }
    ensures write { result ≡ Status.WriteFault → HasRisen (K.faults snk.old) (K.faults snk.new) }
    ensures disk { result ≢ Status.DiskFault }
    ensures read_later { S.faults src.old ≤ S.faults src.new }
    ensures write_later { K.faults snk.old ≤ K.faults snk.new }
{
    match input_for(alloc, text, src) {
        Ok(input) => match text_by::<D, L>(alloc, text, engine, &input, steps) {
            Ok(whole) => write_text(snk, &whole),
            Err(status) => status,
        },
        Err(status) => status,
    }
}

/// What is read for a text: the whole source, or nothing.
fn input_for<S: Source>(alloc: Global, text: &Text, src: &mut S) -> Result<Vec<u8>, Status>
    ensures input { IfOk result (λ v. Consumes (S.left src.old) (S.left src.new) v.items
        × IsInput (asked.reads_input text.now) v.items (S.left src.new)) }
    ensures few { IfOk result (λ v. length v.items ≤ 2 ^ 26) }
    ensures unread { IfErr result (λ status. (taken : List ℕ)
        × Consumes (S.left src.old) (S.left src.new) taken × IsUnread status taken) }
    ensures reads { IfErr result (λ status. asked.reads_input text.now ≡ true) }
    ensures same { asked.reads_input text.now ≢ true → src.new ≡ src.old }
    ensures cause { result ≡ Err Status.ReadFault → HasRisen (S.faults src.old) (S.faults src.new) }
    ensures later { S.faults src.old ≤ S.faults src.new }
{
    if text.reads_input() {
        read_all(alloc, src)
    } else {
        Ok(Vec::new(alloc))
    }
}

/// The text over the engine's commands, and about an input. Errs with the status of a run that has none.
fn text_by<D: Disk, L: Ledger>(
    alloc: Global,
    text: &Text,
    engine: &Engine<Checked>,
    input: &[u8],
    steps: &mut Steps<L>,
) -> Result<Vec<u8>, Status>
    requires well { IsText text.now }
    requires size { length input.now ≤ 2 ^ 26 }
    ensures text { IfOk result (λ whole. IsTextOf text.now engine.now.history input.now whole.items) }
    ensures lacking { IfErr result (IsLacking text.now engine.now.history) }
    ensures steps { steps.new ≤ steps.old + text_bound text.now engine.now.history input.now }
{
    match text {
        Text::Show(query) => answer_text::<D, Engine<Checked>, L>(alloc, engine, query, steps),
        Text::Ask(query) => match reply_text::<D, Engine<Checked>, L>(alloc, engine, query, steps) {
            Ok(whole) => Ok(whole),
            Err(_) => Err(Status::OutOfMemory),
        },
        Text::Make(extract) => match extract_text(alloc, *extract, engine.core(), input, steps) {
            Ok(whole) => Ok(whole),
            Err(_) => Err(Status::OutOfMemory),
        },
    }
}

/// The text of the answer to a query. Errs with the status of a run that has none.
fn answer_text<D: Disk, M: Machine<D>, L: Ledger>(
    alloc: Global,
    machine: &M,
    query: &Query,
    steps: &mut Steps<L>,
) -> Result<Vec<u8>, Status>
    requires { IsShowing query.now }
    ensures text { IfOk result (λ whole. IsAnswerText query.now (M.history machine.now).commands whole.items) }
    ensures lacking { IfErr result (IsLacking (Text.Show query.now) (M.history machine.now).commands) }
    ensures steps { steps.new ≤ steps.old + query_bound (world (M.history machine.now).commands) query.now }
{
    match machine.answer(query, steps) {
        Ok(answer) => match write_answer(alloc, &answer) {
            Ok(whole) => Ok(whole),
            Err(_) => Err(Status::OutOfMemory),
        },
        Err(fault) => Err(unanswered(fault)),
    }
}

/// The status where a query has no answer.
fn unanswered(fault: CoreFault) -> Status
    ensures { result ≡ status_of_asking fault }
{
    match fault {
        CoreFault::Refused(Refusal::NotClosed(last)) => Status::NoReport(last),
        _ => Status::OutOfMemory,
    }
}

/// The text of the reply to a query: its answer, or the rule that refuses it.
#[tactic(auto, unfolding(serv_machine::specs::Verdicts::reply_to_request, serv_machine::specs::Verdicts::verdict_to, serv_machine::specs::Verdicts::bound_of_request))]
fn reply_text<D: Disk, M: Machine<D>, L: Ledger>(
    alloc: Global,
    machine: &M,
    query: &Query,
    steps: &mut Steps<L>,
) -> Result<Vec<u8>, OutOfMemory>
    requires { IsQuery query.now }
    ensures text { IfOk result (λ whole. whole.items
        ≡ reply_to_request (in_store Memory (M.history machine.now).commands) (request.Ask query.now)) }
    ensures steps { steps.new ≤ steps.old + query_bound (world (M.history machine.now).commands) query.now }
{
    let verdict = decide_query::<D, M, L>(machine, query, steps)?;
    let mut text = Vec::new(alloc);
    push_verdict(&mut text, &verdict)?;
    Ok(text)
}
