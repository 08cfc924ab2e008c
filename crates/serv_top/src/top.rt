//! The program's top call.

ghost use Rattle.std.specs.Prelude.{◌≡◌, ◌≢◌, ℕ, ◌+◌, ◌<◌, ◌≤◌, ◌⊎◌, ◌↔◌, List, map, length, Option, None, Some};
ghost use Rattle.serv_disk.specs.Disks.{Each, LeavesOnly};
ghost use Rattle.serv_disk.specs.Faults.{HasRisen};
ghost use Rattle.serv_texts.specs.Journal.{IsInit, HasFileFaults, IsUnopened};
ghost use Rattle.serv_top.specs.Journal.{IsApplied};
ghost use Rattle.serv_top.specs.Imported.{IsImported};
ghost use Rattle.serv_drill.specs.Machine.{cost_of_works, first_tally};
ghost use Rattle.serv_drill.specs.Summary.{summary};
ghost use Rattle.serv_drill.specs.Works.{year_works};
ghost use Rattle.serv_links.specs.Doors.{ServedLink};
ghost use Rattle.serv_texts.specs.Texts.{IsTextOver, Writes};
ghost use Rattle.serv_top.specs.Served.{IsServedOver};
ghost use Rattle.serv_top.specs.Outcome.{Ran};
ghost use Rattle.serv_words.specs.Words.{IsGiven, IsUnknown, task_in};
ghost use Rattle.serv_top.specs.Ends.{IsOverJournal, ReadsInput, IsUndisturbed, MayEnd};

use crate::importing::import;
use crate::over_doors::serve_over;
use crate::over_journal::apply;
use crate::stream::serve;
use serv_disk::{Disk, Doors, Sink, Source};
use serv_machine::Nowhere;
use serv_texts::{Status, make_journal, write_over_journal, write_year};
use serv_words::{Task, Text, read_asking, read_words};
use std::alloc::Global;
use std::mem::forget;
use std::sync::ledger::Ledger;
use svc_base::Steps;
use svc_checkpoint::Checked;
use svc_core::Core;

/// How many bytes of replies over books in memory may wait for a write: 65,536.
const GATHERED: usize = 1 << 16;

/// Answers lines to the end of the source, by books in memory that begin empty.
fn session<S: Source, K: Sink, L: Ledger>(
    alloc: Global,
    src: &mut S,
    snk: &mut K,
    steps: &mut Steps<L>,
) -> Status
    ensures ran { Ran GATHERED result steps.old steps.new
        (S.left src.old) (S.left src.new) (K.held snk.old) (K.held snk.new) }
    ensures disk { result ≢ Status.DiskFault }
    ensures read { result ≡ Status.ReadFault → HasRisen (S.faults src.old) (S.faults src.new) }
    ensures write { result ≡ Status.WriteFault → HasRisen (K.faults snk.old) (K.faults snk.new) }
    ensures read_later { S.faults src.old ≤ S.faults src.new }
    ensures write_later { K.faults snk.old ≤ K.faults snk.new }
{
    match Core::<Checked>::new(alloc) {
        Ok(mut core) => {
            let status = serve(alloc, GATHERED, &mut core, &mut Nowhere, src, snk, steps);
            // the process ends here: to free each loan takes a tenth of a run of 9,000 loans
            forget(core);
            status
        }
        Err(_) => Status::OutOfMemory,
    }
}

/// Runs what the words ask for, each of which begins with a journal's name, which is not empty. `<journal> init`
/// makes an empty journal. `<journal> apply` answers the lines of the source, each on the sink, over the
/// journal of the disk: an accepted command is in it before it is answered. `<journal> session` does so
/// over books in memory that begin empty. `<journal> report <month>`, `<journal> trial <month>` and `<journal>
/// custodial` write that text over the journal. `<journal> ask` with the words of any query writes the reply to its
/// line over the journal. `<journal> transfer <from> <to>` writes the lines of the part of its
/// commands that is of the loans with these numbers, which a servicer who takes them over applies to a new journal;
/// `<journal> remain <from> <to>` writes those of the part that is of all other loans. `<journal> statement` writes the
/// statement of all loans, and `<journal> confirm` reads one and writes how it differs from the books. `<journal> pmi`
/// reads a file of insured loans and writes whether and when each insurance ends, and `<journal> pmi-drops` the
/// commands that drop the premiums of those that do. `<journal> reconcile <first> <last>` reads a bank's movements and
/// writes how the rows of the commands with these numbers match them. `<journal> drill <loans> <number>` writes the
/// summary of the generated year, which is made in memory. `<journal> serve <port> <connections>` serves so many
/// links, one after another, over the journal, each of which is handed back to the doors, and writes their summary;
/// the doors listen at the port. A last piece without a line feed is a line too. All lines that a line feed ended in
/// the bytes taken are answered before the source is read again.
pub fn run<S: Source, K: Sink, D: Disk, G: Doors, L: Ledger>(
    alloc: Global,
    words: &[&str],
    src: &mut S,
    snk: &mut K,
    disk: &mut D,
    doors: &mut G,
    steps: &mut Steps<L>,
) -> Status
    requires out { G.out doors.old ≡ 0 }
    // Words that the program does not know, and no others, are refused, and all objects are left as they were.
    ensures usage { (result ≡ Status.Usage) ↔ IsUnknown (map (λ w. w.now) words.now) }
    ensures untouched_source { result ≡ Status.Usage → src.new ≡ src.old }
    ensures untouched_sink { result ≡ Status.Usage → snk.new ≡ snk.old }
    ensures untouched_disk { result ≡ Status.Usage → disk.new ≡ disk.old }
    ensures untouched_steps { result ≡ Status.Usage → steps.new ≡ steps.old }
    ensures untouched_doors { ((port most : ℕ) → task_in (map (λ w. w.now) words.now) ≢ Some (Task.Serve port most))
        → doors.new ≡ doors.old }

    // In memory: what is taken, accepted and written, for each status, and the steps of it.
    ensures session { task_in (map (λ w. w.now) words.now) ≡ Some Task.Session
        → Ran GATHERED result steps.old steps.new
        (S.left src.old) (S.left src.new) (K.held snk.old) (K.held snk.new) × (disk.new ≡ disk.old) }

    // Over a journal the same, with what a crash at any moment leaves on the disk; or none was opened.
    ensures apply { task_in (map (λ w. w.now) words.now) ≡ Some Task.Apply
        → (IsUnopened D.view D.faults disk.old disk.new result steps.old steps.new
        × (src.new ≡ src.old) × (snk.new ≡ snk.old))
        ⊎ IsApplied D.view disk.old disk.new result steps.old steps.new
        (S.left src.old) (S.left src.new) (K.held snk.old) (K.held snk.new) (K.log snk.old) (K.log snk.new) }

    // The rows of a file over a journal: the whole file is taken first.
    ensures import { task_in (map (λ w. w.now) words.now) ≡ Some Task.Import
        → (IsUnopened D.view D.faults disk.old disk.new result steps.old steps.new
        × (src.new ≡ src.old) × (snk.new ≡ snk.old))
        ⊎ IsImported D.view disk.old disk.new result steps.old steps.new
        (S.left src.old) (S.left src.new) (K.held snk.old) (K.held snk.new) (K.log snk.old) (K.log snk.new) }

    // A text over a journal is written: the answer or the reply to a query, or an extract. Where it is about the input,
    // the whole input is taken first; nothing is written where its month has no report.
    ensures text { (text : Text) → IsGiven (map (λ w. w.now) words.now) (Task.Write text)
        → (IsUnopened D.view D.faults disk.old disk.new result steps.old steps.new
        × (src.new ≡ src.old) × (snk.new ≡ snk.old))
        ⊎ IsTextOver D.view disk.old disk.new result text steps.old steps.new
        (S.left src.old) (S.left src.new) (K.held snk.old) (K.held snk.new) }
    ensures no_report { (text : Text) → IsGiven (map (λ w. w.now) words.now) (Task.Write text)
        → (last : Option ℕ) → result ≡ Status.NoReport last → snk.new ≡ snk.old }

    // The summary of a generated year is written, which is made in memory.
    ensures drill { (loans number : ℕ) → task_in (map (λ w. w.now) words.now) ≡ Some (Task.Drill loans number)
        → Writes result (λ text. text ≡ summary loans number) (K.held snk.old) (K.held snk.new)
        × (steps.new ≤ steps.old + cost_of_works first_tally (year_works loans number))
        × (disk.new ≡ disk.old) }

    // Links are served over a journal, one after another, and handed back; and then their summary is written.
    ensures serve { (port most : ℕ) → task_in (map (λ w. w.now) words.now) ≡ Some (Task.Serve port most)
        → (IsUnopened D.view D.faults disk.old disk.new result steps.old steps.new
        × (snk.new ≡ snk.old) × (doors.new ≡ doors.old))
        ⊎ IsServedOver D.view disk.old disk.new
        (ServedLink G.Conn.left G.Conn.held G.Conn.log G.Conn.Source.faults G.Conn.Sink.faults
        (D.view disk.new))
        result most steps.old steps.new
        (G.coming doors.old) (G.coming doors.new) (G.backed doors.old) (G.backed doors.new)
        (K.held snk.old) (K.held snk.new) }

    // Over a journal, a file that is none, is damaged or too long is answered so, but for want of memory or a fault of
    // the disk. A word that reads no input leaves it as it was.
    ensures file { (t : Task) → IsGiven (map (λ w. w.now) words.now) t → IsOverJournal t
        → HasFileFaults (D.view disk.old).seen result }
    ensures unread { (t : Task) → IsGiven (map (λ w. w.now) words.now) t → ¬ ReadsInput t → src.new ≡ src.old }

    // A journal is made of a file of at most 9 bytes, and nothing else is touched.
    ensures init { task_in (map (λ w. w.now) words.now) ≡ Some Task.Init
        → IsInit result (D.view disk.old) (D.view disk.new) (D.faults disk.old) (D.faults disk.new)
        × (snk.new ≡ snk.old) × (steps.new ≡ steps.old) }
    ensures init_moments { task_in (map (λ w. w.now) words.now) ≡ Some Task.Init
        → Each (D.view disk.old).images (λ c. length c ≤ 9)
        → LeavesOnly D.view disk.old disk.new (λ c. length c ≤ 9) }
    ensures already { (s : List ℕ) → (D.view disk.old).seen ≡ Some s → 9 < length s
        → task_in (map (λ w. w.now) words.now) ≡ Some Task.Init
        → (result ≡ Status.AlreadyThere) ⊎ (result ≡ Status.DiskFault) }

    // A fault is answered only where the count of its object rose in this call. No count falls.
    ensures read { result ≡ Status.ReadFault → HasRisen (S.faults src.old) (S.faults src.new) }
    ensures write { result ≡ Status.WriteFault → HasRisen (K.faults snk.old) (K.faults snk.new) }
    ensures disk { result ≡ Status.DiskFault → HasRisen (D.faults disk.old) (D.faults disk.new) }
    ensures net { result ≡ Status.NetFault → HasRisen (G.faults doors.old) (G.faults doors.new) }
    ensures read_later { S.faults src.old ≤ S.faults src.new }
    ensures write_later { K.faults snk.old ≤ K.faults snk.new }
    ensures disk_later { D.faults disk.old ≤ D.faults disk.new }
    ensures net_later { G.faults doors.old ≤ G.faults doors.new }
    ensures out { G.out doors.new ≡ 0 }

    // Where its input is short, its disk is good for a history and a command, and no object that it uses fails, a run
    // is done, or memory is short, or the journal cannot be written anew; a journal may be there, a report not be.
    ensures complete { (t : Task) → IsGiven (map (λ w. w.now) words.now) t
        → IsUndisturbed t (S.left src.old) (D.view disk.old)
        (HasRisen (S.faults src.old) (S.faults src.new)) (HasRisen (K.faults snk.old) (K.faults snk.new))
        (HasRisen (D.faults disk.old) (D.faults disk.new)) (HasRisen (G.faults doors.old) (G.faults doors.new))
        → MayEnd t result }
{
    match read_words(words) {
        None => match read_asking(words) {
            Some(query) => write_over_journal(alloc, &Text::Ask(query), src, snk, disk, steps),
            None => Status::Usage,
        },
        Some(Task::Init) => make_journal(disk),
        Some(Task::Apply) => apply(alloc, src, snk, disk, steps),
        Some(Task::Session) => session(alloc, src, snk, steps),
        Some(Task::Import) => import(alloc, src, snk, disk, steps),
        Some(Task::Write(text)) => write_over_journal(alloc, &text, src, snk, disk, steps),
        Some(Task::Drill(loans, number)) => write_year(alloc, loans, number, snk, steps),
        Some(Task::Serve(_, most)) => serve_over(alloc, most, snk, disk, doors, steps),
    }
}
