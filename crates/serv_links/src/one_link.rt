//! A link that is served over the engine.

ghost use Rattle.std.specs.Prelude.{◌≡◌, ◌≤◌, ◌<◌, ◌⊎◌, ◌↔◌, ℕ, List, Some, length, true, false};
ghost use Rattle.serv_disk.specs.Faults.{HasRisen};
ghost use Rattle.serv_engine.specs.Engines.{IsDurable};
ghost use Rattle.serv_machine.specs.History.{history_of, kept_history, stand};
ghost use Rattle.serv_machine.specs.OnDisk.{Upholds};
ghost use Rattle.serv_machine.specs.Answering.{Writes};
ghost use Rattle.serv_links.specs.Links.{IsDiskEnd, Serves, link_limit, number_in};

use crate::link_end::LinkEnd;
use crate::serving::serve_link;
use serv_disk::{Disk, Link};
use serv_engine::Engine;
use serv_machine::Frugal;
use std::alloc::Global;
use std::sync::ledger::Ledger;
use svc_base::Steps;

/// Serves a link to its end over the engine: each request is acted on in its order, its response is written once the
/// disk has its command, and what is said is that of the bytes, whatever the pieces in which they come.
pub fn serve_one<B: Frugal, D: Disk, C: Link, L: Ledger>(
    alloc: Global,
    engine: &mut Engine<B>,
    disk: &mut D,
    link: &mut C,
    steps: &mut Steps<L>,
) -> LinkEnd
    requires unspent { engine.old.journal.spent ≡ false }
    requires durable { IsDurable (D.view disk.old).images engine.old }
    // What was taken, acted on and written, with what a crash leaves on the disk now and at each moment; and from each
    // write on, each image has every command that is answered by what is written so far.
    ensures served { Writes D.view disk.old disk.new
        (Serves result (HasRisen (C.Source.faults link.old) (C.Source.faults link.new))
        (HasRisen (C.Sink.faults link.old) (C.Sink.faults link.new))
        (λ covers. Upholds covers (D.view disk.new) (kept_history engine.new)
        (C.held link.old) (C.log link.old) (C.log link.new)) (C.left link.old) (C.left link.new)
        (stand (history_of engine.old) steps.old) (stand (kept_history engine.new) steps.new))
        (history_of engine.old) (kept_history engine.new) (C.held link.old) (C.held link.new) }
    ensures few { number_in result ≤ link_limit }
    ensures disk { IsDiskEnd result → HasRisen (D.faults disk.old) (D.faults disk.new) }
    // The engine is spent exactly where the disk failed, and can be used on otherwise.
    ensures spent { IsDiskEnd result ↔ (engine.new.journal.spent ≡ true) }
    ensures durable { ¬ (IsDiskEnd result) → IsDurable (D.view disk.new).images engine.new }
    ensures disk_later { D.faults disk.old ≤ D.faults disk.new }
    ensures read_later { C.Source.faults link.old ≤ C.Source.faults link.new }
    ensures write_later { C.Sink.faults link.old ≤ C.Sink.faults link.new }
    // Where no count rises and the link has fewer bytes than the limit, its stream is answered to its end, or
    // memory is short.
    ensures complete { (input : List ℕ) → C.left link.old ≡ Some input → length input < link_limit
        → ¬ HasRisen (C.Source.faults link.old) (C.Source.faults link.new)
        → ¬ HasRisen (C.Sink.faults link.old) (C.Sink.faults link.new)
        → ¬ HasRisen (D.faults disk.old) (D.faults disk.new)
        → ((n : ℕ) × (result ≡ LinkEnd.Ended n)) ⊎ ((n : ℕ) × (result ≡ LinkEnd.NoMemory n)) }
{
    engine.version_holds();
    serve_link(alloc, engine, disk, link, steps)
}
