//! The generated year.

ghost use Rattle.std.specs.Prelude.{◌≡◌, ◌≤◌, ◌+◌};
ghost use Rattle.serv_disk.specs.Faults.{HasRisen};
ghost use Rattle.serv_drill.specs.Machine.{cost_of_works, first_tally};
ghost use Rattle.serv_drill.specs.Summary.{summary};
ghost use Rattle.serv_drill.specs.Works.{year_works};
ghost use Rattle.serv_texts.specs.Texts.{Writes};

use crate::status::Status;
use crate::writing::write_text;
use serv_disk::Sink;
use serv_drill::drill;
use std::alloc::Global;
use std::sync::ledger::Ledger;
use svc_base::Steps;

/// Makes the generated year of at most 500 loans in memory, and writes its summary in one go.
pub fn write_year<K: Sink, L: Ledger>(
    alloc: Global,
    loans: u32,
    number: u32,
    snk: &mut K,
    steps: &mut Steps<L>,
) -> Status
    requires few { loans ≤ 500 }
    ensures writes { Writes result (λ text. text ≡ summary loans number) (K.held snk.old) (K.held snk.new) }
    ensures write { result ≡ Status.WriteFault → HasRisen (K.faults snk.old) (K.faults snk.new) }
    ensures write_later { K.faults snk.old ≤ K.faults snk.new }
    ensures steps { steps.new ≤ steps.old + cost_of_works first_tally (year_works loans number) }
{
    match drill(alloc, loans, number, steps) {
        Ok(text) => write_text(snk, &text),
        Err(_) => Status::OutOfMemory,
    }
}
