//! The requests that a piece of a connection's bytes completes.

ghost use Rattle.std.specs.Prelude.{◌≡◌, ◌≢◌, ℕ, ◌≤◌, ◌<◌, ◌^◌, ◌++◌, List, [], length, All, Err, IfErr, OnOk};
ghost use Rattle.serv_disk.specs.Faults.{HasRisen};
ghost use Rattle.serv_http.specs.Conns.{StandsFor};
ghost use Rattle.serv_machine.specs.Answering.{AreReplies, IsStopped, Writes};
ghost use Rattle.serv_machine.specs.History.{stand};
ghost use Rattle.serv_machine.specs.OnDisk.{Upholds};
ghost use Rattle.serv_machine.specs.Sayings.{SaidFirst};
ghost use Rattle.serv_links.specs.Meanings.{IsAsk, Says};
ghost use Rattle.serv_links.specs.Outcomes.{AreAnswers, AreAnswersOf, AreRead, ComeFirst, IsAnswered, IsPiece, IsRound};

use crate::closing::write_last;
use crate::responses::Responses;
use serv_disk::{Disk, Sink};
use serv_http::{Ask, Conn};
use serv_machine::{Machine, Stop};
use std::alloc::Global;
use std::sync::ledger::Ledger;
use svc_base::Steps;

/// How the requests of a piece went: how many responses were written whole, and why no further one was, where that is so.
#[derive(Clone, Copy, Debug)]
pub(crate) struct Round {
    pub(crate) answered: u32,
    pub(crate) outcome: Result<(), Stop>,
}

/// Acts on requests in their order, and writes their responses, each once the disk has its command. Nothing is
/// written where no further one is acted on.
fn answer_in_turn<D: Disk, M: Machine<D>, K: Sink, L: Ledger>(
    alloc: Global,
    machine: &mut M,
    disk: &mut D,
    link: &mut K,
    asks: &[Ask],
    steps: &mut Steps<L>,
) -> Round
    requires asks { All IsAsk asks.now }
    requires few { length asks.now < 2 ^ 32 }
    requires ready { M.ready machine.old disk.old }
    ensures answered { OnOk result.outcome (Writes D.view disk.old disk.new
        (λ pending wrote. (pending ≡ []) × IsAnswered result.answered asks.now
        (stand (M.kept machine.old) steps.old) (stand (M.kept machine.new) steps.new) wrote)
        (M.kept machine.old) (M.kept machine.new) (K.held link.old) (K.held link.new)) }
    ensures stops { IfErr result.outcome (λ why. Writes D.view disk.old disk.new
        (IsStopped why (ComeFirst result.answered asks.now) 0
        (stand (M.kept machine.old) steps.old) (stand (M.kept machine.new) steps.new))
        (M.kept machine.old) (M.kept machine.new) (K.held link.old) (K.held link.new)) }
    ensures upheld { Upholds (AreReplies (SaidFirst Says asks.now) (M.kept machine.old)) (D.view disk.new)
        (M.kept machine.new)
        (K.held link.old) (K.log link.old) (K.log link.new) }
    ensures few { result.answered ≤ length asks.now }
    ensures ready { result.outcome ≢ Err Stop.DiskFault → M.ready machine.new disk.new }
    ensures broken { result.outcome ≡ Err Stop.WriteFault → HasRisen (K.faults link.old) (K.faults link.new) }
    ensures failed { result.outcome ≡ Err Stop.DiskFault → M.failed machine.new }
    ensures stopped { result.outcome ≡ Err Stop.DiskFault → HasRisen (D.faults disk.old) (D.faults disk.new) }
    ensures later { K.faults link.old ≤ K.faults link.new }
    ensures faults { D.faults disk.old ≤ D.faults disk.new }
    ensures beside { K.beside link.new ≡ K.beside link.old }
{
    let mut responses = Responses::new(alloc);
    for ask in asks {
        match responses.answer(alloc, machine, disk, link, ask, steps) {
            Ok(()) => {}
            Err(why) => return Round {
                answered: responses.answered,
                outcome: Err(why),
            },
        }
    }
    match responses.settle(None, machine, disk, link) {
        Ok(()) => Round {
            answered: responses.answered,
            outcome: Ok(()),
        },
        Err(why) => Round {
            answered: responses.answered,
            outcome: Err(why),
        },
    }
}

/// Acts on requests in their order, and writes their responses; and why no further one is acted on, where that is so.
fn answer_all<D: Disk, M: Machine<D>, K: Sink, L: Ledger>(
    alloc: Global,
    machine: &mut M,
    disk: &mut D,
    link: &mut K,
    asks: &[Ask],
    steps: &mut Steps<L>,
) -> Round
    requires asks { All IsAsk asks.now }
    requires few { length asks.now < 2 ^ 32 }
    requires ready { M.ready machine.old disk.old }
    ensures round { Writes D.view disk.old disk.new
        (IsRound (HasRisen (K.faults link.old) (K.faults link.new)) result.outcome result.answered asks.now
        (stand (M.kept machine.old) steps.old) (stand (M.kept machine.new) steps.new))
        (M.kept machine.old) (M.kept machine.new) (K.held link.old) (K.held link.new) }
    ensures upheld { Upholds (AreAnswers asks.now (M.kept machine.old)) (D.view disk.new) (M.kept machine.new)
        (K.held link.old) (K.log link.old) (K.log link.new) }
    ensures few { result.answered ≤ length asks.now }
    ensures ready { result.outcome ≢ Err Stop.DiskFault → M.ready machine.new disk.new }
    ensures broken { result.outcome ≡ Err Stop.WriteFault → HasRisen (K.faults link.old) (K.faults link.new) }
    ensures failed { result.outcome ≡ Err Stop.DiskFault → M.failed machine.new }
    ensures stopped { result.outcome ≡ Err Stop.DiskFault → HasRisen (D.faults disk.old) (D.faults disk.new) }
    ensures later { K.faults link.old ≤ K.faults link.new }
    ensures faults { D.faults disk.old ≤ D.faults disk.new }
    ensures beside { K.beside link.new ≡ K.beside link.old }
{
    let round = answer_in_turn(alloc, machine, disk, link, asks, steps);
    if let Err(why) = round.outcome {
        write_last(link, disk, why);
    }
    round
}

/// Acts on the requests that a piece of a stream completes.
pub(crate) fn serve_piece<D: Disk, M: Machine<D>, K: Sink, L: Ledger>(
    alloc: Global,
    machine: &mut M,
    disk: &mut D,
    link: &mut K,
    conn: &mut Conn,
    piece: &[u8],
    steps: &mut Steps<L>,
) -> Round
    requires stands { (s : List ℕ) × StandsFor conn.old s }
    requires few { length piece.now < 2 ^ 32 }
    requires ready { M.ready machine.old disk.old }
    ensures piece { (s : List ℕ) → StandsFor conn.old s
        → Writes D.view disk.old disk.new
        (IsPiece (HasRisen (K.faults link.old) (K.faults link.new)) result.outcome result.answered (s ++ piece.now) conn.new
        (stand (M.kept machine.old) steps.old) (stand (M.kept machine.new) steps.new))
        (M.kept machine.old) (M.kept machine.new) (K.held link.old) (K.held link.new) }
    ensures upheld { (s : List ℕ) → StandsFor conn.old s
        → Upholds (AreAnswersOf (AreRead (s ++ piece.now)) (M.kept machine.old)) (D.view disk.new)
        (M.kept machine.new)
        (K.held link.old) (K.log link.old) (K.log link.new) }
    ensures few { result.answered ≤ length piece.now }
    ensures ready { result.outcome ≢ Err Stop.DiskFault → M.ready machine.new disk.new }
    ensures broken { result.outcome ≡ Err Stop.WriteFault → HasRisen (K.faults link.old) (K.faults link.new) }
    ensures failed { result.outcome ≡ Err Stop.DiskFault → M.failed machine.new }
    ensures stopped { result.outcome ≡ Err Stop.DiskFault → HasRisen (D.faults disk.old) (D.faults disk.new) }
    ensures later { K.faults link.old ≤ K.faults link.new }
    ensures faults { D.faults disk.old ≤ D.faults disk.new }
    ensures beside { K.beside link.new ≡ K.beside link.old }
{
    match conn.feed(alloc, piece) {
        Ok(asks) => answer_all(alloc, machine, disk, link, &asks, steps),
        Err(_) => {
            write_last(link, disk, Stop::OutOfMemory);
            Round {
                answered: 0,
                outcome: Err(Stop::OutOfMemory),
            }
        }
    }
}
