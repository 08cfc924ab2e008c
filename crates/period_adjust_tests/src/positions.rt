//! Positions of one loan that were worked out by hand.

use advance_book::{EscrowPosition, PiPosition, escrow_position, position};
use svc_base::Cents;

fn pi(held: Cents, advanced: Cents, residual: Cents) -> PiPosition {
    PiPosition {
        held,
        advanced,
        residual,
    }
}

#[test]
#[tactic(auto, using(std::proofs::lemmas::Int::ints))]
fn principal_and_interest(rt: HostRuntime) {
    for (collected, remitted, settled, wanted) in [
        // collected before it is remitted
        (115743_u32, 0_u32, false, pi(115743, 0, 0)),
        // remitted ahead of collection, and then collected
        (115743, 231490, false, pi(0, 115747, 0)),
        (231490, 231490, false, pi(0, 0, 0)),
        // a payoff that left its last interest, and the same payoff reversed
        (20143702, 20095833, true, pi(0, 0, 47869)),
        (115743, 20095833, false, pi(0, 19980090, 0)),
        // a settled loan that lacks 0.04
        (115743, 115747, true, pi(0, 0, -4)),
    ] {
        let found = position(Cents::from(collected), Cents::from(remitted), settled);
        assert_eq!(rt; found, wanted);
    }
}

#[test]
#[tactic(auto, using(std::proofs::lemmas::Int::ints))]
fn escrow(rt: HostRuntime) {
    for (escrow, suspense, held, advanced) in [
        // a balance
        (109000_i32, 0_u32, 109000, 0),
        // a bill beyond the balance
        (-50000, 0, 0, 50000),
        // suspense does not cover it
        (-50000, 119909, 119909, 50000),
        // both are the borrower's
        (10000, 5, 10005, 0),
    ] {
        let wanted = EscrowPosition { held, advanced };
        let found = escrow_position(Cents::from(escrow), Cents::from(suspense));
        assert_eq!(rt; found, wanted);
    }
}
