//! Feeding a connection with its bytes, piece by piece.

ghost use Rattle.std.specs.Prelude.{◌≡◌, ℕ, ◌≤◌, ◌++◌, List, [], length, true, false, IfOk, OnErr, IsOkAnd};
ghost use Rattle.serv_http.specs.Conns as conns;
ghost use Rattle.serv_http.specs.Streams.{IsAwaited};

use crate::ask::Ask;
use crate::conn::Conn;
use crate::stage::Stage;
use std::alloc::Global;
use svc_base::OutOfMemory;

impl Conn {
    /// The requests and faults that a piece completes, by the bytes so far alone: whatever the
    /// pieces, they are those of the whole stream. A piece that completes nothing takes no memory.
    /// The connection is over after want of memory, and after a request that ends it.
    pub fn feed(&mut self, alloc: Global, piece: &[u8]) -> Result<Vec<Ask>, OutOfMemory>
        requires going { conns.is_over self.old ≡ false }
        ensures asks { IfOk result (λ asks. (s : List ℕ) → conns.StandsFor self.old s
            → conns.IsFed (s ++ piece.now) asks.items self.new) }
        ensures few { IfOk result (λ asks. length asks.items ≤ length piece.now) }
        ensures quiet { (s : List ℕ) → conns.StandsFor self.old s → IsAwaited (s ++ piece.now)
            → IsOkAnd result (λ asks. asks.items ≡ []) }
        ensures over { OnErr result (conns.is_over self.new ≡ true) }
    {
        let mut asks = Vec::new(alloc);
        let mut at = 0;
        for count in 0..piece.len() {
            match self.step(alloc, &piece[at..]) {
                Err(error) => {
                    self.stage = Stage::Over;
                    return Err(error);
                }
                Ok((_, None)) => return Ok(asks),
                Ok((used, Some(ask))) => {
                    at += used;
                    if asks.push(ask).is_err() {
                        self.stage = Stage::Over;
                        return Err(OutOfMemory);
                    }
                    if self.is_over() {
                        return Ok(asks);
                    }
                }
            }
        }
        Ok(asks)
    }
}
