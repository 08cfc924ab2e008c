//! Links that give their bytes otherwise.

ghost use Rattle.std.specs.Prelude.{None};

use serv_disk::{Disk, Failed, Link, MemLink, Sink, Source};

/// A link that gives one byte at a time.
#[derive(Drop)]
pub(crate) struct Pieces {
    link: MemLink,
}

impl Pieces {
    pub(crate) fn new(link: MemLink) -> Pieces {
        Pieces { link }
    }

    /// The bytes that were written.
    pub(crate) fn content(&self) -> &[u8] {
        self.link.content()
    }
}

impl Source for Pieces {
    ghost left = { λ _. None };

    ghost faults = { λ x. x.link.reading.faults };

    ghost beside = { λ x. record { held = None; faults = x.link.writing.faults; log = None; mark = 0 } };

    fn read(&mut self, buf: &mut [u8]) -> Result<usize, Failed> {
        let count = buf.len().min(1);
        self.link.read(&mut buf[..count])
    }
}

impl Sink for Pieces {
    ghost held = { λ _. None };

    ghost faults = { λ x. x.link.writing.faults };

    ghost beside = { λ x. record { left = None; faults = x.link.reading.faults } };

    ghost log = { λ _. None };

    ghost mark = { λ _. 0 };

    fn show<D: Disk>(&mut self, _: &D) {}

    fn write(&mut self, piece: &[u8]) -> Result<usize, Failed> {
        self.link.write(piece)
    }
}

impl Link for Pieces {
    ghost use Rattle.std.specs.Prelude.{refl};

    ghost writing = { λ x. refl };

    ghost reading = { λ x. refl };
}

/// A link that gives a request, and a second one only where the whole response to the first, of 45 bytes, was
/// written by then.
#[derive(Drop)]
pub(crate) struct Waiting {
    written: usize,
    calls: u8,
}

impl Waiting {
    pub(crate) fn new() -> Waiting {
        Waiting {
            written: 0,
            calls: 0,
        }
    }
}

impl Source for Waiting {
    ghost left = { λ _. None };

    ghost faults = { λ _. 0 };

    ghost beside = { λ _. record { held = None; faults = 0; log = None; mark = 0 } };

    fn read(&mut self, buf: &mut [u8]) -> Result<usize, Failed> {
        self.calls = self.calls.saturating_add(1);
        let piece: &[u8] = match self.calls {
            1 => b"GET /v1/nowhere HTTP/1.1\r\n\r\n",
            2 if self.written == 45 => b"GET /v1/nowhere HTTP/1.1\r\n\r\n",
            _ => b"",
        };
        let count = piece.len().min(buf.len());
        buf[..count].copy_from_slice(&piece[..count]);
        Ok(count)
    }
}

impl Sink for Waiting {
    ghost held = { λ _. None };

    ghost faults = { λ _. 0 };

    ghost beside = { λ _. record { left = None; faults = 0 } };

    ghost log = { λ _. None };

    ghost mark = { λ _. 0 };

    fn show<D: Disk>(&mut self, _: &D) {}

    fn write(&mut self, piece: &[u8]) -> Result<usize, Failed> {
        self.written = self.written.saturating_add(piece.len());
        Ok(piece.len())
    }
}

impl Link for Waiting {
    ghost use Rattle.std.specs.Prelude.{refl};

    ghost writing = { λ x. refl };

    ghost reading = { λ x. refl };
}
