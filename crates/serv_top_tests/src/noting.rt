//! A sink, and a link with its doors, that note writes beside the disk.

ghost use Rattle.std.specs.Prelude.{◌≡◌, ℕ, List, None, Some, map, length};
ghost use Rattle.serv_disk.specs.Sides.{no_reading};
ghost use Rattle.serv_disk.specs.Stamps.{stamp};

use serv_disk::{CalmSource, Disk, Doors, Failed, Link, Sink, Source};
use std::alloc::Global;

/// A write: the moment of the disk from which it counts, and how many bytes were held after it.
#[derive(Clone, Copy, Debug, PartialEq, Eq)]
pub(crate) struct Noted {
    pub(crate) at: u64,
    pub(crate) upto: u64,
}

/// Bytes in memory, and the writes that brought them.
#[derive(Drop)]
pub(crate) struct Noting {
    content: Vec<u8>,
    writes: Vec<Noted>,
    mark: u64,
    faults: u64,
}

impl Noting {
    pub(crate) fn new(alloc: Global) -> Noting {
        Noting {
            content: Vec::new(alloc),
            writes: Vec::new(alloc),
            mark: 0,
            faults: 0,
        }
    }

    /// The bytes that it holds.
    pub(crate) fn content(&self) -> &[u8] {
        &self.content
    }

    /// Its writes, in order.
    pub(crate) fn writes(&self) -> &[Noted] {
        &self.writes
    }
}

impl Sink for Noting {
    ghost held = { λ s. Some s.content.items };

    ghost faults = { λ s. s.faults };

    ghost beside = { λ _. no_reading };

    ghost log = { λ s. Some (map (λ w. stamp w.at w.upto) s.writes.items) };

    ghost mark = { λ s. s.mark };

    fn show<D: Disk>(&mut self, disk: &D) {
        self.mark = disk.clock();
    }

    fn write(&mut self, piece: &[u8]) -> Result<usize, Failed> {
        if self.content.reserve(piece.len()).is_err() || self.writes.reserve(1).is_err() {
            self.faults = self.faults.saturating_add(1);
            return Err(Failed);
        }
        self.content.extend_from_slice(piece).unwrap();
        self.writes
            .push(Noted {
                at: self.mark,
                upto: self.content.len() as u64,
            })
            .unwrap();
        Ok(piece.len())
    }
}

/// Bytes in memory to be read, and a sink that notes its writes.
#[derive(Drop)]
pub(crate) struct NotingLink {
    bytes: CalmSource,
    sink: Noting,
}

impl NotingLink {
    pub(crate) fn new(alloc: Global, bytes: Vec<u8>) -> NotingLink {
        NotingLink {
            bytes: CalmSource::new(bytes),
            sink: Noting::new(alloc),
        }
    }

    /// The bytes that were written.
    pub(crate) fn content(&self) -> &[u8] {
        self.sink.content()
    }

    /// The writes, in order.
    pub(crate) fn writes(&self) -> &[Noted] {
        self.sink.writes()
    }
}

impl Source for NotingLink {
    ghost left = { λ x. Some x.bytes };

    ghost faults = { λ _. 0 };

    ghost beside = { λ x. record {
      held = Some x.sink.content.items;
      faults = x.sink.faults;
      log = Some (map (λ w. stamp w.at w.upto) x.sink.writes.items);
      mark = x.sink.mark;
    } };

    fn read(&mut self, buf: &mut [u8]) -> Result<usize, Failed> {
        self.bytes.read(buf)
    }
}

impl Sink for NotingLink {
    ghost held = { λ x. Some x.sink.content.items };

    ghost faults = { λ x. x.sink.faults };

    ghost beside = { λ x. record { left = Some x.bytes; faults = 0 } };

    ghost log = { λ x. Some (map (λ w. stamp w.at w.upto) x.sink.writes.items) };

    ghost mark = { λ x. x.sink.mark };

    fn show<D: Disk>(&mut self, disk: &D) {
        self.sink.show(disk);
    }

    fn write(&mut self, piece: &[u8]) -> Result<usize, Failed> {
        self.sink.write(piece)
    }
}

impl Link for NotingLink {
    ghost use Rattle.std.specs.Prelude.{refl};

    ghost writing = { λ x. refl };

    ghost reading = { λ x. refl };
}

/// Doors at which one such link comes.
#[derive(Drop)]
pub(crate) struct NotingDoors {
    coming: Option<NotingLink>,
    backed: Option<NotingLink>,
    out: u64,
}

impl NotingDoors {
    pub(crate) fn new(link: NotingLink) -> NotingDoors
        ensures { result.out ≡ 0 }
    {
        NotingDoors {
            coming: Some(link),
            backed: None,
            out: 0,
        }
    }

    /// The link, once it was handed back.
    pub(crate) fn backed(&self) -> Option<&NotingLink> {
        self.backed.as_ref()
    }
}

impl Doors for NotingDoors {
    type Conn = NotingLink;

    ghost coming = { λ _. None };

    ghost backed = { λ _. None };

    ghost out = { λ d. d.out };

    ghost faults = { λ _. 0 };

    fn next(&mut self) -> Result<Option<NotingLink>, Failed> {
        match self.coming.take() {
            Some(link) => {
                self.out = 1;
                Ok(Some(link))
            }
            None => Ok(None),
        }
    }

    fn back(&mut self, conn: NotingLink) {
        self.backed = Some(conn);
        self.out = 0;
    }
}
