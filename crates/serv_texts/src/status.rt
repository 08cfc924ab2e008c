//! How a run ends.

ghost use Rattle.std.specs.Prelude.{◌≡◌};
ghost use Rattle.serv_texts.specs.Status.{number_of};

use serv_machine::Stop;
use std::fmt;
use svc_base::Month;

/// How a run ended. The program's exit status is its number.
#[derive(Clone, Copy, Debug, PartialEq, Eq)]
pub enum Status {
    /// The input was read to its end, and all replies were written; the text was written; the journal was made; or
    /// the connections were served, or no more came.
    Done,
    /// The words of the command line are none that the program knows.
    Usage,
    /// A read from the source failed.
    ReadFault,
    /// A write to the sink failed.
    WriteFault,
    /// A call of the disk failed.
    DiskFault,
    /// The file does not begin as a journal does.
    NotJournal,
    /// There is a journal, or a file that is longer than an empty one.
    AlreadyThere,
    /// The place of the first record that is none, or of whose command the ones before it leave no place.
    Damaged(u64),
    /// A call of the doors failed.
    NetFault,
    /// No report of the month is there; the last closed month, where one is closed.
    NoReport(Option<Month>),
    /// The input is too long: this many bytes were taken.
    TooMuch(u64),
    /// Memory that the run asked for was not to be had.
    OutOfMemory,
    /// The journal of version 1, of this many bytes, has no room to be written anew.
    JournalFull(u64),
}

impl Status {
    /// The exit status.
    pub fn number(self) -> u8
        ensures { result ≡ number_of self }
    {
        match self {
            Status::Done => 0,
            Status::Usage => 2,
            Status::ReadFault => 3,
            Status::WriteFault => 4,
            Status::DiskFault => 5,
            Status::NotJournal => 6,
            Status::AlreadyThere => 7,
            Status::Damaged(_) => 8,
            Status::NetFault => 9,
            Status::NoReport(_) => 10,
            Status::TooMuch(_) => 11,
            Status::OutOfMemory => 12,
            Status::JournalFull(_) => 13,
        }
    }
}

impl From<Stop> for Status {
    ghost use Rattle.std.specs.Prelude.{◌≡◌};
    ghost use Rattle.serv_texts.specs.Status.{status_of};

    ghost from_gives = { λ stop status. status ≡ status_of stop };

    fn from(stop: Stop) -> Status {
        match stop {
            Stop::WriteFault => Status::WriteFault,
            Stop::DiskFault => Status::DiskFault,
            Stop::OutOfMemory => Status::OutOfMemory,
        }
    }
}

/// The number, the name and the value where there is one, as `11 TooMuch 67108864`.
impl fmt::Display for Status {
    fn fmt<W: fmt::Write>(&self, f: &mut fmt::Formatter<W>) -> fmt::Result {
        let number = self.number();
        match self {
            Status::Done => write!(f, "{number} Done"),
            Status::Usage => write!(f, "{number} Usage"),
            Status::ReadFault => write!(f, "{number} ReadFault"),
            Status::WriteFault => write!(f, "{number} WriteFault"),
            Status::DiskFault => write!(f, "{number} DiskFault"),
            Status::NotJournal => write!(f, "{number} NotJournal"),
            Status::AlreadyThere => write!(f, "{number} AlreadyThere"),
            Status::Damaged(place) => write!(f, "{number} Damaged {place}"),
            Status::NetFault => write!(f, "{number} NetFault"),
            Status::NoReport(None) => write!(f, "{number} NoReport -"),
            Status::NoReport(Some(last)) => {
                let (year, month) = (last.year(), last.month());
                write!(f, "{number} NoReport {year}-{month:02}")
            }
            Status::TooMuch(bytes) => write!(f, "{number} TooMuch {bytes}"),
            Status::OutOfMemory => write!(f, "{number} OutOfMemory"),
            Status::JournalFull(bytes) => write!(f, "{number} JournalFull {bytes}"),
        }
    }
}
