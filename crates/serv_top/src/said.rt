//! What a line, or a row of a file, says.

ghost use Rattle.std.specs.Prelude.{◌≡◌};
ghost use Rattle.serv_top.specs.Lines.{IsFormed, Says, saying_of};
ghost use Rattle.serv_top.specs.Imported as imported;

use serv_disk::Disk;
use serv_import::RowRequest;
use serv_line::{push_bad, read_line};
use serv_machine::{Halt, Machine, Spoken, answer_request};
use serv_rows::push_bad_row;
use std::sync::ledger::Ledger;
use svc_base::Steps;
use svc_types::{Command, Key, Request};

/// What a line says, or a row of a file.
#[derive(Clone, Copy, Debug, PartialEq, Eq)]
pub(crate) enum Said {
    /// It asks something.
    Asks(Request),
    /// The line's fault stands at this place.
    Faulty(u32),
    /// The row with this number goes wrong in this column.
    Unfit(u32, u32),
}

impl Spoken for Said {
    ghost use Rattle.serv_top.specs.Lines.{IsFormed, saying_of};

    ghost saying = { saying_of };

    ghost formed = { IsFormed };

    fn command(&self) -> Option<(&Key, &Command)> {
        match self {
            Said::Asks(Request::Do(key, command)) => Some((key, command)),
            Said::Asks(Request::Ask(_)) | Said::Faulty(_) | Said::Unfit(_, _) => None,
        }
    }

    fn answer<D: Disk, M: Machine<D>, L: Ledger>(
        &self,
        machine: &mut M,
        disk: &mut D,
        out: &mut Vec<u8>,
        steps: &mut Steps<L>,
    ) -> Result<(), Halt> {
        match self {
            Said::Asks(request) => answer_request(machine, disk, request, out, steps),
            Said::Faulty(place) => {
                push_bad(out, *place)?;
                Ok(())
            }
            Said::Unfit(row, column) => {
                push_bad_row(out, *row, *column)?;
                Ok(())
            }
        }
    }
}

/// What a line says, which is given without its line feed.
pub(crate) fn said_in(line: &[u8]) -> Said
    ensures says { Says line.now (saying_of result) }
    ensures formed { IsFormed result }
{
    match read_line(line) {
        Ok(request) => Said::Asks(request),
        Err(fault) => Said::Faulty(fault.0),
    }
}

/// What a row says.
pub(crate) fn said_of(row: &RowRequest) -> Said
    requires { imported.IsRow row.now }
    ensures said { saying_of result ≡ imported.said_of row.now }
    ensures formed { IsFormed result }
{
    match row {
        RowRequest::Row(key, command) => Said::Asks(Request::Do(*key, *command)),
        RowRequest::Bad(number, column) => Said::Unfit(*number, *column),
    }
}
