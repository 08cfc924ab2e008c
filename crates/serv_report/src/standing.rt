//! The texts of who is late, of where the books stand, and of a command with its reply.

ghost use Rattle.std.specs.Prelude.{◌≡◌, ◌++◌, OnErr, OnOk, codes};
ghost use Rattle.std.specs.List.{All, flat_map};
ghost use Rattle.svc_types.specs.declared.requests.Request.TheVariants as request;
ghost use Rattle.svc_world.specs.declared.desk.LateLoan.{LateLoan};
ghost use Rattle.svc_world.specs.Unsigned.{AreUnsignedArrears};
ghost use Rattle.serv_line.specs.Lines.{line_of};
ghost use Rattle.serv_line.specs.Pushed.{Keeps};
ghost use Rattle.serv_line.specs.Replies.{ended, text_of_reply};
ghost use Rattle.serv_report.specs.PostingSigns.{IsUnsignedPosting};
ghost use Rattle.serv_report.specs.Texts.{numbered};
ghost use Rattle.serv_report.specs.DeskTexts.{month_field, text_of_aging, text_of_aging_head, text_of_counts, text_of_held, text_of_late, text_of_late_counts, text_of_months, text_of_posting, text_of_status};

use crate::books::push_next;
use crate::loans::push_owed;
use crate::words::{push_count_field, push_end, push_numbered, push_word};
use serv_line::{push_bytes, push_line, push_number_field, push_reply};
use svc_base::{Day, Month, OutOfMemory, write_day, write_month};
use svc_types::{Command, Key, Reply, Request};
use svc_world::{AgingCounts, BooksStatus, LateLoan};

/// Appends the late loans on a day, and how many loans are how late.
#[tactic(auto, using(serv_line::proofs::KeepLemmas::keeps), unfolding(crate::specs::DeskTexts::text_of_aging))]
pub(crate) fn append_aging(
    out: &mut Vec<u8>,
    day: Day,
    late: &[LateLoan],
    counts: &AgingCounts,
) -> Result<(), OutOfMemory>
    requires { All (λ (l : LateLoan). AreUnsignedArrears l.arrears) late.now }
    ensures pushed { OnOk result (out.new.items ≡ out.old.items ++ text_of_aging day late.now counts.now) }
    ensures kept { OnErr result (Keeps out.old.items out.new.items) }
{
    push_aging_head(out, day, late.len())?;
    push_late_loans(out, late)?;
    push_counts(out, counts)?;
    push_end(out)
}

/// Appends the first line of who is late.
#[tactic(auto, using(serv_line::proofs::KeepLemmas::keeps), unfolding(crate::specs::DeskTexts::text_of_aging_head))]
fn push_aging_head(out: &mut Vec<u8>, day: Day, loans: usize) -> Result<(), OutOfMemory>
    ensures pushed { OnOk result (out.new.items ≡ out.old.items ++ text_of_aging_head day loans) }
    ensures kept { OnErr result (Keeps out.old.items out.new.items) }
{
    push_bytes(out, b"aging ")?;
    push_bytes(out, &write_day(day))?;
    push_count_field(out, b"loans", loans)?;
    push_bytes(out, b"\n")
}

/// Appends late loans, a line each.
#[tactic(auto, using(serv_line::proofs::KeepLemmas::keeps))]
fn push_late_loans(out: &mut Vec<u8>, late: &[LateLoan]) -> Result<(), OutOfMemory>
    requires { All (λ (l : LateLoan). AreUnsignedArrears l.arrears) late.now }
    ensures pushed { OnOk result (out.new.items ≡ out.old.items ++ flat_map text_of_late late.now) }
    ensures kept { OnErr result (Keeps out.old.items out.new.items) }
{
    for loan in late {
        push_late(out, loan)?;
    }
    Ok(())
}

/// Appends a late loan.
#[tactic(auto, using(serv_line::proofs::KeepLemmas::keeps), unfolding(crate::specs::DeskTexts::text_of_late))]
fn push_late(out: &mut Vec<u8>, loan: &LateLoan) -> Result<(), OutOfMemory>
    requires { AreUnsignedArrears loan.now.arrears }
    ensures pushed { OnOk result (out.new.items ≡ out.old.items ++ text_of_late loan.now) }
    ensures kept { OnErr result (Keeps out.old.items out.new.items) }
{
    push_numbered(out, b"late ", loan.loan)?;
    push_next(out, Some(loan.next))?;
    push_number_field(out, b"days", loan.days)?;
    push_owed(out, &loan.arrears)?;
    push_bytes(out, b"\n")
}

/// Appends how many loans are how late.
#[tactic(auto, using(serv_line::proofs::KeepLemmas::keeps), unfolding(crate::specs::DeskTexts::text_of_counts))]
fn push_counts(out: &mut Vec<u8>, counts: &AgingCounts) -> Result<(), OutOfMemory>
    ensures pushed { OnOk result (out.new.items ≡ out.old.items ++ text_of_counts counts.now) }
    ensures kept { OnErr result (Keeps out.old.items out.new.items) }
{
    push_bytes(out, b"total")?;
    push_number_field(out, b"current", counts.current)?;
    push_late_counts(out, counts)?;
    push_number_field(out, b"satisfied", counts.satisfied)?;
    push_bytes(out, b"\n")
}

/// Appends how many loans are late, by days.
#[tactic(auto, using(serv_line::proofs::KeepLemmas::keeps), unfolding(crate::specs::DeskTexts::text_of_late_counts))]
fn push_late_counts(out: &mut Vec<u8>, counts: &AgingCounts) -> Result<(), OutOfMemory>
    ensures pushed { OnOk result (out.new.items ≡ out.old.items ++ text_of_late_counts counts.now) }
    ensures kept { OnErr result (Keeps out.old.items out.new.items) }
{
    push_number_field(out, b"late1", counts.late1)?;
    push_number_field(out, b"late30", counts.late30)?;
    push_number_field(out, b"late60", counts.late60)?;
    push_number_field(out, b"late90", counts.late90)
}

/// Appends where the books stand.
#[tactic(auto, using(serv_line::proofs::KeepLemmas::keeps), unfolding(crate::specs::DeskTexts::text_of_status))]
pub(crate) fn append_status(out: &mut Vec<u8>, status: &BooksStatus) -> Result<(), OutOfMemory>
    ensures pushed { OnOk result (out.new.items ≡ out.old.items ++ text_of_status status.now) }
    ensures kept { OnErr result (Keeps out.old.items out.new.items) }
{
    push_held(out, status)?;
    push_months(out, status)?;
    push_number_field(out, b"pending", status.pending)?;
    push_number_field(out, b"adjustments", status.adjustments)?;
    push_bytes(out, b"\n")
}

/// Appends the business day, and how many loans and commands there are.
#[tactic(auto, using(serv_line::proofs::KeepLemmas::keeps), unfolding(crate::specs::DeskTexts::text_of_held))]
fn push_held(out: &mut Vec<u8>, status: &BooksStatus) -> Result<(), OutOfMemory>
    ensures pushed { OnOk result (out.new.items ≡ out.old.items ++ text_of_held status.now) }
    ensures kept { OnErr result (Keeps out.old.items out.new.items) }
{
    push_bytes(out, b"status ")?;
    push_bytes(out, &write_day(status.today))?;
    push_number_field(out, b"loans", status.loans)?;
    push_number_field(out, b"commands", status.commands)
}

/// Appends which months were closed and remitted, and which are next.
#[tactic(auto, using(serv_line::proofs::KeepLemmas::keeps), unfolding(crate::specs::DeskTexts::text_of_months))]
fn push_months(out: &mut Vec<u8>, status: &BooksStatus) -> Result<(), OutOfMemory>
    ensures pushed { OnOk result (out.new.items ≡ out.old.items ++ text_of_months status.now) }
    ensures kept { OnErr result (Keeps out.old.items out.new.items) }
{
    push_month_field(out, b"closed", status.closed)?;
    push_month_field(out, b"remitted", status.remitted)?;
    push_month_field(out, b"close", Some(status.close))?;
    push_month_field(out, b"remit", status.remit)
}

/// Appends a name and a month, or a dash.
#[tactic(auto, using(serv_line::proofs::KeepLemmas::keeps))]
fn push_month_field(out: &mut Vec<u8>, name: &[u8], month: Option<Month>) -> Result<(), OutOfMemory>
    ensures pushed { OnOk result (out.new.items ≡ out.old.items ++ month_field name.now month) }
    ensures kept { OnErr result (Keeps out.old.items out.new.items) }
{
    push_word(out, name)?;
    match month {
        None => push_bytes(out, b" -"),
        Some(month) => push_word(out, &write_month(month)),
    }
}

/// Appends an accepted command, as its line has it, and the reply that was given.
#[tactic(auto, using(serv_line::proofs::KeepLemmas::keeps), unfolding(crate::specs::DeskTexts::text_of_posting))]
pub(crate) fn append_posting(
    out: &mut Vec<u8>,
    key: &Key,
    command: &Command,
    reply: &Reply,
) -> Result<(), OutOfMemory>
    requires { IsUnsignedPosting command.now reply.now }
    ensures pushed { OnOk result (out.new.items ≡ out.old.items ++ text_of_posting key.now command.now reply.now) }
    ensures kept { OnErr result (Keeps out.old.items out.new.items) }
{
    push_command_number(out, reply.number)?;
    push_command_line(out, key, command)?;
    push_bytes(out, b"reply ")?;
    push_reply(out, reply)?;
    push_end(out)
}

/// Appends the number of a command.
#[tactic(auto, using(serv_line::proofs::KeepLemmas::keeps))]
fn push_command_number(out: &mut Vec<u8>, number: u32) -> Result<(), OutOfMemory>
    ensures pushed { OnOk result (out.new.items ≡ out.old.items ++ ended (numbered (codes "command ") number)) }
    ensures kept { OnErr result (Keeps out.old.items out.new.items) }
{
    push_numbered(out, b"command ", number)?;
    push_bytes(out, b"\n")
}

/// Appends the line of a command.
#[tactic(auto, using(serv_line::proofs::KeepLemmas::keeps))]
fn push_command_line(out: &mut Vec<u8>, key: &Key, command: &Command) -> Result<(), OutOfMemory>
    ensures pushed { OnOk result (out.new.items ≡ out.old.items ++ ended (codes "line " ++ line_of (request.Do key.now command.now))) }
    ensures kept { OnErr result (Keeps out.old.items out.new.items) }
{
    push_bytes(out, b"line ")?;
    push_line(out, &Request::Do(*key, *command))?;
    push_bytes(out, b"\n")
}
