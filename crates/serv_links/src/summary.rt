//! What is counted of the links that were served.

ghost use Rattle.std.specs.Prelude.{◌≡◌, ◌+◌, ◌*◌, ◌^◌, ◌<◌, ◌≤◌, ◌++◌, [], IfOk, OnOk};
ghost use Rattle.serv_links.specs.Links.{number_in, link_limit};
ghost use Rattle.serv_links.specs.Doors.{IsSummary, as_broken, as_cut, as_memory, text_of_answered, text_of_summary, text_of_unanswered};

use crate::link_end::LinkEnd;
use serv_line::{push_bytes, push_number, push_number_field, push_wide};
use std::alloc::Global;
use svc_base::OutOfMemory;

/// What is counted of the links that were served: how many there were, the requests that were answered, and
/// how many links ended by a fault of the link, at the limit, and for want of memory.
#[derive(Clone, Copy, Debug, PartialEq, Eq)]
pub struct Summary {
    pub served: u32,
    pub requests: u64,
    pub broken: u32,
    pub cut: u32,
    pub memory: u32,
}

impl Summary {
    /// No link yet.
    pub(crate) fn new() -> Summary
        ensures { IsSummary [] result }
    {
        Summary {
            served: 0,
            requests: 0,
            broken: 0,
            cut: 0,
            memory: 0,
        }
    }

    /// Counts a link's end.
    pub(crate) fn count(&mut self, end: LinkEnd)
        requires served { self.old.served < 2 ^ 20 }
        requires few { number_in end ≤ link_limit }
        requires requests { self.old.requests ≤ self.old.served * 2 ^ 24 }
        requires broken { self.old.broken ≤ self.old.served }
        requires cut { self.old.cut ≤ self.old.served }
        requires memory { self.old.memory ≤ self.old.served }
        ensures served { self.new.served ≡ self.old.served + 1 }
        ensures requests { self.new.requests ≡ self.old.requests + number_in end }
        ensures broken { self.new.broken ≡ self.old.broken + as_broken end }
        ensures cut { self.new.cut ≡ self.old.cut + as_cut end }
        ensures memory { self.new.memory ≡ self.old.memory + as_memory end }
    {
        self.served += 1;
        match end {
            LinkEnd::Ended(n) => self.requests += u64::from(n),
            LinkEnd::Broken(n) => {
                self.requests += u64::from(n);
                self.broken += 1;
            }
            LinkEnd::Cut(n) => {
                self.requests += u64::from(n);
                self.cut += 1;
            }
            LinkEnd::Disk(n) => self.requests += u64::from(n),
            LinkEnd::NoMemory(n) => {
                self.requests += u64::from(n);
                self.memory += 1;
            }
        }
    }
}

/// Appends how many links were served, and how many requests were answered.
fn push_answered(out: &mut Vec<u8>, summary: &Summary) -> Result<(), OutOfMemory>
    ensures { OnOk result (out.new.items ≡ out.old.items ++ text_of_answered summary.now) }
{
    push_bytes(out, b"served ")?;
    push_number(out, summary.served)?;
    push_bytes(out, b" requests ")?;
    push_wide(out, summary.requests)?;
    Ok(())
}

/// Appends how many links ended otherwise.
fn push_unanswered(out: &mut Vec<u8>, summary: &Summary) -> Result<(), OutOfMemory>
    ensures { OnOk result (out.new.items ≡ out.old.items ++ text_of_unanswered summary.now) }
{
    push_number_field(out, b"broken", summary.broken)?;
    push_number_field(out, b"cut", summary.cut)?;
    push_number_field(out, b"memory", summary.memory)?;
    Ok(())
}

/// The line that says what was counted.
#[tactic(auto, unfolding(crate::specs::Doors::text_of_summary))]
pub fn write_summary(alloc: Global, summary: &Summary) -> Result<Vec<u8>, OutOfMemory>
    ensures { IfOk result (λ text. text.items ≡ text_of_summary summary.now) }
{
    let mut out = Vec::new(alloc);
    push_answered(&mut out, summary)?;
    push_unanswered(&mut out, summary)?;
    push_bytes(&mut out, b"\n")?;
    Ok(out)
}
