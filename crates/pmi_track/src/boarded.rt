//! The terms with which loans were boarded, from the accepted commands.

ghost use Rattle.std.specs.Prelude.{◌≡◌, ℕ, IfOk, OnOk, nat_eq};
ghost use Rattle.std.specs.HashMap.{get};
ghost use Rattle.svc_world.specs.Judging.{nth_accepted};
ghost use Rattle.pmi_track.specs.Boardings.{boarded_terms, with_terms, with_nth, IsTable};

use std::alloc::Global;
use std::collections::HashMap;
use svc_base::OutOfMemory;
use svc_core::Core;
use svc_replay::LoanBooks;
use svc_types::{Command, Terms};

/// The terms with which a loan was boarded: one pass over the accepted commands.
pub(crate) fn terms_of<B: LoanBooks>(core: &Core<B>, loan: u32) -> Option<Terms>
    ensures { result ≡ boarded_terms loan core.now.history }
{
    let mut terms = None;
    for done in 0..core.count() {
        terms = terms_after(core, loan, terms, done + 1);
    }
    terms
}

/// The terms of a loan after the command with a number.
fn terms_after<B: LoanBooks>(
    core: &Core<B>,
    loan: u32,
    terms: Option<Terms>,
    number: u32,
) -> Option<Terms>
    ensures { result ≡ with_nth loan terms (nth_accepted core.now.history number) }
{
    match core.posted(number) {
        Some((_, Command::Board(boarded, new))) if boarded == loan => Some(new),
        _ => terms,
    }
}

/// The terms of each loan by its number: one pass over the accepted commands, for the rows of a file.
pub(crate) fn boardings<B: LoanBooks>(
    alloc: Global,
    core: &Core<B>,
) -> Result<HashMap<u32, Terms>, OutOfMemory>
    ensures { IfOk result (λ m. IsTable (get nat_eq m) core.now.history) }
{
    let mut table = HashMap::new(alloc);
    for done in 0..core.count() {
        take_boarding(core, &mut table, done + 1)?;
    }
    Ok(table)
}

/// Takes the command with a number into the table, where it boards a loan.
fn take_boarding<B: LoanBooks>(
    core: &Core<B>,
    table: &mut HashMap<u32, Terms>,
    number: u32,
) -> Result<(), OutOfMemory>
    ensures { OnOk result ((id : ℕ) → get nat_eq table.new id
        ≡ with_nth id (get nat_eq table.old id) (nth_accepted core.now.history number)) }
{
    if let Some((_, Command::Board(loan, terms))) = core.posted(number) {
        table.insert(loan, terms)?;
    }
    Ok(())
}
