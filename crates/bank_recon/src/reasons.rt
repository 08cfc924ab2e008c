//! Why lines of the bank are not booked.

ghost use Rattle.std.specs.Prelude.{◌≡◌, true, None, IfOk, OnOk, IsSome, map};
ghost use Rattle.std.specs.List.{find, list_any};
ghost use Rattle.bank_recon.specs.declared.item.BankItem.{BankItem as Item};
ghost use Rattle.bank_recon.specs.declared.recon.Reason.TheVariants.{Amount};
ghost use Rattle.bank_recon.specs.Items.{is_near};
ghost use Rattle.bank_recon.specs.Matching.{reason_of, with_reason};
ghost use Rattle.bank_recon.specs.Counting.{noted_in};
ghost use Rattle.bank_recon.specs.Finding.{noted, first_amount, or_extra};

use crate::item::BankItem;
use crate::key::{PlaceKey, place_of};
use crate::recon::Reason;
use std::alloc::Global;
use std::collections::BTreeMap;
use svc_base::OutOfMemory;

/// What is first noted of each account and number.
#[derive(Drop)]
pub(crate) struct Notes {
    notes: BTreeMap<PlaceKey, Reason>,
}

impl Notes {
    /// Nothing is noted.
    fn new(alloc: Global) -> Notes
        ensures { (x : Item) → noted_in result x ≡ None }
    {
        Notes {
            notes: BTreeMap::new(alloc),
        }
    }

    /// Notes a reason under an item's account and number, where nothing is noted there.
    fn note(&mut self, item: &BankItem, reason: Reason) -> Result<(), OutOfMemory>
        ensures { OnOk result ((x : Item) → noted_in self.new x ≡ noted item.now reason (noted_in self.old x) x) }
    {
        let place = place_of(item);
        if self.notes.contains_key(&place) {
            return Ok(());
        }
        self.notes.insert(place, reason)?;
        Ok(())
    }

    /// What is noted under a line's account and number.
    fn of(&self, line: &BankItem) -> Option<Reason>
        ensures { result ≡ noted_in self.now line.now }
    {
        self.notes.get(&place_of(line)).copied()
    }
}

/// The reason of a line where this is the first open item with its account and number.
#[tactic(auto, using(std::proofs::lemmas::Int::ints))]
fn amount_reason(item: &BankItem) -> Reason
    ensures { result ≡ Amount item.now.cents }
{
    Reason::Amount(item.cents)
}

/// Notes the amounts of open items.
fn amounts_of(alloc: Global, open_items: &[BankItem]) -> Result<Notes, OutOfMemory>
    ensures { IfOk result (λ n. (x : Item) → noted_in n x ≡ first_amount open_items.now x) }
{
    let mut notes = Notes::new(alloc);
    for item in open_items {
        notes.note(item, amount_reason(item))?;
    }
    Ok(notes)
}

/// Notes `Extra` for each item, where nothing is noted.
fn note_extra(notes: &mut Notes, items: &[BankItem]) -> Result<(), OutOfMemory>
    ensures { OnOk result ((x : Item) → noted_in notes.new x ≡ or_extra items.now (noted_in notes.old x) x) }
{
    for item in items {
        notes.note(item, Reason::Extra)?;
    }
    Ok(())
}

/// Lines of the bank, each with the reason why it is not booked, from the items and those of them that are
/// open. It takes a look-up in a map for each.
pub(crate) fn reasons(
    alloc: Global,
    items: &[BankItem],
    open_items: &[BankItem],
    lines: &[BankItem],
) -> Result<Vec<(BankItem, Reason)>, OutOfMemory>
    requires { (x : Item) → IsSome (find (is_near x) open_items.now)
        → list_any (is_near x) items.now ≡ true }
    ensures { IfOk result (λ v. v.items ≡ map (with_reason items.now open_items.now) lines.now) }
{
    let mut notes = amounts_of(alloc, open_items)?;
    note_extra(&mut notes, items)?;
    let mut reasons = Vec::new(alloc);
    for line in lines {
        let reason = notes.of(line).unwrap_or(Reason::NoSuch);
        reasons.push((*line, reason))?;
    }
    Ok(reasons)
}
