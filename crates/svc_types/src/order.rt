//! Which entries of a loan count, and in which order they take effect.

ghost use Rattle.std.specs.Prelude.{◌≡◌, ℕ, ◌≤◌, ◌==◌, false, map, insert, length, List, AllPairs, IsSorted};
ghost use Rattle.std.specs.Prelude.{OnErr, OnOk, IfOk};
ghost use Rattle.std.specs.List.{filter, list_any};
ghost use Rattle.std.specs.List.Sorted.{IsPermutation};
ghost use Rattle.std.specs.Ordering.{nat_cmp};
ghost use Rattle.svc_types.specs.Live as rule;

use crate::account::Entry;
use std::alloc::{AllocError, Global};
use svc_base::OutOfMemory;

/// Whether an entry takes effect before another one: by day, then number.
pub fn before(a: &Entry, b: &Entry) -> bool
    ensures { result ≡ rule.is_before a.now b.now }
{
    a.day < b.day || (a.day == b.day && a.number < b.number)
}

/// The place that an entry takes among entries in order: after all that it does not take effect
/// before.
pub fn place_of(ordered: &[Entry], entry: &Entry) -> usize
    requires { AllPairs (λ a b. rule.is_before b a ≡ false) ordered.now }
    ensures bound { result ≤ length ordered.now }
    ensures placed { insert ordered.now result entry.now ≡ rule.placed entry.now ordered.now }
{
    ordered.partition_point(|other| !before(entry, other))
}

/// The live entries, by day, then number: those that no reversal names, each as often as it is
/// there. A reversal is a pair of the entry's number and the number of what reversed it.
pub fn live(
    alloc: Global,
    entries: &[Entry],
    reversed: &[(u32, u32)],
) -> Result<Vec<Entry>, OutOfMemory>
    ensures live { IfOk result (λ found. found.items ≡ rule.live_entries entries.now reversed.now) }
    ensures order { IfOk result (λ found. AllPairs (λ a b. rule.is_before b a ≡ false) found.items) }
    ensures those { IfOk result
        (λ found. IsPermutation (filter (rule.is_live reversed.now) entries.now) found.items) }
{
    let numbers = reversed_numbers(alloc, reversed)?;
    let mut found = Vec::new(alloc);
    for entry in entries {
        if !is_among(&numbers, entry.number) {
            found.insert(place_of(&found, entry), *entry)?;
        }
    }
    Ok(found)
}

/// The numbers of the reversed entries, in order.
fn reversed_numbers(alloc: Global, reversed: &[(u32, u32)]) -> Result<Vec<u32>, OutOfMemory>
    ensures sorted { IfOk result (λ numbers. IsSorted nat_cmp numbers.items) }
    ensures same { IfOk result (λ numbers. (n : ℕ) →
        list_any (λ x. x == n) numbers.items ≡ rule.is_reversed reversed.now n) }
{
    let mut numbers = numbers_of(alloc, reversed)?;
    numbers.sort_unstable();
    Ok(numbers)
}

/// The numbers of the reversed entries, as the reversals stand.
fn numbers_of(alloc: Global, reversed: &[(u32, u32)]) -> Result<Vec<u32>, OutOfMemory>
    ensures { IfOk result (λ numbers. numbers.items ≡ map (λ r. r.0) reversed.now) }
{
    Ok(reversed.iter().map(|reversal| reversal.0).collect(alloc)?)
}

/// Whether a number is one of some numbers that rise.
fn is_among(numbers: &[u32], number: u32) -> bool
    requires { IsSorted nat_cmp numbers.now }
    ensures { result ≡ list_any (λ x. x == number) numbers.now }
{
    numbers.binary_search(&number).is_ok()
}
