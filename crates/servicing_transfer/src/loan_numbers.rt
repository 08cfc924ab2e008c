//! The numbers of all loans, rising.

ghost use Rattle.std.specs.Prelude.{◌≡◌, ◌≤◌, length, IfOk, OnOk};
ghost use Rattle.svc_world.specs.Judging.{nth_accepted};
ghost use Rattle.servicing_transfer.specs.Numbers as rule;

use std::alloc::Global;
use svc_base::OutOfMemory;
use svc_core::Core;
use svc_replay::LoanBooks;
use svc_types::Command;

/// The place of a number among rising ones: before the first that is greater.
fn place_for(numbers: &[u32], loan: u32) -> usize
    ensures place { result ≡ rule.place_for loan numbers.now }
    ensures within { result ≤ length numbers.now }
{
    for place in 0..numbers.len() {
        if loan < numbers[place] {
            return place;
        }
    }
    numbers.len()
}

/// Takes on the loan of a command, where it boards one.
fn with_loan<B: LoanBooks>(
    numbers: &mut Vec<u32>,
    core: &Core<B>,
    number: u32,
) -> Result<(), OutOfMemory>
    ensures { OnOk result (numbers.new.items
        ≡ rule.numbers_with numbers.old.items (nth_accepted core.now.history number)) }
{
    if let Some((_, Command::Board(loan, _))) = core.posted(number) {
        let place = place_for(numbers, loan);
        numbers.insert(place, loan)?;
    }
    Ok(())
}

/// The numbers of all loans, rising.
pub(crate) fn loan_numbers<B: LoanBooks>(
    alloc: Global,
    core: &Core<B>,
) -> Result<Vec<u32>, OutOfMemory>
    ensures { IfOk result (λ v. v.items ≡ rule.loans_of core.now.history) }
{
    let mut numbers = Vec::new(alloc);
    for done in 0..core.count() {
        with_loan(&mut numbers, core, done + 1)?;
    }
    Ok(numbers)
}
