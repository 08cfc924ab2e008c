//! Whole generated years. How many commands a year has was worked out from the rule of its draws.

ghost use Rattle.std.specs.Prelude.{◌≡◌, ◌<◌, ◌≤◌};

use serv_drill::drill;
use std::alloc::Global;
use std::marker::Brand;
use std::sync::ledger::{Blank, Ledger};
use svc_base::{OutOfMemory, Steps};

fn year_counted<L: Ledger>(
    alloc: Global,
    blank: Blank,
    loans: u32,
    number: u32,
) -> Result<Vec<u8>, OutOfMemory>
    requires name { blank.name ≡ L.name }
    requires parts { blank.parts ≡ L.parts }
    requires some { 0 < L.parts }
    requires few { loans ≤ 500 }
{
    let mut steps = Steps::<L>::new(blank);
    drill(alloc, loans, number, &mut steps)
}

/// The summary of a year.
fn year(alloc: Global, loans: u32, number: u32) -> Result<Vec<u8>, OutOfMemory>
    requires few { loans ≤ 500 }
{
    year_counted::<Brand>(alloc, Blank::new(1), loans, number)
}

/// Whether the summary of a year begins so.
fn begins(alloc: Global, loans: u32, number: u32, front: &str) -> Result<bool, OutOfMemory>
    requires few { loans ≤ 500 }
{
    let text = year(alloc, loans, number)?;
    Ok(text.starts_with(front.as_bytes()))
}

/// The draws of loan 1 are 7, 4, 7, 6, 5, 1, 4, 5, 4, 9, 3 and 2: ten payments, of which one is taken back.
/// Of those up to December eight stay, and the investor was sent these; that of January is held. Eleven
/// installments were not paid by their 16th day.
const OF_ONE: &str = "drill loans 1 number 0 commands 52 repeats 52
custodial T 0.00 P 1157.77 suspense 0.00 escrow 0.00 escrow-advance 0.00 held 1157.77 pi-advance 0.00
remitted 9260.64 late 659.56
";

/// 80 commands beside the payments: 393 payments in their month, 44 late ones, and 37 that are taken back.
const OF_40: &str = "drill loans 40 number 7 commands 554 repeats 554\n";

const OF_500: &str = "drill loans 500 number 7 commands 6419 repeats 6419\n";

#[test]
fn years_are_summed_up(rt: HostRuntime) {
    let alloc = rt.alloc();
    assert!(rt; matches!(begins(alloc, 1, 0, OF_ONE), Ok(true)));
    assert!(rt; matches!(begins(alloc, 40, 7, OF_40), Ok(true)));
    assert!(rt; matches!(begins(alloc, 500, 7, OF_500), Ok(true)));
}
