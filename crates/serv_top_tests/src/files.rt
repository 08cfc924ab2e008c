//! Files that are imported by runs that end early.

use serv_run_tests::{Ending, Given, ending_of, journal_of, over};
use serv_top::Status;
use std::alloc::Global;
use svc_base::OutOfMemory;

/// Two loans and a day.
const LOANS: &str = "k1 day 2024-02-01
k2 board 1 2023-12-15 200000.00 6000 250 1199.10 360 2024-02 15 500 2 0.00 SS
k3 board 2 2023-12-15 200000.00 6000 250 1199.10 360 2024-02 15 500 2 0.00 SS
";

/// A file in which each of them pays.
const PAYMENTS: &str = "key,do,loan,day,amount,line
f1,pay,1,2024-02-01,1199.10,
f2,pay,2,2024-02-01,1199.10,
";

/// The replies to it.
const REPLIES: &str = "ok 4\nok 5\n";

/// What both payments leave: twice 1199.10 less the fee of 41.67.
const CUSTODY: &str =
    "custodial T 0.00 P 2314.86 suspense 0.00 escrow 0.00 escrow-advance 0.00 held 2314.86 pi-advance 0.00\n";

/// The calls of the disk, the reads and the writes that fail.
type Faults<'a> = (&'a [u32], &'a [u32], &'a [u32]);

/// Imports the file over the journal of the two loans.
fn import(
    alloc: Global,
    input: &str,
    (calls, reads, writes): Faults,
) -> Result<Ending, OutOfMemory> {
    let journal = journal_of(alloc, LOANS)?;
    let given = Given {
        words: &["j", "import"],
        journal: &journal,
        calls,
        input: input.as_bytes(),
        reads,
        writes,
    };
    ending_of(alloc, &given)
}

/// Whether the file, where it comes again over this journal, has its replies, and each row has acted once.
fn goes_on(alloc: Global, journal: &[u8]) -> Result<bool, OutOfMemory> {
    let again = ending_of(alloc, &over(&["j", "import"], journal, PAYMENTS.as_bytes()))?;
    let custody = ending_of(alloc, &over(&["j", "custodial"], &again.journal, b""))?;
    Ok(again.is(Status::Done, REPLIES.as_bytes()) && custody.is(Status::Done, CUSTODY.as_bytes()))
}

/// Whether the import with these faults ends so, and goes on where it comes again.
fn comes_again(
    alloc: Global,
    faults: Faults,
    status: Status,
    output: &str,
) -> Result<bool, OutOfMemory> {
    let first = import(alloc, PAYMENTS, faults)?;
    Ok(first.is(status, output.as_bytes()) && goes_on(alloc, &first.journal)?)
}

/// Reads and writes that fail.
const FAULTS: [(&[u32], &[u32], Status, &str); 5] = [
    (&[1], &[], Status::ReadFault, ""),
    (&[2], &[], Status::ReadFault, ""),
    (&[], &[1], Status::WriteFault, ""),
    (&[], &[2], Status::WriteFault, "ok 4\n"),
    (&[3], &[3], Status::Done, REPLIES),
];

#[test]
fn a_file_goes_on_after_a_read_or_a_write_that_failed(rt: HostRuntime) {
    for (number, (reads, writes, status, output)) in FAULTS.iter().enumerate() {
        let faults = (&[][..], *reads, *writes);
        let again = comes_again(rt.alloc(), faults, *status, output);
        assert!(rt; matches!(again, Ok(true)), "case {number}");
    }
}

/// The first call of the disk that an import of no row does not make.
fn calls_of_opening(alloc: Global) -> u32 {
    for call in 1..100 {
        let calls = &[call];
        if let Ok(end) = import(alloc, "", (calls, &[], &[])) {
            if end.status == Status::Done {
                return call;
            }
        }
    }
    0
}

/// What an import comes to whose disk fails after so many calls of appending. The first row makes three: it asks for the
/// file's length, and a write and a sync of its record. The second makes three, as it writes the commit byte of the first
/// too, and its own commit byte two.
fn ending_after(made: u32) -> (Status, &'static str) {
    match made {
        0..=5 => (Status::DiskFault, ""),
        6..=7 => (Status::DiskFault, "ok 4\n"),
        _ => (Status::Done, REPLIES),
    }
}

#[test]
fn a_file_goes_on_after_any_call_of_the_disk_that_failed(rt: HostRuntime) {
    let opening = calls_of_opening(rt.alloc());
    assert!(rt; opening > 1);
    for call in 1..opening.saturating_add(9) {
        let (status, output) = ending_after(call.saturating_sub(opening));
        let again = comes_again(rt.alloc(), (&[call], &[], &[]), status, output);
        assert!(rt; matches!(again, Ok(true)), "call {call}");
    }
}
