//! Lines of requests, both ways.

use serv_line::{LineFault, read_line, write_line};
use std::alloc::Global;
use std::test::Fail;
use svc_base::OutOfMemory;

/// Each form of a line.
const LINES: [&str; 39] = [
    "k1 day 2024-02-01",
    "k2 board 1 2023-12-15 200000.00 6000 250 1199.10 360 2024-02 15 500 2 0.00 SS",
    "k3 pay 1 2024-02-01 1199.10",
    "k3 pay 1 2024-02-01 1199.10 principal",
    "k3 pay 1 2024-02-01 1199.10 escrow",
    "k4 curtail 1 2024-02-10 1000.00",
    "k5 payoff 1 2024-02-16 200300.40",
    "k6 deposit 2 2024-06-10 1090.00",
    "k7 disburse 2 2024-06-12 2000.00 1",
    "k8 refund 1 0.01",
    "k9 waive 1 59.97",
    "k10 reverse 1 3",
    "k11 line 2 1 tax 7 12 500.00",
    "k11 line 2 1 other 7 12 500.00",
    "k12 drop 2 1",
    "k13 analyse 2 refund - -",
    "k13 analyse 2 retain leave spread:12",
    "k13 analyse 2 - within30 spread:0",
    "k14 close 2024-01",
    "k15 remit 2099-12",
    "k16 retype 1 2024-03 AA",
    "A.z_0:9- waive 4294967295 99999999999.99",
    "? books 1",
    "? at 1 2024-02-29",
    "? payoff 1 1990-01-01",
    "? escrow 2",
    "? report 2024-04",
    "? trial 2024-04",
    "? custodial",
    "? rows 0",
    "? loan 1",
    "? history 4294967295",
    "? quote 1 2024-06-30",
    "? arrears 1",
    "? aging",
    "? status",
    "? command 8",
    "? key k8",
    "? key A.z_0:9-",
];

/// Whether a line is read, and written again as it was.
fn goes_both_ways(alloc: Global, line: &str) -> Result<bool, OutOfMemory> {
    let Ok(request) = read_line(line.as_bytes()) else {
        return Ok(false);
    };
    Ok(write_line(alloc, &request)?.as_slice() == line.as_bytes())
}

#[test]
fn each_form_is_read_and_written(rt: HostRuntime) -> Result<(), Fail> {
    for line in LINES.iter() {
        assert!(rt; goes_both_ways(rt.alloc(), line)?, "at {line}");
    }
    Ok(())
}

/// Lines that are no request, with the place of the fault.
const FAULTS: [(&str, u32); 39] = [
    ("k1 pay 1 2024-02-30 5.00", 9),
    ("k1 pay 1 2024-02-01", 19),
    ("k1 pay 1 2024-02-01 5.0", 20),
    ("", 0),
    ("k3 pay 1 2024-02-01 5.00 regular", 25),
    ("k3 pay 1 2024-02-01 5.00 escrow x", 32),
    ("k1  day 2024-02-01", 3),
    ("k! day 2024-02-01", 0),
    ("k1", 2),
    ("k1 day 2024-2-01", 7),
    ("k1 day 2024-02-01\r", 7),
    ("k1 day 2024-02-01 ", 18),
    ("k1 pay 01 2024-02-01 1.00", 7),
    ("k1 pay 4294967296 2024-02-01 1.00", 7),
    ("k1 pay 1 2100-01-01 1.00", 9),
    ("? rows", 6),
    ("? frob 1", 2),
    ("?", 1),
    (" k1 day 2024-02-01", 0),
    ("k1 ", 3),
    ("k1 frob 1 x", 3),
    ("k1 day", 6),
    ("k1 waive 1 100000000000.00", 11),
    ("k1 waive 1 1.00 1", 16),
    ("k1 retype 1 2024-03", 19),
    ("k1 retype 1 2024-03 TA", 20),
    ("k1 line 1 2 taxes 7 12 5.00", 12),
    ("k1 analyse 1 - - spread:", 17),
    ("? custodial 1", 12),
    ("? status 1", 9),
    ("? quote 1", 9),
    ("? quote 1 2024-06-31", 10),
    ("? command k8", 10),
    ("? key", 5),
    ("? key k/8", 6),
    ("? key k23456789012345678901234567890123", 6),
    ("k1 books 1", 3),
    ("? day 2024-02-01", 2),
    ("k23456789012345678901234567890123 day 2024-02-01", 0),
];

fn has_fault(line: &[u8], place: u32) -> bool {
    match read_line(line) {
        Ok(_) => false,
        Err(fault) => fault == LineFault(place),
    }
}

#[test]
fn each_fault_has_its_place(rt: HostRuntime) {
    for (line, place) in FAULTS.iter() {
        assert!(rt; has_fault(line.as_bytes(), *place), "at {line}");
    }
    assert!(rt; has_fault(&[b'x'; 512], 0));
    assert!(rt; has_fault(&[b'x'; 513], 512));
}
