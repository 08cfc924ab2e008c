//! Heads of as many lines and bytes as may be, and of one more.

use crate::requests::asks_in_both_ways;
use std::alloc::Global;
use std::test::Fail;
use svc_base::OutOfMemory;

/// A head of so many header lines, each of this text.
fn head_of(alloc: Global, lines: usize, line: &str, end: &str) -> Result<String, OutOfMemory> {
    let mut head = String::from_str(alloc, "GET /v1/custodial HTTP/1.1\r\n")?;
    for _ in 0..lines {
        head.push_str(line)?;
    }
    head.push_str(end)?;
    Ok(head)
}

fn head_asks(
    alloc: Global,
    lines: usize,
    line: &str,
    end: &str,
    want: &str,
) -> Result<bool, OutOfMemory> {
    asks_in_both_ways(alloc, head_of(alloc, lines, line, end)?.as_bytes(), want)
}

/// Heads by the number of their lines, a line, and their end, with what they ask. What comes before the
/// lines has 28 bytes.
const HEADS: [(usize, &str, &str, &str); 6] = [
    (64, "a: b\r\n", "\r\n", "get Custodial false\n"),
    (65, "a: b\r\n", "\r\n", "431 true None\n"),
    (8164, "a", "", "431 true None\n"),
    (8163, "a", "", ""),
    (8200, "a", "", "431 true None\n"),
    (
        8164,
        "a",
        "GET /v1/custodial HTTP/1.1\r\n\r\n",
        "431 true None\n",
    ),
];

#[test]
fn a_head_has_its_limits(rt: HostRuntime) -> Result<(), Fail> {
    for (lines, line, end, want) in HEADS.iter() {
        assert!(rt;
            head_asks(rt.alloc(), *lines, line, end, want)?,
            "{lines} of {line}"
        );
    }
    Ok(())
}

/// A request behind so many blank lines.
fn after_blanks(alloc: Global, lines: u32) -> Result<Vec<u8>, OutOfMemory> {
    let mut bytes = Vec::new(alloc);
    for _ in 0..lines {
        bytes.push(b'\n')?;
    }
    bytes.extend_from_slice(b"GET /v1/custodial HTTP/1.1\r\n\r\n")?;
    Ok(bytes)
}

fn blanks_ask(alloc: Global, lines: u32, want: &str) -> Result<bool, OutOfMemory> {
    asks_in_both_ways(alloc, &after_blanks(alloc, lines)?, want)
}

/// Blank lines before a head count toward its 8,192 bytes: with so many of them a head of 30 bytes is whole,
/// and with one more it is too long.
#[test]
fn blank_lines_count(rt: HostRuntime) -> Result<(), Fail> {
    assert!(rt; blanks_ask(rt.alloc(), 8162, "get Custodial false\n")?);
    assert!(rt; blanks_ask(rt.alloc(), 8163, "431 true None\n")?);
    Ok(())
}
