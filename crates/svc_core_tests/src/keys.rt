//! Commands under their keys.

use serv_line::read_line;
use std::alloc::Global;
use std::test::Fail;
use svc_core::Posted;
use svc_types::{Command, Extra, Key, Reply, Request, read_key};

/// Adds a command under a key that is new; whether it was.
fn push_new(posted: &mut Posted, key: &Key, command: &Command) -> bool {
    if posted.count() >= 1_000 || posted.number_of(key).is_some() || posted.reserve().is_err() {
        return false;
    }
    posted.push(key, command, Extra::Plain);
    true
}

/// Adds the command of a line under its key; whether it is new.
fn add(posted: &mut Posted, line: &[u8]) -> bool {
    match &read_line(line) {
        Ok(Request::Do(key, command)) => push_new(posted, key, command),
        _ => false,
    }
}

/// The number of the command under a key.
fn number_under(posted: &Posted, key: &[u8]) -> Option<u32> {
    posted.number_of(&read_key(key)?)
}

/// Whether the command of a line has a number, and is known under its key with a reply.
fn is_kept(posted: &Posted, line: &[u8], reply: Reply) -> bool {
    match &read_line(line) {
        Ok(Request::Do(key, command)) => {
            posted.command(reply.number) == Some((*key, *command))
                && posted.known(key) == Some((*command, reply))
        }
        _ => false,
    }
}

/// Whether that many commands are there, of which the last has a reply.
fn is_last(posted: &Posted, count: u32, reply: Reply) -> bool {
    posted.count() == count as usize && count > 0 && posted.reply(count) == reply
}

/// Two commands, and the plain reply to the second.
const FIRST: &[u8] = b"k1 day 2024-02-01";

const SECOND: &[u8] = b"k10 day 2024-02-02";

const SAID: Reply = Reply {
    number: 2,
    extra: Extra::Plain,
};

/// What two commands are found as: both are added, a third of their keys is not; the numbers under three keys, and what
/// is kept of the second, with no command before the first and after the last.
#[derive(Clone, Copy, Debug, PartialEq, Eq)]
struct Found {
    added: [bool; 3],
    numbers: [Option<u32>; 3],
    last: bool,
    kept: bool,
    others: bool,
}

fn two_commands(alloc: Global) -> Found {
    let mut posted = Posted::new(alloc);
    let added = [
        add(&mut posted, FIRST),
        add(&mut posted, SECOND),
        add(&mut posted, FIRST),
    ];
    Found {
        added,
        numbers: [
            number_under(&posted, b"k1"),
            number_under(&posted, b"k10"),
            number_under(&posted, b"k2"),
        ],
        last: is_last(&posted, 2, SAID),
        kept: is_kept(&posted, SECOND, SAID),
        others: posted.command(0).is_some() || posted.command(3).is_some(),
    }
}

#[test]
fn commands_are_found_under_their_keys(rt: HostRuntime) -> Result<(), Fail> {
    let found = Found {
        added: [true, true, false],
        numbers: [Some(1), Some(2), None],
        last: true,
        kept: true,
        others: false,
    };
    assert_eq!(rt; two_commands(rt.alloc()), found);
    Ok(())
}
