//! The spelling of keys, and keys in a map.

use std::alloc::{AllocError, Global};
use std::collections::HashMap;
use std::test::Fail;
use svc_types::read_key;

#[test]
fn keys_are_1_to_32_bytes(rt: HostRuntime) {
    for (text, is_key) in [
        ("k1", true),
        ("A-z.0_9:", true),
        ("0123456789abcdefghijklmnopqrstuv", true),
        ("", false),
        ("?", false),
        ("k 1", false),
        ("k/1", false),
        ("0123456789abcdefghijklmnopqrstuvw", false),
        ("k\u{e9}", false),
    ] {
        assert_eq!(rt; is_read(text.as_bytes()), is_key);
    }
}

/// Whether a text is read as a key of these bytes.
fn is_read(text: &[u8]) -> bool {
    match read_key(text) {
        Some(key) => key.bytes() == text,
        None => false,
    }
}

/// What a map has under two keys of which the first was put in twice, and how many it has.
fn found(alloc: Global) -> Result<Option<(Option<u32>, Option<u32>, usize)>, AllocError> {
    let (Some(one), Some(two)) = (read_key(b"k1"), read_key(b"k10")) else {
        return Ok(None);
    };
    let mut numbers = HashMap::new(alloc);
    numbers.insert(one, 1)?;
    numbers.insert(two, 2)?;
    numbers.insert(one, 3)?;
    let first = numbers.get(&one).copied();
    let second = numbers.get(&two).copied();
    Ok(Some((first, second, numbers.len())))
}

#[test]
fn keys_find_their_values(rt: HostRuntime) -> Result<(), Fail> {
    assert_eq!(rt; found(rt.alloc())?, Some((Some(3), Some(2), 2)));
    Ok(())
}
