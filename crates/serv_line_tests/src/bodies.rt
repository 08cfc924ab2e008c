//! JSON bodies of requests and of replies.

use serv_json::{JsonFault, read_json, write_json};
use serv_line::read_line;
use std::alloc::{AllocError, Global};
use std::test::Fail;

/// Whether a body asks for what this line asks.
fn asks(alloc: Global, body: &[u8], line: &str) -> bool {
    match (read_json(alloc, body), read_line(line.as_bytes())) {
        (Ok(asked), Ok(request)) => asked == request,
        _ => false,
    }
}

fn asks_nothing(alloc: Global, body: &[u8]) -> bool {
    read_json(alloc, body) == Err(JsonFault::NotRequest)
}

/// Whether a body asks for nothing once it has one member more.
fn asks_no_more(alloc: Global, body: &str) -> Result<bool, AllocError> {
    let mut more = b"{\"x\":0,".to_vec(alloc)?;
    more.extend_from_slice(body.strip_prefix("{").unwrap_or("").as_bytes())?;
    Ok(asks_nothing(alloc, &more))
}

/// Bodies, with the lines that ask for the same.
const BODIES: [(&str, &str); 15] = [
    (
        "{\"key\":\"k1\",\"do\":\"board\",\"loan\":1,\"day\":\"2024-01-01\",\
\"principal\":\"200000.00\",\"rate\":6000,\"fee\":250,\"pi\":\"1199.10\",\"term\":360,\
\"first\":\"2024-02\",\"grace\":15,\"late\":500,\"cushion\":2,\"escrow\":\"130.05\",\"type\":\"SS\"}",
        "k1 board 1 2024-01-01 200000.00 6000 250 1199.10 360 2024-02 15 500 2 130.05 SS",
    ),
    (
        "{\"key\":\"k1\",\"do\":\"pay\",\"loan\":1,\"day\":\"2024-02-01\",\"amount\":\"1199.10\"}",
        "k1 pay 1 2024-02-01 1199.10",
    ),
    (
        "{\"key\":\"k1\",\"do\":\"pay\",\"loan\":1,\"day\":\"2024-02-01\",\"amount\":\"1699.10\",\
\"designation\":\"principal\"}",
        "k1 pay 1 2024-02-01 1699.10 principal",
    ),
    (
        "{\"key\":\"k1\",\"do\":\"pay\",\"loan\":1,\"day\":\"2024-02-01\",\"amount\":\"0.00\",\
\"designation\":\"escrow\"}",
        "k1 pay 1 2024-02-01 0.00 escrow",
    ),
    (
        "{\"key\":\"k1\",\"do\":\"curtail\",\"loan\":2,\"day\":\"2024-02-01\",\"amount\":\"0.01\"}",
        "k1 curtail 2 2024-02-01 0.01",
    ),
    (
        "{\"key\":\"k1\",\"do\":\"payoff\",\"loan\":3,\"day\":\"2024-02-01\",\
\"amount\":\"99999999999.99\"}",
        "k1 payoff 3 2024-02-01 99999999999.99",
    ),
    (
        "{\"key\":\"k1\",\"do\":\"deposit\",\"loan\":4294967295,\"day\":\"2024-02-01\",\
\"amount\":\"50.00\"}",
        "k1 deposit 4294967295 2024-02-01 50.00",
    ),
    (
        "{\"key\":\"k1\",\"do\":\"disburse\",\"loan\":1,\"day\":\"2024-02-01\",\
\"amount\":\"500.00\",\"line\":7}",
        "k1 disburse 1 2024-02-01 500.00 7",
    ),
    (
        "{\"key\":\"k1\",\"do\":\"refund\",\"loan\":1,\"amount\":\"10.00\"}",
        "k1 refund 1 10.00",
    ),
    (
        "{\"key\":\"k1\",\"do\":\"waive\",\"loan\":1,\"amount\":\"59.96\"}",
        "k1 waive 1 59.96",
    ),
    (
        "{\"key\":\"k1\",\"do\":\"reverse\",\"loan\":1,\"number\":3}",
        "k1 reverse 1 3",
    ),
    (
        "{\"key\":\"k1\",\"do\":\"line\",\"loan\":1,\"line\":2,\"kind\":\"flood\",\"month\":7,\
\"every\":12,\"amount\":\"360.00\"}",
        "k1 line 1 2 flood 7 12 360.00",
    ),
    (
        "{\"key\":\"k1\",\"do\":\"drop\",\"loan\":1,\"line\":2}",
        "k1 drop 1 2",
    ),
    (
        "{\"key\":\"k1\",\"do\":\"analyse\",\"loan\":1,\"surplus\":\"refund\",\
\"short\":\"spread:12\",\"deficient\":\"-\"}",
        "k1 analyse 1 refund spread:12 -",
    ),
    (
        "{\"key\":\"k1\",\"do\":\"retype\",\"loan\":1,\"period\":\"2024-04\",\"type\":\"SA\"}",
        "k1 retype 1 2024-04 SA",
    ),
];

#[test]
fn each_command_has_its_body(rt: HostRuntime) -> Result<(), Fail> {
    for (body, line) in BODIES.iter() {
        assert!(rt; asks(rt.alloc(), body.as_bytes(), line), "{body}");
        assert!(rt; asks_no_more(rt.alloc(), body)?, "{body}");
    }
    Ok(())
}

/// Bodies with members in another order, or twice, or with escapes.
const ORDERS: [(&str, &str); 7] = [
    (
        "{\"key\":\"k1\",\"do\":\"day\",\"day\":\"2024-02-01\"}",
        "k1 day 2024-02-01",
    ),
    (
        "{ \"day\" : \"2024-02-01\",\n\"do\":\"day\", \"key\":\"k1\"}\r\n",
        "k1 day 2024-02-01",
    ),
    (
        "{\"key\":\"k2\",\"do\":\"pay\",\"day\":7,\"day\":\"2024-02-01\",\"do\":\"day\",\"key\":\"k1\"}",
        "k1 day 2024-02-01",
    ),
    (
        "{\"k\\u0065y\":\"\\u006b1\",\"do\":\"d\\u0061y\",\"day\":\"2024\\u002d02-01\"}",
        "k1 day 2024-02-01",
    ),
    (
        "{\"key\":\"k1\",\"do\":\"close\",\"period\":\"2024-02\"}",
        "k1 close 2024-02",
    ),
    (
        "{\"period\":\"2024-02\",\"key\":\"k1\",\"do\":\"remit\"}",
        "k1 remit 2024-02",
    ),
    (
        "{\"key\":\"k1\",\"do\":\"drop\",\"loan\":-1,\"line\":0,\"loan\":0}",
        "k1 drop 0 0",
    ),
];

#[test]
fn members_stand_in_any_order_and_the_last_of_a_name_stands(rt: HostRuntime) -> Result<(), Fail> {
    for (body, line) in ORDERS.iter() {
        assert!(rt; asks(rt.alloc(), body.as_bytes(), line), "{body}");
        assert!(rt; asks_no_more(rt.alloc(), body)?, "{body}");
    }
    Ok(())
}

const NO_REQUESTS: [&str; 23] = [
    "",
    "{}",
    "[1]",
    "{\"key\":",
    "{\"key\":\"k 1\",\"do\":\"day\",\"day\":\"2024-02-01\"}",
    "{\"key\":\"k1\",\"do\":\"day\",\"day\":20240201}",
    "{\"key\":\"k1\",\"do\":\"day\",\"day\":\"2024-02-01\",\"x\":1}",
    "{\"key\":\"k1\",\"do\":\"day\",\"day\":\"2024-02-01\"}x",
    "{\"key\":\"k1\",\"do\":\"day\",\"day\":\"2024-02-30\"}",
    "{\"key\":\"\",\"do\":\"day\",\"day\":\"2024-02-01\"}",
    "{\"key\":\"k\\n1\",\"do\":\"day\",\"day\":\"2024-02-01\"}",
    "{\"key\":1,\"do\":\"day\",\"day\":\"2024-02-01\"}",
    "{\"key\":\"k1\",\"do\":\"Day\",\"day\":\"2024-02-01\"}",
    "{\"key\":\"k1\",\"do\":[\"day\"],\"day\":\"2024-02-01\"}",
    "{\"key\":\"k1\",\"day\":\"2024-02-01\"}",
    "{\"do\":\"day\",\"day\":\"2024-02-01\"}",
    "{\"key\":\"k1\",\"do\":\"day\"}",
    "{\"key\":\"k1\",\"do\":\"day\",\"Day\":\"2024-02-01\"}",
    "{\"key\":\"k1\",\"do\":\"day\",\"day\":null}",
    "{\"key\":\"k1\",\"do\":\"day\",\"day\":\"2024-02-01\",}",
    "{\"key\":\"k1\",\"do\":\"books\",\"loan\":1}",
    "{\"key\":\"?\",\"do\":\"custodial\"}",
    "\u{feff}{\"key\":\"k1\",\"do\":\"day\",\"day\":\"2024-02-01\"}",
];

#[test]
fn bodies_that_ask_for_nothing_are_refused(rt: HostRuntime) {
    for body in NO_REQUESTS.iter() {
        assert!(rt; asks_nothing(rt.alloc(), body.as_bytes()), "{body}");
    }
    let no_text = b"{\"key\":\"k\xff1\",\"do\":\"day\",\"day\":\"2024-02-01\"}";
    assert!(rt; asks_nothing(rt.alloc(), no_text));
}

const MISSPELLED: [&str; 17] = [
    "{\"key\":\"k1\",\"do\":\"drop\",\"loan\":1,\"line\":-0}",
    "{\"key\":\"k1\",\"do\":\"drop\",\"loan\":1,\"line\":-1}",
    "{\"key\":\"k1\",\"do\":\"drop\",\"loan\":1,\"line\":1.0}",
    "{\"key\":\"k1\",\"do\":\"drop\",\"loan\":1,\"line\":1e0}",
    "{\"key\":\"k1\",\"do\":\"drop\",\"loan\":1,\"line\":01}",
    "{\"key\":\"k1\",\"do\":\"drop\",\"loan\":1,\"line\":4294967296}",
    "{\"key\":\"k1\",\"do\":\"drop\",\"loan\":1,\"line\":18446744073709551616}",
    "{\"key\":\"k1\",\"do\":\"drop\",\"loan\":1,\"line\":\"2\"}",
    "{\"key\":\"k1\",\"do\":\"drop\",\"loan\":1,\"line\":true}",
    "{\"key\":\"k1\",\"do\":\"refund\",\"loan\":1,\"amount\":10}",
    "{\"key\":\"k1\",\"do\":\"refund\",\"loan\":1,\"amount\":10.00}",
    "{\"key\":\"k1\",\"do\":\"refund\",\"loan\":1,\"amount\":\"10\"}",
    "{\"key\":\"k1\",\"do\":\"close\",\"period\":\"2024-2\"}",
    "{\"key\":\"k1\",\"do\":\"pay\",\"loan\":1,\"day\":\"2024-02-01\",\"amount\":\"1.00\",\
\"designation\":\"regular\"}",
    "{\"key\":\"k1\",\"do\":\"pay\",\"loan\":1,\"day\":\"2024-02-01\",\"amount\":\"1.00\",\
\"designation\":\"\"}",
    "{\"key\":\"k1\",\"do\":\"pay\",\"loan\":1,\"day\":\"2024-02-01\",\"designation\":\"escrow\"}",
    "{\"key\":\"k1\",\"do\":\"curtail\",\"loan\":1,\"day\":\"2024-02-01\",\"amount\":\"1.00\",\
\"designation\":\"escrow\"}",
];

#[test]
fn values_that_are_not_spelled_so_are_refused(rt: HostRuntime) {
    for body in MISSPELLED.iter() {
        assert!(rt; asks_nothing(rt.alloc(), body.as_bytes()), "{body}");
    }
}

/// A body whose first `key` is so many arrays one in another, and whose last is `k1`.
fn nested(alloc: Global, arrays: usize) -> Result<Vec<u8>, AllocError> {
    let mut body = b"{\"key\":".to_vec(alloc)?;
    for _ in 0..arrays {
        body.push(b'[')?;
    }
    for _ in 0..arrays {
        body.push(b']')?;
    }
    body.extend_from_slice(b",\"key\":\"k1\",\"do\":\"day\",\"day\":\"2024-02-01\"}")?;
    Ok(body)
}

/// Whether that body is a request.
fn is_read(alloc: Global, arrays: usize) -> Result<bool, AllocError> {
    Ok(asks(alloc, &nested(alloc, arrays)?, "k1 day 2024-02-01"))
}

fn is_refused(alloc: Global, arrays: usize) -> Result<bool, AllocError> {
    Ok(asks_nothing(alloc, &nested(alloc, arrays)?))
}

#[test]
fn bodies_nest_to_the_limit_of_the_parser(rt: HostRuntime) -> Result<(), Fail> {
    assert!(rt; is_read(rt.alloc(), 126)?);
    assert!(rt; is_refused(rt.alloc(), 127)?);
    assert!(rt; is_refused(rt.alloc(), 900)?);
    Ok(())
}

/// Replies by their code, number and text, with their bodies.
const REPLIES: [(u32, Option<u32>, &str, &str); 6] = [
    (
        0,
        Some(1),
        "ok 1",
        "{\"code\":0,\"number\":1,\"text\":\"ok 1\"}",
    ),
    (
        1,
        None,
        "no 1 KeyReused 1",
        "{\"code\":1,\"text\":\"no 1 KeyReused 1\"}",
    ),
    (
        0,
        None,
        "trial 2024-04 loans 0\ntotal upb 0.00 balance 0.00\nend",
        "{\"code\":0,\"text\":\"trial 2024-04 loans 0\\ntotal upb 0.00 balance 0.00\\nend\"}",
    ),
    (
        4_294_967_295,
        Some(4_294_967_295),
        "",
        "{\"code\":4294967295,\"number\":4294967295,\"text\":\"\"}",
    ),
    (
        0,
        None,
        "\"\\/\r\t\x01",
        "{\"code\":0,\"text\":\"\\\"\\\\/\\r\\t\\u0001\"}",
    ),
    (
        0,
        Some(0),
        "\x7f",
        "{\"code\":0,\"number\":0,\"text\":\"\x7f\"}",
    ),
];

/// Whether the reply has this body; a text that is not ASCII has none.
fn has_body(
    alloc: Global,
    code: u32,
    number: Option<u32>,
    text: &[u8],
    body: &[u8],
) -> Result<bool, Fail> {
    if !text.is_ascii() {
        return Ok(false);
    }
    let written = write_json(alloc, code, number, text)?;
    Ok(written.as_slice() == body)
}

#[test]
fn replies_are_written(rt: HostRuntime) -> Result<(), Fail> {
    for (code, number, text, body) in REPLIES.iter() {
        let text = text.as_bytes();
        assert!(rt;
            has_body(rt.alloc(), *code, *number, text, body.as_bytes())?,
            "{body}"
        );
    }
    Ok(())
}
