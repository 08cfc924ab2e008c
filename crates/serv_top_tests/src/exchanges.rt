//! Lines and the replies to them, in memory and over a journal.

use serv_run_tests::{
    CREDITED, ENDS, ESCROWED, NEW_JOURNAL, NO_REQUESTS, NO_SHORTAGE, ONE_BILL, SHORTAGE,
    SMALL_SHORTAGE, TOO_EARLY, ending_of, lines_of, over, replies_to,
};
use serv_top::Status;
use std::alloc::Global;
use svc_base::OutOfMemory;
use svc_core_tests::{BOARDED, FIRST_PAID, SCHEDULED_MONTHS};

/// Whether the lines of the texts have their replies by this word, from an empty journal.
fn answers(alloc: Global, word: &str, texts: &[&str]) -> Result<bool, OutOfMemory> {
    let lines = lines_of(alloc, texts)?;
    let end = ending_of(alloc, &over(&["j", word], NEW_JOURNAL, &lines))?;
    let replies = replies_to(alloc, texts)?;
    Ok(end.is(Status::Done, &replies))
}

/// Whether they have them in memory and over a journal.
fn is_answered(alloc: Global, texts: &[&str]) -> bool {
    matches!(answers(alloc, "session", texts), Ok(true))
        && matches!(answers(alloc, "apply", texts), Ok(true))
}

#[test]
fn a_month_is_closed(rt: HostRuntime) {
    assert!(rt; is_answered(rt.alloc(), &[BOARDED, FIRST_PAID, SCHEDULED_MONTHS]));
}

#[test]
fn escrow_is_analysed(rt: HostRuntime) {
    let alloc = rt.alloc();
    assert!(rt; is_answered(alloc, &[ESCROWED, CREDITED]));
    assert!(rt; is_answered(alloc, &[ESCROWED, SMALL_SHORTAGE]));
    assert!(rt; is_answered(alloc, &[ESCROWED, SHORTAGE]));
    assert!(rt; is_answered(alloc, &[ESCROWED, NO_SHORTAGE]));
    assert!(rt; is_answered(alloc, &[ONE_BILL]));
}

#[test]
fn what_a_rule_or_a_form_forbids_is_refused(rt: HostRuntime) {
    let alloc = rt.alloc();
    assert!(rt; is_answered(alloc, &[TOO_EARLY]));
    assert!(rt; is_answered(alloc, &[NO_REQUESTS, BOARDED]));
    assert!(rt; is_answered(alloc, &[ENDS]));
}
