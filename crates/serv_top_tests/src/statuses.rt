//! How statuses are printed.

use serv_top::Status;
use std::alloc::Global;
use svc_base::Month;

fn is_shown(alloc: Global, status: Status, shown: &str) -> bool {
    match status.to_string(alloc) {
        Ok(text) => text.as_str() == shown,
        Err(_) => false,
    }
}

#[test]
fn a_status_is_shown_by_number_and_name(rt: HostRuntime) {
    for (status, shown) in [
        (Status::Done, "0 Done"),
        (Status::Usage, "2 Usage"),
        (Status::ReadFault, "3 ReadFault"),
        (Status::WriteFault, "4 WriteFault"),
        (Status::DiskFault, "5 DiskFault"),
        (Status::NotJournal, "6 NotJournal"),
        (Status::AlreadyThere, "7 AlreadyThere"),
        (Status::Damaged(8), "8 Damaged 8"),
        (Status::NetFault, "9 NetFault"),
        (Status::NoReport(None), "10 NoReport -"),
        (
            Status::NoReport(Some(Month::new(2024, 2))),
            "10 NoReport 2024-02",
        ),
        (Status::TooMuch(67_108_864), "11 TooMuch 67108864"),
        (Status::OutOfMemory, "12 OutOfMemory"),
        (Status::JournalFull(29), "13 JournalFull 29"),
    ] {
        assert!(rt; is_shown(rt.alloc(), status, shown), "{shown}");
    }
}
