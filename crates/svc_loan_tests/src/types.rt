//! Types by month.

use crate::followed::terms_of;
use std::alloc::Global;
use std::test::Fail;
use svc_base::Month;
use svc_loan::Types;
use svc_types::{RemitType, Terms, TypeChange};

/// Adds a change of type; whether there was memory for it.
fn change(types: &mut Types, month: u32, kind: RemitType) -> bool {
    if types.reserve().is_err() {
        return false;
    }
    let from = Month::new(2024, 1).plus(month.min(12));
    types.add(TypeChange { from, kind });
    true
}

/// The types of 2024-02, 2024-03, 2024-04, 2024-05 and 2024-12.
fn kinds(types: &Types, terms: &Terms) -> [RemitType; 5] {
    [
        types.kind_in(terms, Month::new(2024, 2)),
        types.kind_in(terms, Month::new(2024, 3)),
        types.kind_in(terms, Month::new(2024, 4)),
        types.kind_in(terms, Month::new(2024, 5)),
        types.kind_in(terms, Month::new(2024, 12)),
    ]
}

/// How many changes there are, and the types, without a change and with three: from 2024-03 on, from 2024-05 on, and
/// again from 2024-03 on.
#[derive(Clone, Copy, PartialEq, Eq)]
struct Seen {
    none: (bool, usize),
    before: [RemitType; 5],
    changed: [bool; 3],
    three: (bool, usize),
    after: [RemitType; 5],
}

fn three_changes(alloc: Global, terms: &Terms) -> Seen {
    let mut types = Types::new(alloc);
    Seen {
        none: (types.is_empty(), types.len()),
        before: kinds(&types, terms),
        changed: [
            change(&mut types, 2, RemitType::AA),
            change(&mut types, 4, RemitType::SS),
            change(&mut types, 2, RemitType::SA),
        ],
        three: (types.is_empty(), types.len()),
        after: kinds(&types, terms),
    }
}

#[test]
fn the_last_change_that_has_begun_counts(rt: HostRuntime) -> Result<(), Fail> {
    use RemitType::{SA, SS};
    let terms = terms_of(
        "2 board 1 2023-12-15 200000.00 6000 250 1199.10 360 2024-02 15 500 2 0.00 SS",
    ).ok_or("no terms")?;
    let seen = Seen {
        none: (true, 0),
        before: [SS, SS, SS, SS, SS],
        changed: [true, true, true],
        three: (false, 3),
        after: [SS, SA, SA, SS, SS],
    };
    assert!(rt; three_changes(rt.alloc(), &terms) == seen);
    Ok(())
}
