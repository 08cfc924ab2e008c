//! All loans: many of them, and lines of one of them.

ghost use Rattle.std.specs.Prelude.{◌≡◌, ◌<◌, ◌≤◌, true, IsTrue};
ghost use Rattle.std.specs.List.{list_any};
ghost use Rattle.svc_base.specs.Calendar.{IsReadDay};
ghost use Rattle.escrow_lines.specs.BillLists.{has_id};

use crate::followed::{has_line, terms_of};
use escrow_lines::Line;
use std::alloc::Global;
use std::marker::Brand;
use std::sync::ledger::{Blank, Ledger};
use svc_base::Steps;
use svc_checkpoint::Checked;
use svc_loan::{Loan, Loans};
use svc_replay::LoanBooks;
use svc_types::{LineKind, Terms};

const BOARD: &str = "2 board 1 2023-12-15 200000.00 6000 250 1199.10 360 2024-02 15 500 2 0.00 SS";

/// Takes a loan on, on its boarded day; whether no loan has its number, and there was memory.
fn add<B: LoanBooks, L: Ledger>(
    alloc: Global,
    loans: &mut Loans<B>,
    id: u32,
    terms: &Terms,
    steps: &mut Steps<L>,
) -> bool
    requires { IsReadDay terms.now.boarded }
{
    if terms.check().is_err() || loans.get(id).is_some() || loans.reserve().is_err() {
        return false;
    }
    let Ok(loan) = Loan::<B>::begin(alloc, id, *terms, terms.boarded, steps) else {
        return false;
    };
    match Box::new(alloc, loan) {
        Ok(loan) => {
            loans.insert(loan);
            true
        }
        Err(_) => false,
    }
}

/// Takes on loans with so many even numbers from 2 on, from the highest down; whether all were.
fn add_even<B: LoanBooks, L: Ledger>(
    alloc: Global,
    loans: &mut Loans<B>,
    count: u32,
    steps: &mut Steps<L>,
) -> bool
    requires { count ≤ 1_000_000 }
{
    let Some(terms) = terms_of(BOARD) else {
        return false;
    };
    let mut all = true;
    for place in 0..count {
        all = add(alloc, loans, 2 * (count - place), &terms, steps) && all;
    }
    all
}

/// Whether the numbers rise from place to place.
fn rise<B: LoanBooks>(loans: &Loans<B>) -> bool {
    for place in 1..loans.len() {
        if loans.at(place - 1).id() >= loans.at(place).id() {
            return false;
        }
    }
    true
}

/// The number of the loan that is found by a number.
fn found_by<B: LoanBooks>(loans: &Loans<B>, id: u32) -> Option<u32> {
    let loan = loans.get(id)?;
    Some(loan.id())
}

/// How many loans stand before the one that is found by a number.
fn index_of<B: LoanBooks>(loans: &Loans<B>, id: u32) -> Option<usize> {
    let place = loans.find(id)?;
    Some(place.index())
}

/// Whether an even number is found at its place, and the odd one before it is not.
fn is_found<B: LoanBooks>(loans: &Loans<B>, place: u32) -> bool
    requires { place ≤ 1_000_000 }
{
    let even = 2 * (place + 1);
    let here = (found_by(loans, even), index_of(loans, even));
    let before = (found_by(loans, even - 1), index_of(loans, even - 1));
    here == (Some(even), Some(place as usize)) && before == (None, None)
}

/// What is found among so many loans of even numbers.
#[derive(Clone, Copy, PartialEq, Eq)]
struct Found {
    added: bool,
    len: usize,
    rise: bool,
    /// The first place whose number is not found as it should be.
    missed: Option<u32>,
    /// What is found by a number below all, one above all, and the greatest.
    outside: [Option<u32>; 3],
}

fn missed<B: LoanBooks>(loans: &Loans<B>, count: u32) -> Option<u32>
    requires { count ≤ 1_000_000 }
{
    for place in 0..count {
        if !is_found(loans, place) {
            return Some(place);
        }
    }
    None
}

fn look<B: LoanBooks, L: Ledger>(alloc: Global, blank: Blank, count: u32) -> Found
    requires name { blank.name ≡ L.name }
    requires parts { blank.parts ≡ L.parts }
    requires some { 0 < L.parts }
    requires count { count ≤ 1_000_000 }
{
    let mut steps = Steps::<L>::new(blank);
    let mut loans = Loans::<B>::new(alloc);
    Found {
        added: add_even(alloc, &mut loans, count, &mut steps),
        len: loans.len(),
        rise: rise(&loans),
        missed: missed(&loans, count),
        outside: [
            found_by(&loans, 0),
            found_by(&loans, 2 * count + 1),
            found_by(&loans, u32::MAX),
        ],
    }
}

const ALL_FOUND: Found = Found {
    added: true,
    len: 10_000,
    rise: true,
    missed: None,
    outside: [None, None, None],
};

#[test]
fn ten_thousand_loans_are_found_by_their_numbers(rt: HostRuntime) {
    let found = look::<Checked, Brand>(rt.alloc(), Blank::new(1), 10_000);
    assert_eq!(rt; found.missed, None);
    assert!(rt; found == ALL_FOUND);
}

/// A tax bill.
const TAX: Line = Line {
    id: 1,
    kind: LineKind::Tax,
    month: 7,
    every: 12,
    cents: 50_000,
};

/// Sets a line of a loan; whether it has none.
fn set_first_line<B: LoanBooks>(loans: &mut Loans<B>, id: u32, line: Line) -> bool {
    let Some(place) = loans.find(id) else {
        return false;
    };
    if !loans.loan(place).lines().is_empty() || line.fault().is_some() {
        return false;
    }
    loans.set_line(place, line);
    true
}

/// Takes out a line of a loan; whether it is there.
fn drop_line<B: LoanBooks>(loans: &mut Loans<B>, id: u32, line: u32) -> bool {
    let Some(place) = loans.find(id) else {
        return false;
    };
    if !has_line(loans.loan(place), line) {
        return false;
    }
    loans.drop_line(place, line);
    true
}

/// How many lines a loan has.
fn line_count<B: LoanBooks>(loans: &Loans<B>, id: u32) -> Option<usize> {
    let loan = loans.get(id)?;
    Some(loan.lines().len())
}

/// How many lines each of the loans 2, 4 and 6 has.
fn line_counts<B: LoanBooks>(loans: &Loans<B>) -> [Option<usize>; 3] {
    [
        line_count(loans, 2),
        line_count(loans, 4),
        line_count(loans, 6),
    ]
}

/// Whether three calls could be made, and the counts after each of them.
#[derive(Clone, Copy, PartialEq, Eq)]
struct Lines {
    added: bool,
    made: [bool; 3],
    counts: [[Option<usize>; 3]; 3],
}

fn set_and_drop<B: LoanBooks, L: Ledger>(alloc: Global, blank: Blank) -> Lines
    requires name { blank.name ≡ L.name }
    requires parts { blank.parts ≡ L.parts }
    requires some { 0 < L.parts }
{
    let mut steps = Steps::<L>::new(blank);
    let mut loans = Loans::<B>::new(alloc);
    let added = add_even(alloc, &mut loans, 3, &mut steps);
    let fourth = set_first_line(&mut loans, 4, TAX);
    let after_fourth = line_counts(&loans);
    let second = set_first_line(&mut loans, 2, TAX);
    let after_second = line_counts(&loans);
    let dropped = drop_line(&mut loans, 4, 1);
    Lines {
        added,
        made: [fourth, second, dropped],
        counts: [after_fourth, after_second, line_counts(&loans)],
    }
}

const SET_AND_DROPPED: Lines = Lines {
    added: true,
    made: [true, true, true],
    counts: [
        [Some(0), Some(1), Some(0)],
        [Some(1), Some(1), Some(0)],
        [Some(1), Some(0), Some(0)],
    ],
};

#[test]
fn a_line_is_set_on_one_loan_alone(rt: HostRuntime) {
    let lines = set_and_drop::<Checked, Brand>(rt.alloc(), Blank::new(1));
    assert!(rt; lines == SET_AND_DROPPED);
}
