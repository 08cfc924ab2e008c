//! Years of bills that were worked out by hand.

use escrow_analysis::{Analysis, analyse};
use svc_base::Cents;

/// 500.00 in July, 360.00 in September and 700.00 in December, from July on.
const THREE_BILLS: [Cents; 12] = [50000, 0, 36000, 0, 0, 70000, 0, 0, 0, 0, 0, 0];

#[test]
fn a_year_of_three_bills(rt: HostRuntime) {
    let analysis = analyse(&THREE_BILLS, 2);
    assert_eq!(rt; analysis.base, 13000);
    assert_eq!(rt; analysis.cushion, 26000);
    assert_eq!(rt; analysis.opening, 104000);
    let trial = [
        -37000, -24000, -47000, -34000, -21000, -78000, -65000, -52000, -39000, -26000, -13000, 0,
    ];
    assert_eq!(rt; analysis.trial, trial);
    let target = [
        67000, 80000, 57000, 70000, 83000, 26000, 39000, 52000, 65000, 78000, 91000, 104000,
    ];
    assert_eq!(rt; analysis.target, target);
}

#[test]
fn a_total_that_twelve_does_not_divide(rt: HostRuntime) {
    let analysis = analyse(&[10003, 0, 0, 0, 0, 0, 0, 0, 0, 0, 0, 0], 2);
    assert_eq!(rt; analysis.base, 833);
    assert_eq!(rt; analysis.cushion, 1667);
    assert_eq!(rt; analysis.opening, 10837);
    assert_eq!(rt; analysis.target[0], 1667);
    assert_eq!(rt; analysis.target[11], 10830);
}

#[test]
fn a_year_without_bills(rt: HostRuntime) {
    let nothing = Analysis {
        base: 0,
        cushion: 0,
        opening: 0,
        trial: [0; 12],
        target: [0; 12],
    };
    assert_eq!(rt; analyse(&[0; 12], 2), nothing);
}
