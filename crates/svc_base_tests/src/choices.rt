//! The spelling of choices.

use svc_types::{
    Designation, LineKind, PartPlan, RemitType, SurplusPlan, read_designation, read_kind,
    read_part, read_surplus, read_type,
};

#[test]
fn types_have_one_spelling(rt: HostRuntime) {
    for (text, want) in [
        ("AA", Some(RemitType::AA)),
        ("SA", Some(RemitType::SA)),
        ("SS", Some(RemitType::SS)),
        ("AS", None),
        ("aa", None),
        ("", None),
    ] {
        assert_eq!(rt; read_type(text.as_bytes()), want);
    }
}

#[test]
fn kinds_have_one_spelling(rt: HostRuntime) {
    for (text, want) in [
        ("tax", Some(LineKind::Tax)),
        ("hazard", Some(LineKind::Hazard)),
        ("flood", Some(LineKind::Flood)),
        ("other", Some(LineKind::Other)),
        ("Tax", None),
        ("others", None),
    ] {
        assert_eq!(rt; read_kind(text.as_bytes()), want);
    }
}

#[test]
fn choices_for_a_surplus_have_one_spelling(rt: HostRuntime) {
    for (text, want) in [
        ("-", Some(SurplusPlan::Unsaid)),
        ("refund", Some(SurplusPlan::Refund)),
        ("credit", Some(SurplusPlan::Credit)),
        ("retain", Some(SurplusPlan::Retain)),
        ("leave", None),
        ("", None),
    ] {
        assert_eq!(rt; read_surplus(text.as_bytes()), want);
    }
}

#[test]
fn choices_for_a_part_have_one_spelling(rt: HostRuntime) {
    for (text, want) in [
        ("-", Some(PartPlan::Unsaid)),
        ("leave", Some(PartPlan::Leave)),
        ("within30", Some(PartPlan::Within30)),
        ("spread:12", Some(PartPlan::Spread(12))),
        ("spread:0", Some(PartPlan::Spread(0))),
        ("spread:012", None),
        ("spread:", None),
        ("spread:4294967296", None),
        ("spread", None),
        ("within31", None),
    ] {
        assert_eq!(rt; read_part(text.as_bytes()), want);
    }
}

#[test]
fn designations_have_one_spelling(rt: HostRuntime) {
    assert_eq!(rt;
        read_designation(b"principal"),
        Some(Designation::Principal)
    );
    assert_eq!(rt; read_designation(b"escrow"), Some(Designation::Escrow));
    for other in [b"regular".as_slice(), b"", b"Principal", b"escrow "] {
        assert_eq!(rt; read_designation(other), None);
    }
}
