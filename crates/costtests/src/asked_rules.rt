// Tests on a job of three sheets: rows 3, 6 and 1, dues 2, none and 3.
use crate::cases::A;
use crate::tests::read;
use rules::{Due, Limit, Open, Rule, within_places};
use sets::{OrderSet, Rows, SheetSet};
use std::test::Fail;

fn open() -> Open {
    let mut rows = Rows::first(OrderSet::from_le_bytes(&[3]));
    let _ = rows.add(OrderSet::from_le_bytes(&[6]));
    let _ = rows.add(OrderSet::from_le_bytes(&[1]));
    Open::new(rows)
}

// The answer of a rule, the done set given by its number.
fn ask<R: Rule>(rule: &R, bits: u32, next: u8) -> Option<u16> {
    rule.ask(SheetSet { bits }, next).figure
}

// The answers along the sequence 1, 2, 0.
fn along<R: Rule>(rule: &R) -> [Option<u16>; 3] {
    [ask(rule, 0, 1), ask(rule, 2, 2), ask(rule, 6, 0)]
}

#[test]
fn figures_of_open(rt: HostRuntime) {
    let rule = open();
    assert_eq!(rt; rule.sheets(), 3);
    assert!(rt; along(&rule) == [Some(2), Some(2), Some(2)]);
    for (done, next) in [
        (0, 3),
        (2, 1),
        (8, 1),
        (0, 255),
        (0xffffffff, 0),
        (0xffffffff, 40),
    ] {
        assert!(rt; ask(&rule, done, next) == None);
    }
}

#[test]
fn figures_of_limits(rt: HostRuntime) {
    assert!(rt; along(&Limit::new(0, open())) == [None, None, None]);
    assert!(rt; along(&Limit::new(1, open())) == [None, None, None]);
    let two = Limit::new(2, open());
    assert_eq!(rt; two.sheets(), 3);
    assert!(rt; along(&two) == [Some(2), Some(2), Some(2)]);
    assert!(rt; ask(&two, 2, 1) == None);
    assert!(rt; along(&Limit::new(65535, two)) == [Some(2), Some(2), Some(2)]);
}

#[test]
fn rules_of_a_job(rt: HostRuntime) -> Result<(), Fail> {
    let job = read(rt.alloc(), &A)?;
    let due = Due::of(&job);
    assert_eq!(rt; due.sheets(), 3);
    assert!(rt; along(&due) == [Some(0), Some(0), Some(1)]);
    assert!(rt; ask(&due, 2, 1) == None && ask(&due, 0, 3) == None);
    assert!(rt; ask(&due, 0xffffffff, 0) == None);
    assert!(rt; along(&Open::of(&job)) == [Some(2), Some(2), Some(2)]);
    assert!(rt; along(&within_places(&job, 2)) == [Some(2), Some(2), Some(2)]);
    assert!(rt; along(&within_places(&job, 1)) == [None, None, None]);
    Ok(())
}
