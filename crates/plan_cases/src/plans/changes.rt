// The plans of UPDATE and DELETE.
use crate::plans::courses::{Case, hold};
use crate::plans::statements::Condition::ValueIs;
use crate::plans::statements::Statement::{Delete, Update};
use std::test::Fail;

const UPDATED: &[Case] = &[
    (
        Update(1),
        &[],
        &[1, 10],
        "0.1?, 0.1.1?, 0.1.1=11, updated 1",
    ),
    (Update(1), &[], &[0], "0.1?, updated 0"),
];

#[test]
fn writes_assigned_columns(rt: HostRuntime) -> Result<(), Fail> {
    hold(rt.alloc(), UPDATED)
}

const DELETED: &[Case] = &[(
    Delete(ValueIs(5)),
    &[1, 2],
    &[1, 5, 1, 6],
    "scan 0, 0.1?, 0.1.1?, 0.2?, 0.2.1?, 0.1=f, deleted 1",
)];

#[test]
fn writes_absence(rt: HostRuntime) -> Result<(), Fail> {
    hold(rt.alloc(), DELETED)
}
