// The plans of SELECT.
use crate::plans::courses::{Case, hold};
use crate::plans::statements::Condition::{SameKey, ValueIs};
use crate::plans::statements::Statement::Select;
use std::test::Fail;

const ONE_KEY: &[Case] = &[
    (
        Select(&[(0, Some(1))], &[]),
        &[],
        &[1, 10],
        "0.1?, 0.1.1?, rows 10;",
    ),
    (Select(&[(0, Some(1))], &[]), &[], &[0], "0.1?, rows"),
];

#[test]
fn reads_one_key(rt: HostRuntime) -> Result<(), Fail> {
    hold(rt.alloc(), ONE_KEY)
}

/// `SELECT v FROM t WHERE v = 5`.
const PRESENCE_FIRST: &[Case] = &[(
    Select(&[(0, None)], &[ValueIs(5)]),
    &[1, 2, 3],
    &[1, 5, 0, 1, 6],
    "scan 0, 0.1?, 0.1.1?, 0.2?, 0.3?, 0.3.1?, rows 5;",
)];

#[test]
fn reads_presence_before_columns(rt: HostRuntime) -> Result<(), Fail> {
    hold(rt.alloc(), PRESENCE_FIRST)
}

/// `SELECT a.v, b.v FROM t a JOIN t b ON a.k = b.k`.
const JOINED: &[Case] = &[(
    Select(&[(0, None), (0, None)], &[SameKey]),
    &[1, 2],
    &[1, 5, 1, 6],
    "scan 0, 0.1?, 0.1.1?, 0.2?, 0.2.1?, rows 5 5; 6 6;",
)];

#[test]
fn reads_a_table_once(rt: HostRuntime) -> Result<(), Fail> {
    hold(rt.alloc(), JOINED)
}

const IN_ORDER: &[Case] = &[(
    Select(&[(1, None), (0, Some(4))], &[]),
    &[2],
    &[1, 7, 1, 8],
    "scan 1, 1.2?, 1.2.1?, 0.4?, 0.4.1?, rows 7 8;",
)];

#[test]
fn reads_tables_in_order(rt: HostRuntime) -> Result<(), Fail> {
    hold(rt.alloc(), IN_ORDER)
}
