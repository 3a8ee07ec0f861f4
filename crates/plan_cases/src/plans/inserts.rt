// The plans of INSERT.
use crate::plans::courses::{Case, hold};
use crate::plans::statements::Statement::Insert;
use std::test::Fail;

const BY_THEIR_KEYS: &[Case] = &[(
    Insert(0, &[(2, 20), (1, 10)]),
    &[],
    &[0, 0],
    "0.1?, 0.2?, 0.1=t, 0.1.1=10, 0.2=t, 0.2.1=20, inserted 2",
)];

#[test]
fn writes_rows_by_their_keys(rt: HostRuntime) -> Result<(), Fail> {
    hold(rt.alloc(), BY_THEIR_KEYS)
}

const THERE: &[Case] = &[(
    Insert(0, &[(2, 20), (1, 10)]),
    &[],
    &[1, 0],
    "0.1?, 0.2?, failed S23505",
)];

#[test]
fn refuses_a_key_that_is_there(rt: HostRuntime) -> Result<(), Fail> {
    hold(rt.alloc(), THERE)
}

const TWICE: &[Case] = &[(Insert(0, &[(1, 20), (1, 10)]), &[], &[], "failed S23505")];

#[test]
fn refuses_a_key_twice_before_reading(rt: HostRuntime) -> Result<(), Fail> {
    hold(rt.alloc(), TWICE)
}

const NO_TABLE: &[Case] = &[(Insert(7, &[(1, 10)]), &[], &[], "failed S42P01")];

#[test]
fn refuses_a_table_that_is_not_there(rt: HostRuntime) -> Result<(), Fail> {
    hold(rt.alloc(), NO_TABLE)
}
