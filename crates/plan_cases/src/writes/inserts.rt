// The rows that an INSERT makes.
use crate::writes::shown;
use crate::writes::trees::{constants, rows_of, table};
use case_lines::Lit::{Int, Null, Str};
use case_lines::{Lit, fault_shown, is, text_of};
use cell_base::{Items, Memory, SqlType, Text, Value};
use held_values::{both, kept, without};
use row_writes::rows_to_insert;
use sql_tree::{Table, TypedExpr, TypedNode};
use std::alloc::{AllocError, Global};
use std::test::Fail;

/// The rows of VALUES, and the rows that are made or the code's name.
type Case = (&'static [&'static [Lit]], &'static str);

/// The rows, or the code's name.
fn answer(alloc: Global, table: &Table, rows: &[Items<TypedExpr>]) -> Result<String, AllocError> {
    match rows_to_insert(alloc, table, rows) {
        Ok(made) => shown::rows(alloc, made.as_slice()),
        Err(fault) => fault_shown(alloc, fault),
    }
}

fn answer_over(
    alloc: Global,
    key: u32,
    rows: Result<Items<Items<TypedExpr>>, Memory>,
) -> Result<String, Memory> {
    let (rows, table) = both(rows, table(alloc, key))?;
    let given = answer(alloc, &table, rows.as_slice());
    Ok(without((rows, table), given)?)
}

/// Inserts into the table with this column for its key.
fn hold(alloc: Global, key: u32, cases: &[Case]) -> Result<(), Fail> {
    for (place, (rows, want)) in cases.iter().enumerate() {
        is(place, answer_over(alloc, key, rows_of(alloc, rows)), want)?;
    }
    Ok(())
}

const OF_KEYS: &[Case] = &[(
    &[
        &[Int(20), Int(5), Str("ab"), Int(7), Str("x")],
        &[Int(-3), Null, Str(""), Int(1), Null],
        &[Int(4), Int(0), Str("abc  "), Int(-1), Str("y z")],
    ],
    "-3: -3 -  1 -;4: 4 0 abc -1 y z;20: 20 5 ab 7 x;",
)];

#[test]
fn makes_rows_in_the_order_of_keys(rt: HostRuntime) -> Result<(), Fail> {
    hold(rt.alloc(), 0, OF_KEYS)
}

const OF_TEXTS: &[Case] = &[(
    &[
        &[Int(1), Null, Null, Int(1), Str("b")],
        &[Int(1), Null, Null, Int(1), Str("aa")],
        &[Int(1), Null, Null, Int(1), Str("B")],
    ],
    "B: 1 - - 1 B;aa: 1 - - 1 aa;b: 1 - - 1 b;",
)];

#[test]
fn orders_texts_by_bytes(rt: HostRuntime) -> Result<(), Fail> {
    hold(rt.alloc(), 4, OF_TEXTS)
}

const NULL_KEY: &[Case] = &[(&[&[Int(1), Null, Null, Int(1), Null]], "S23502")];

/// The key of this table isn't marked NOT NULL, and is never null all the same.
#[test]
fn refuses_a_null_key(rt: HostRuntime) -> Result<(), Fail> {
    hold(rt.alloc(), 4, NULL_KEY)
}

const CONVERTED: &[Case] = &[
    (
        &[&[Int(1), Int(2147483647), Null, Int(1), Null]],
        "1: 1 2147483647 - 1 -;",
    ),
    (&[&[Int(1), Int(2147483648), Null, Int(1), Null]], "S22003"),
    (&[&[Int(1), Null, Str("abcd"), Int(1), Null]], "S22001"),
    (
        &[&[Int(1), Int(2147483648), Str("abcd"), Int(1), Null]],
        "S22003",
    ),
    (
        &[&[Int(1), Null, Str("abcd"), Int(2147483648), Null]],
        "S22001",
    ),
    (&[&[Int(1), Str("5"), Null, Int(1), Null]], "S42804"),
];

#[test]
fn converts_values(rt: HostRuntime) -> Result<(), Fail> {
    hold(rt.alloc(), 0, CONVERTED)
}

const TESTED: &[Case] = &[
    (&[&[Int(1), Null, Null, Null, Null]], "S23502"),
    (&[&[Null, Null, Null, Int(1), Null]], "S23502"),
    (&[&[Null, Null, Str("abcd"), Null, Null]], "S22001"),
    (&[&[Int(1), Int(-1), Null, Int(1), Null]], "S23514"),
    (&[&[Int(1), Int(-1), Null, Null, Null]], "S23502"),
    (&[&[Int(1), Int(1), Null, Int(0), Null]], "S22012"),
    (&[&[Int(1), Int(-1), Null, Int(0), Null]], "S23514"),
    (&[&[Int(1), Null, Null, Int(0), Null]], "S22012"),
];

#[test]
fn tests_a_row_after_its_conversions(rt: HostRuntime) -> Result<(), Fail> {
    hold(rt.alloc(), 0, TESTED)
}

const PLAIN: &[Lit] = &[Int(1), Null, Null, Int(1), Null];

const OTHER: &[Lit] = &[Int(2), Null, Null, Int(1), Null];

const REFUSED: &[Lit] = &[Int(3), Int(-1), Null, Int(1), Null];

const WIDE: &[Lit] = &[Int(4), Int(2147483648), Null, Int(1), Null];

const TWICE: &[Case] = &[
    (&[PLAIN, PLAIN], "S23505"),
    (&[PLAIN, OTHER, PLAIN], "S23505"),
    (&[OTHER, PLAIN, OTHER, PLAIN], "S23505"),
    (&[PLAIN, PLAIN, REFUSED], "S23514"),
    (&[REFUSED, WIDE], "S23514"),
    (&[WIDE, REFUSED], "S22003"),
    (&[], ""),
];

#[test]
fn refuses_a_key_that_stands_twice(rt: HostRuntime) -> Result<(), Fail> {
    hold(rt.alloc(), 0, TWICE)
}

fn long_text(alloc: Global, bytes: usize) -> Result<Text, Memory> {
    let bytes = vec![in alloc; b'a'; bytes]?;
    text_of(alloc, &bytes)
}

fn push_text(row: &mut Items<TypedExpr>, text: Result<Text, Memory>) -> Result<(), Memory> {
    row.push(TypedExpr {
        kind: SqlType::Text,
        node: TypedNode::Constant(Value::Text(text?)),
    })
}

/// A row with a text of so many bytes for t.
fn long_row(alloc: Global, bytes: usize) -> Result<Items<TypedExpr>, Memory> {
    let mut row = constants(alloc, &[Int(1), Null, Null, Int(1)])?;
    let pushed = push_text(&mut row, long_text(alloc, bytes));
    kept(row, pushed)
}

fn long_rows(alloc: Global, bytes: usize) -> Result<Items<Items<TypedExpr>>, Memory> {
    let row = long_row(alloc, bytes)?;
    let mut rows = Items::new(alloc);
    let pushed = rows.push(row);
    kept(rows, pushed)
}

fn long_inserted(alloc: Global, bytes: usize) -> Result<String, Memory> {
    answer_over(alloc, 0, long_rows(alloc, bytes))
}

fn long_length(alloc: Global, bytes: usize) -> Result<usize, Memory> {
    Ok(long_inserted(alloc, bytes)?.len())
}

/// A text may have 65,536 bytes; 12 more stand round it.
#[test]
fn bounds_the_bytes_of_a_text(rt: HostRuntime) -> Result<(), Fail> {
    assert_eq!(rt; long_length(rt.alloc(), 65_536)?, 65_548);
    is(65_537usize, long_inserted(rt.alloc(), 65_537), "S54000")
}
