// What no clause says of `eval`: that a call with ample memory succeeds, and values worked out by hand.
use crate::values::cases::{
    AMONG, COLUMNS, CONJUNCTIONS, Case, DENIED, DISJUNCTIONS, GUARDED, NULL_TESTS, OF_BIGINT,
    OF_FAULTS, OF_FLAGS, OF_INTEGER, OF_NULL, OF_NUMBERS, OF_TEXTS, OneCase, Operation, SIGNED,
};
use crate::values::samples::shown;
use crate::values::trees::{
    among, among_failing, binary, constant, equality, failing, integer, of_one, operation,
};
use case_lines::{Lit, is_in, text_of};
use cell_base::{Items, Memory, SqlType, Value};
use expr_eval::eval;
use held_values::{both, kept, without};
use sql_tree::{Op, TypedExpr, TypedNode};
use std::alloc::Global;
use std::test::Fail;

/// What the expression gives over no row.
fn given(alloc: Global, expr: Result<TypedExpr, Memory>) -> Result<String, Memory> {
    let expr = expr?;
    let answer = eval(alloc, &expr, &[]);
    without(expr, shown(alloc, answer))
}

fn operation_given(alloc: Global, case: &Case) -> Result<String, Memory> {
    let (op, kind, left, right, _) = *case;
    given(alloc, operation(alloc, (op, kind, left, right)))
}

fn are_given(alloc: Global, table: &str, cases: &[Case]) -> Result<(), Fail> {
    for (place, case) in cases.iter().enumerate() {
        is_in(table, place, operation_given(alloc, case), case.4)?;
    }
    Ok(())
}

#[test]
fn computes(rt: HostRuntime) -> Result<(), Fail> {
    are_given(rt.alloc(), "integer", OF_INTEGER)?;
    are_given(rt.alloc(), "bigint", OF_BIGINT)?;
    are_given(rt.alloc(), "null", OF_NULL)
}

#[test]
fn compares(rt: HostRuntime) -> Result<(), Fail> {
    are_given(rt.alloc(), "numbers", OF_NUMBERS)?;
    are_given(rt.alloc(), "texts", OF_TEXTS)?;
    are_given(rt.alloc(), "flags", OF_FLAGS)
}

#[test]
fn joins_conditions(rt: HostRuntime) -> Result<(), Fail> {
    are_given(rt.alloc(), "AND", CONJUNCTIONS)?;
    are_given(rt.alloc(), "OR", DISJUNCTIONS)
}

/// `FLAG AND 1 / 0 = 1`, and the same with another operator.
fn guarded(alloc: Global, flag: bool, op: Op) -> Result<String, Memory> {
    let guard = constant(alloc, SqlType::Boolean, Lit::Flag(flag));
    given(
        alloc,
        binary(alloc, SqlType::Boolean, op, guard, failing(alloc)),
    )
}

#[test]
fn evaluates_both_operands(rt: HostRuntime) -> Result<(), Fail> {
    for (place, (flag, op, want)) in GUARDED.iter().enumerate() {
        is_in("guarded", place, guarded(rt.alloc(), *flag, *op), want)?;
    }
    Ok(())
}

fn compared(alloc: Global, left: Operation, right: Operation) -> Result<String, Memory> {
    let left = operation(alloc, left);
    given(alloc, equality(alloc, left, operation(alloc, right)))
}

#[test]
fn evaluates_the_left_operand_first(rt: HostRuntime) -> Result<(), Fail> {
    for (place, (left, right, want)) in OF_FAULTS.iter().enumerate() {
        is_in("faults", place, compared(rt.alloc(), *left, *right), want)?;
    }
    Ok(())
}

/// `5 = 5000000000`, of an integer and a bigint.
fn mixed(alloc: Global) -> Result<String, Memory> {
    let big = constant(alloc, SqlType::Bigint, Lit::Int(5_000_000_000));
    given(alloc, equality(alloc, integer(alloc, 5), big))
}

/// An integer and a bigint.
#[test]
fn takes_two_types_of_number(rt: HostRuntime) -> Result<(), Fail> {
    is_in("mixed", 0, mixed(rt.alloc()), "f")
}

fn one_given(alloc: Global, case: &OneCase) -> Result<String, Memory> {
    let (form, kind, lit, _) = *case;
    given(alloc, of_one(alloc, form, kind, lit))
}

fn are_given_of_one(alloc: Global, table: &str, cases: &[OneCase]) -> Result<(), Fail> {
    for (place, case) in cases.iter().enumerate() {
        is_in(table, place, one_given(alloc, case), case.3)?;
    }
    Ok(())
}

#[test]
fn takes_a_sign(rt: HostRuntime) -> Result<(), Fail> {
    are_given_of_one(rt.alloc(), "signed", SIGNED)
}

#[test]
fn denies(rt: HostRuntime) -> Result<(), Fail> {
    are_given_of_one(rt.alloc(), "NOT", DENIED)
}

#[test]
fn tests_for_null(rt: HostRuntime) -> Result<(), Fail> {
    are_given_of_one(rt.alloc(), "IS NULL", NULL_TESTS)
}

fn found_among(alloc: Global, left: Lit, members: &[Lit], negated: bool) -> Result<String, Memory> {
    given(alloc, among(alloc, left, members, negated))
}

#[test]
fn looks_among_members(rt: HostRuntime) -> Result<(), Fail> {
    for (place, (left, members, negated, want)) in AMONG.iter().enumerate() {
        let found = found_among(rt.alloc(), *left, members, *negated);
        is_in("among", place, found, want)?;
    }
    Ok(())
}

/// `1 IN (1, 1 / 0)`: the member after one that is equal is evaluated too.
#[test]
fn evaluates_all_members(rt: HostRuntime) -> Result<(), Fail> {
    is_in(
        "among",
        0,
        given(rt.alloc(), among_failing(rt.alloc())),
        "S22012",
    )
}

// ---- columns

fn push_first(entry: &mut Items<Value>, alloc: Global) -> Result<(), Memory> {
    entry.push(Value::Int(7))?;
    entry.push(Value::Text(text_of(alloc, b"ab")?))?;
    entry.push(Value::Unset)
}

/// 7, a text and an unset value.
fn first_entry(alloc: Global) -> Result<Items<Value>, Memory> {
    let mut entry = Items::new(alloc);
    let pushed = push_first(&mut entry, alloc);
    kept(entry, pushed)
}

fn push_second(entry: &mut Items<Value>) -> Result<(), Memory> {
    entry.push(Value::Int(3_000_000_000))?;
    entry.push(Value::Flag(true))
}

/// 3000000000 and true.
fn second_entry(alloc: Global) -> Result<Items<Value>, Memory> {
    let mut entry = Items::new(alloc);
    let pushed = push_second(&mut entry);
    kept(entry, pushed)
}

/// The value of a column over these entries of FROM.
fn column_over(
    alloc: Global,
    kind: SqlType,
    entry: u32,
    place: u32,
    entries: &[&[Value]],
) -> Result<String, Memory> {
    let node = TypedNode::Column(entry, place);
    given_over(alloc, TypedExpr { kind, node }, entries)
}

fn given_over(alloc: Global, expr: TypedExpr, entries: &[&[Value]]) -> Result<String, Memory> {
    let answer = eval(alloc, &expr, entries);
    without(expr, shown(alloc, answer))
}

fn column(alloc: Global, kind: SqlType, entry: u32, place: u32) -> Result<String, Memory> {
    let (first, second) = both(first_entry(alloc), second_entry(alloc))?;
    let entries = [first.as_slice(), second.as_slice()];
    let given = column_over(alloc, kind, entry, place, &entries);
    without((first, second), given)
}

#[test]
fn reads_columns(rt: HostRuntime) -> Result<(), Fail> {
    for (place, (kind, entry, number, want)) in COLUMNS.iter().enumerate() {
        is_in(
            "columns",
            place,
            column(rt.alloc(), *kind, *entry, *number),
            want,
        )?;
    }
    Ok(())
}
