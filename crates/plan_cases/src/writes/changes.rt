// The changes that an UPDATE or a DELETE makes.
use crate::writes::changes::Filter::{All, Compared, DividesTen};
use crate::writes::changes::Term::{Constant, Field, Sum};
use crate::writes::changes::Verb::{Delete, Update};
use crate::writes::shown;
use crate::writes::trees::{column, compared, constant, divides_ten, shown_to, sum, table};
use case_lines::Lit::{Int, Null, Str};
use case_lines::{Lit, fault_shown, is};
use cell_base::{Items, Key, Memory, Value};
use held_values::{both, kept, without};
use row_writes::changes_of;
use sql_tree::{Op, Table, TypedChange, TypedExpr};
use std::alloc::{AllocError, Global};
use std::test::Fail;

/// The condition of a statement.
#[derive(Clone, Copy)]
enum Filter {
    /// None.
    All,
    /// A comparison of a column with an integer.
    Compared(Op, u32, i64),
    /// `10 / column > -100`.
    DividesTen(u32),
}

/// What is assigned.
#[derive(Clone, Copy)]
enum Term {
    Constant(Lit),
    Field(u32),
    Sum(u32, i64),
}

/// A statement without its condition: the assigned columns, in text order.
#[derive(Clone, Copy)]
enum Verb {
    Update(&'static [(u32, Term)]),
    Delete,
}

/// A statement, and its changes or the code's name.
type Case = (Verb, Filter, &'static str);

type Row = (i64, &'static [Lit]);

/// The rows that each statement was shown: keys 1, 2 and 3.
const SHOWN: &[Row] = &[
    (1, &[Int(1), Int(5), Str("ab"), Int(7), Null]),
    (2, &[Int(2), Null, Null, Int(1), Str("x")]),
    (3, &[Int(3), Int(0), Str("c"), Int(-2), Null]),
];

/// The changes, or the code's name.
fn answer(
    alloc: Global,
    table: &Table,
    change: &TypedChange,
    rows: &[(Key, Items<Value>)],
) -> Result<String, AllocError> {
    match changes_of(alloc, table, change, rows) {
        Ok(made) => shown::changes(alloc, made.as_slice()),
        Err(fault) => fault_shown(alloc, fault),
    }
}

fn filter_of(alloc: Global, filter: Filter) -> Result<Option<TypedExpr>, Memory> {
    match filter {
        All => Ok(None),
        Compared(op, place, n) => Ok(Some(compared(alloc, op, place, n)?)),
        DividesTen(place) => Ok(Some(divides_ten(alloc, place)?)),
    }
}

fn term_of(alloc: Global, term: Term) -> Result<TypedExpr, Memory> {
    match term {
        Constant(lit) => constant(alloc, lit),
        Field(place) => Ok(column(place)),
        Sum(place, n) => sum(alloc, place, n),
    }
}

fn assign(
    assigned: &mut Items<(u32, TypedExpr)>,
    alloc: Global,
    set: &[(u32, Term)],
) -> Result<(), Memory> {
    for (column, term) in set {
        assigned.push((*column, term_of(alloc, *term)?))?;
    }
    Ok(())
}

fn set_of(alloc: Global, set: &[(u32, Term)]) -> Result<Items<(u32, TypedExpr)>, Memory> {
    let mut assigned = Items::new(alloc);
    let done = assign(&mut assigned, alloc, set);
    kept(assigned, done)
}

fn change(
    alloc: Global,
    filter: Filter,
    set: &[(u32, Term)],
    delete: bool,
) -> Result<TypedChange, Memory> {
    let (filter, set) = both(filter_of(alloc, filter), set_of(alloc, set))?;
    Ok(TypedChange {
        table: 0,
        point: None,
        mentioned: Items::new(alloc),
        filter,
        set,
        delete,
    })
}

fn change_of(alloc: Global, verb: Verb, filter: Filter) -> Result<TypedChange, Memory> {
    match verb {
        Update(set) => change(alloc, filter, set, false),
        Delete => change(alloc, filter, &[], true),
    }
}

fn answer_over(alloc: Global, rows: &[Row], verb: Verb, filter: Filter) -> Result<String, Memory> {
    let scene = both(table(alloc, 0), shown_to(alloc, rows));
    let (change, scene) = both(change_of(alloc, verb, filter), scene)?;
    let given = answer(alloc, &scene.0, &change, scene.1.as_slice());
    Ok(without((change, scene), given)?)
}

fn hold(alloc: Global, rows: &[Row], cases: &[Case]) -> Result<(), Fail> {
    for (place, (verb, filter, want)) in cases.iter().enumerate() {
        is(place, answer_over(alloc, rows, *verb, *filter), want)?;
    }
    Ok(())
}

/// `SET b = a, a = a + 1 WHERE k < 2`.
const OLD_ROW: &[Case] = &[(
    Update(&[(3, Field(1)), (1, Sum(1, 1))]),
    Compared(Op::Lt, 0, 2),
    "1: 1=6 3=5;",
)];

#[test]
fn assigns_over_the_old_row(rt: HostRuntime) -> Result<(), Fail> {
    hold(rt.alloc(), SHOWN, OLD_ROW)
}

const T_N: Verb = Update(&[(4, Constant(Str("n")))]);

const WHERE: &[Case] = &[
    (T_N, All, "1: 4=n;2: 4=n;3: 4=n;"),
    (T_N, Compared(Op::Ge, 1, 0), "1: 4=n;3: 4=n;"),
    (T_N, Compared(Op::Gt, 1, 9), ""),
];

#[test]
fn keeps_the_rows_for_which_where_is_true(rt: HostRuntime) -> Result<(), Fail> {
    hold(rt.alloc(), SHOWN, WHERE)
}

/// `WHERE 10 / a > -100`, which fails at the third row; the assignment fails at the first.
const WHERE_FIRST: &[Case] = &[(
    Update(&[(2, Constant(Str("abcd")))]),
    DividesTen(1),
    "S22012",
)];

#[test]
fn evaluates_where_for_all_rows_first(rt: HostRuntime) -> Result<(), Fail> {
    hold(rt.alloc(), SHOWN, WHERE_FIRST)
}

const WIDE: (u32, Term) = (1, Constant(Int(2147483648)));

const LONG: (u32, Term) = (2, Constant(Str("abcd")));

const CONVERTED: &[Case] = &[
    (Update(&[WIDE, LONG]), All, "S22003"),
    (Update(&[LONG, WIDE]), All, "S22001"),
    (
        Update(&[(2, Constant(Str("abc  ")))]),
        Compared(Op::Lt, 0, 2),
        "1: 2=abc;",
    ),
];

#[test]
fn converts_in_text_order(rt: HostRuntime) -> Result<(), Fail> {
    hold(rt.alloc(), SHOWN, CONVERTED)
}

const NULL_B: (u32, Term) = (3, Constant(Null));

const NEGATIVE_A: (u32, Term) = (1, Constant(Int(-1)));

const TESTED: &[Case] = &[
    (Update(&[NULL_B]), All, "S23502"),
    (Update(&[NEGATIVE_A]), All, "S23514"),
    (Update(&[NEGATIVE_A, NULL_B]), All, "S23502"),
    (Update(&[(3, Constant(Int(0)))]), All, "S22012"),
    (Update(&[(1, Constant(Null))]), All, "1: 1=-;2: 1=-;3: 1=-;"),
];

#[test]
fn tests_what_is_assigned(rt: HostRuntime) -> Result<(), Fail> {
    hold(rt.alloc(), SHOWN, TESTED)
}

/// A row as a statement that reads neither a nor b is shown it: b is null there, and a isn't what the CHECK allows.
const PARTLY_READ: &[Row] = &[(9, &[Int(9), Int(-4), Null, Null, Null])];

const PARTLY_UPDATED: &[Case] = &[
    (Update(&[(2, Constant(Str("x")))]), All, "9: 2=x;"),
    (Update(&[(1, Constant(Int(3)))]), All, "9: 1=3;"),
    (Update(&[(3, Constant(Int(2)))]), All, "9: 3=2;"),
    (Update(&[(3, Constant(Int(0)))]), All, "S22012"),
];

#[test]
fn leaves_out_what_mentions_no_assigned_column(rt: HostRuntime) -> Result<(), Fail> {
    hold(rt.alloc(), PARTLY_READ, PARTLY_UPDATED)
}

const DELETED: &[Case] = &[
    (Delete, All, "1:;2:;3:;"),
    (Delete, Compared(Op::Eq, 1, 0), "3:;"),
    (Delete, DividesTen(1), "S22012"),
];

#[test]
fn deletes_rows_without_fields(rt: HostRuntime) -> Result<(), Fail> {
    hold(rt.alloc(), SHOWN, DELETED)
}
