// The table of all cases, and expressions over it.
use case_lines::{Lit, boxed, text_of, value_of, values_of};
use cell_base::{Items, Key, Memory, SqlType, Value};
use held_values::{both, kept};
use sql_tree::{Column, Op, Table, TypedExpr, TypedNode};
use std::alloc::Global;

/// The types of the columns k, a, v, b and t, and whether they are never null.
const COLUMNS: [(SqlType, bool); 5] = [
    (SqlType::Integer, true),
    (SqlType::Integer, false),
    (SqlType::Varchar(3), false),
    (SqlType::Integer, true),
    (SqlType::Text, false),
];

fn kind_of(lit: Lit) -> SqlType {
    match lit {
        Lit::Int(n) => {
            if n < 2_147_483_648 {
                SqlType::Integer
            } else {
                SqlType::Bigint
            }
        }
        Lit::Flag(_) => SqlType::Boolean,
        Lit::Null | Lit::Str(_) => SqlType::Text,
    }
}

pub fn constant(alloc: Global, lit: Lit) -> Result<TypedExpr, Memory> {
    Ok(TypedExpr {
        kind: kind_of(lit),
        node: TypedNode::Constant(value_of(alloc, lit)?),
    })
}

/// A column of type integer.
pub fn column(place: u32) -> TypedExpr {
    TypedExpr {
        kind: SqlType::Integer,
        node: TypedNode::Column(0, place),
    }
}

fn binary(
    alloc: Global,
    kind: SqlType,
    op: Op,
    (left, right): (TypedExpr, TypedExpr),
) -> Result<TypedExpr, Memory> {
    let (left, right) = boxed(alloc, left, right)?;
    Ok(TypedExpr {
        kind,
        node: TypedNode::Binary(op, left, right),
    })
}

/// A comparison of a column with an integer.
pub fn compared(alloc: Global, op: Op, place: u32, n: i64) -> Result<TypedExpr, Memory> {
    let right = constant(alloc, Lit::Int(n))?;
    binary(alloc, SqlType::Boolean, op, (column(place), right))
}

/// A sum of a column and an integer.
pub fn sum(alloc: Global, place: u32, n: i64) -> Result<TypedExpr, Memory> {
    let right = constant(alloc, Lit::Int(n))?;
    binary(alloc, SqlType::Integer, Op::Add, (column(place), right))
}

fn ten_by(alloc: Global, place: u32) -> Result<TypedExpr, Memory> {
    let left = constant(alloc, Lit::Int(10))?;
    binary(alloc, SqlType::Integer, Op::Div, (left, column(place)))
}

/// `10 / column > -100`: true where the column isn't 0.
pub fn divides_ten(alloc: Global, place: u32) -> Result<TypedExpr, Memory> {
    let sides = both(ten_by(alloc, place), constant(alloc, Lit::Int(-100)))?;
    binary(alloc, SqlType::Boolean, Op::Gt, sides)
}

fn push_column(
    columns: &mut Items<Column>,
    alloc: Global,
    kind: SqlType,
    not_null: bool,
) -> Result<(), Memory> {
    columns.push(Column {
        name: text_of(alloc, b"c")?,
        kind,
        not_null,
        default: Value::Null,
    })
}

fn push_columns(columns: &mut Items<Column>, alloc: Global) -> Result<(), Memory> {
    for (kind, not_null) in COLUMNS {
        push_column(columns, alloc, kind, not_null)?;
    }
    Ok(())
}

fn columns(alloc: Global) -> Result<Items<Column>, Memory> {
    let mut columns = Items::new(alloc);
    let pushed = push_columns(&mut columns, alloc);
    kept(columns, pushed)
}

fn push_checks(checks: &mut Items<TypedExpr>, alloc: Global) -> Result<(), Memory> {
    checks.push(compared(alloc, Op::Ge, 1, 0)?)?;
    checks.push(divides_ten(alloc, 3)?)
}

fn checks(alloc: Global) -> Result<Items<TypedExpr>, Memory> {
    let mut checks = Items::new(alloc);
    let pushed = push_checks(&mut checks, alloc);
    kept(checks, pushed)
}

/// `(k integer PRIMARY KEY, a integer, v varchar(3), b integer NOT NULL, t text, CHECK (a >= 0), CHECK (10 / b > -100))`, or
/// with t for its key.
pub fn table(alloc: Global, key: u32) -> Result<Table, Memory> {
    let (columns, rest) = both(columns(alloc), both(checks(alloc), text_of(alloc, b"t")))?;
    let (checks, name) = rest;
    Ok(Table {
        name,
        columns,
        key,
        checks,
    })
}

fn push_constants(exprs: &mut Items<TypedExpr>, alloc: Global, lits: &[Lit]) -> Result<(), Memory> {
    for lit in lits {
        exprs.push(constant(alloc, *lit)?)?;
    }
    Ok(())
}

/// Constants, one after another.
pub fn constants(alloc: Global, lits: &[Lit]) -> Result<Items<TypedExpr>, Memory> {
    let mut exprs = Items::new(alloc);
    let pushed = push_constants(&mut exprs, alloc, lits);
    kept(exprs, pushed)
}

fn push_rows(
    exprs: &mut Items<Items<TypedExpr>>,
    alloc: Global,
    rows: &[&[Lit]],
) -> Result<(), Memory> {
    for row in rows {
        exprs.push(constants(alloc, row)?)?;
    }
    Ok(())
}

/// The rows of VALUES.
pub fn rows_of(alloc: Global, rows: &[&[Lit]]) -> Result<Items<Items<TypedExpr>>, Memory> {
    let mut exprs = Items::new(alloc);
    let pushed = push_rows(&mut exprs, alloc, rows);
    kept(exprs, pushed)
}

fn push_shown(
    shown: &mut Items<(Key, Items<Value>)>,
    alloc: Global,
    rows: &[(i64, &[Lit])],
) -> Result<(), Memory> {
    for (key, row) in rows {
        shown.push((Key::Int(*key), values_of(alloc, row)?))?;
    }
    Ok(())
}

/// The rows that a statement was shown, with integers for keys.
pub fn shown_to(
    alloc: Global,
    rows: &[(i64, &[Lit])],
) -> Result<Items<(Key, Items<Value>)>, Memory> {
    let mut shown = Items::new(alloc);
    let pushed = push_shown(&mut shown, alloc, rows);
    kept(shown, pushed)
}
