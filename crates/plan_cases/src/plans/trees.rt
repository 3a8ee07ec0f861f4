// The tables of all cases, and expressions over them.
use case_lines::{boxed, text_of};
use cell_base::{Items, Memory, SqlType, Value};
use held_values::{both, kept};
use sql_tree::{Column, Op, Table, TypedExpr, TypedNode};
use std::alloc::Global;

fn push_column(
    columns: &mut Items<Column>,
    alloc: Global,
    name: &[u8],
    not_null: bool,
) -> Result<(), Memory> {
    columns.push(Column {
        name: text_of(alloc, name)?,
        kind: SqlType::Bigint,
        not_null,
        default: Value::Null,
    })
}

fn push_columns(columns: &mut Items<Column>, alloc: Global) -> Result<(), Memory> {
    push_column(columns, alloc, b"k", true)?;
    push_column(columns, alloc, b"v", false)
}

fn columns(alloc: Global) -> Result<Items<Column>, Memory> {
    let mut columns = Items::new(alloc);
    let pushed = push_columns(&mut columns, alloc);
    kept(columns, pushed)
}

/// `CREATE TABLE t (k bigint PRIMARY KEY, v bigint)`.
fn table(alloc: Global) -> Result<Table, Memory> {
    let (columns, name) = both(columns(alloc), text_of(alloc, b"t"))?;
    Ok(Table {
        name,
        columns,
        key: 0,
        checks: Items::new(alloc),
    })
}

fn push_tables(tables: &mut Items<Table>, alloc: Global) -> Result<(), Memory> {
    tables.push(table(alloc)?)?;
    tables.push(table(alloc)?)
}

/// Two tables.
pub fn two_tables(alloc: Global) -> Result<Items<Table>, Memory> {
    let mut tables = Items::new(alloc);
    let pushed = push_tables(&mut tables, alloc);
    kept(tables, pushed)
}

/// A column of an entry of FROM.
pub fn column(entry: u32, place: u32) -> TypedExpr {
    TypedExpr {
        kind: SqlType::Bigint,
        node: TypedNode::Column(entry, place),
    }
}

/// An integer.
pub fn integer(n: i64) -> TypedExpr {
    TypedExpr {
        kind: SqlType::Bigint,
        node: TypedNode::Constant(Value::Int(n)),
    }
}

/// `left = right`.
pub fn equal(alloc: Global, left: TypedExpr, right: TypedExpr) -> Result<TypedExpr, Memory> {
    let (left, right) = boxed(alloc, left, right)?;
    Ok(TypedExpr {
        kind: SqlType::Boolean,
        node: TypedNode::Binary(Op::Eq, left, right),
    })
}

/// `left + right`.
pub fn sum(alloc: Global, left: TypedExpr, right: TypedExpr) -> Result<TypedExpr, Memory> {
    let (left, right) = boxed(alloc, left, right)?;
    Ok(TypedExpr {
        kind: SqlType::Bigint,
        node: TypedNode::Binary(Op::Add, left, right),
    })
}
