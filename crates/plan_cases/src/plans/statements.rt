// Statements over the tables.
use crate::plans::trees::{column, equal, integer, sum};
use case_lines::text_of;
use cell_base::{Items, Key, Memory, SqlType};
use held_values::{both, kept};
use sql_tree::{OutField, Typed, TypedChange, TypedExpr, TypedInsert, TypedSelect};
use std::alloc::Global;

/// A condition.
#[derive(Clone, Copy)]
pub enum Condition {
    /// The columns k of two entries are the same.
    SameKey,
    /// `k = ..` of the first entry.
    KeyIs(i64),
    /// `v = ..` of the first entry.
    ValueIs(i64),
}

/// A statement.
#[derive(Clone, Copy)]
pub enum Statement {
    /// `SELECT a.v, b.v, .. FROM .. WHERE ..` over entries of these tables, each scanned or read at a key.
    Select(&'static [(u32, Option<i64>)], &'static [Condition]),
    /// `INSERT INTO .. VALUES ..` of a table's number and rows.
    Insert(u32, &'static [(i64, i64)]),
    /// `UPDATE t SET v = v + 1 WHERE k = ..`.
    Update(i64),
    /// `DELETE FROM t WHERE ..`.
    Delete(Condition),
}

/// The statement with its types.
pub fn typed_of(alloc: Global, statement: Statement) -> Result<Typed, Memory> {
    match statement {
        Statement::Select(entries, conditions) => {
            Ok(Typed::Select(select(alloc, entries, conditions)?))
        }
        Statement::Insert(table, rows) => Ok(Typed::Insert(insert(alloc, table, rows)?)),
        Statement::Update(key) => Ok(Typed::Change(update(alloc, key)?)),
        Statement::Delete(condition) => Ok(Typed::Change(delete(alloc, condition)?)),
    }
}

fn condition_of(alloc: Global, condition: Condition) -> Result<TypedExpr, Memory> {
    match condition {
        Condition::SameKey => equal(alloc, column(0, 0), column(1, 0)),
        Condition::KeyIs(n) => equal(alloc, column(0, 0), integer(n)),
        Condition::ValueIs(n) => equal(alloc, column(0, 1), integer(n)),
    }
}

/// The number of the column v, which all statements mention.
fn mentioned(alloc: Global) -> Result<Items<u32>, Memory> {
    Items::from_slice(alloc, &[1])
}

fn key_of(point: Option<i64>) -> Option<Key> {
    match point {
        Some(n) => Some(Key::Int(n)),
        None => None,
    }
}

// ---- SELECT

fn select(
    alloc: Global,
    entries: &[(u32, Option<i64>)],
    conditions: &[Condition],
) -> Result<TypedSelect, Memory> {
    let mut select = TypedSelect {
        fields: Items::new(alloc),
        tables: Items::new(alloc),
        mentioned: Items::new(alloc),
        points: Items::new(alloc),
        conditions: Items::new(alloc),
        items: Items::new(alloc),
        order: Items::new(alloc),
        aggregate: false,
        limit: None,
        offset: 0,
    };
    let filled = fill(alloc, &mut select, entries, conditions);
    kept(select, filled)
}

fn fill(
    alloc: Global,
    select: &mut TypedSelect,
    entries: &[(u32, Option<i64>)],
    conditions: &[Condition],
) -> Result<(), Memory> {
    push_field(&mut select.fields, alloc)?;
    push_entries(alloc, select, entries)?;
    push_conditions(&mut select.conditions, alloc, conditions)
}

fn push_field(fields: &mut Items<OutField>, alloc: Global) -> Result<(), Memory> {
    fields.push(OutField {
        name: text_of(alloc, b"v")?,
        kind: SqlType::Bigint,
    })
}

fn push_entries(
    alloc: Global,
    select: &mut TypedSelect,
    entries: &[(u32, Option<i64>)],
) -> Result<(), Memory> {
    let mut entry: u32 = 0;
    for (number, point) in entries {
        push_entry(alloc, select, *number, *point)?;
        select.items.push(column(entry, 1))?;
        entry = entry.saturating_add(1);
    }
    Ok(())
}

/// Adds an entry of FROM whose column v is mentioned.
fn push_entry(
    alloc: Global,
    select: &mut TypedSelect,
    number: u32,
    point: Option<i64>,
) -> Result<(), Memory> {
    select.tables.push(number)?;
    select.mentioned.push(mentioned(alloc)?)?;
    select.points.push(key_of(point))
}

fn push_conditions(
    exprs: &mut Items<TypedExpr>,
    alloc: Global,
    conditions: &[Condition],
) -> Result<(), Memory> {
    for condition in conditions {
        exprs.push(condition_of(alloc, *condition)?)?;
    }
    Ok(())
}

// ---- INSERT

fn insert(alloc: Global, table: u32, rows: &[(i64, i64)]) -> Result<TypedInsert, Memory> {
    let mut made = Items::new(alloc);
    let pushed = push_rows(&mut made, alloc, rows);
    let rows = kept(made, pushed)?;
    Ok(TypedInsert { table, rows })
}

fn push_rows(
    made: &mut Items<Items<TypedExpr>>,
    alloc: Global,
    rows: &[(i64, i64)],
) -> Result<(), Memory> {
    for (key, value) in rows {
        made.push(row(alloc, *key, *value)?)?;
    }
    Ok(())
}

fn row(alloc: Global, key: i64, value: i64) -> Result<Items<TypedExpr>, Memory> {
    let mut row = Items::new(alloc);
    let pushed = push_integers(&mut row, key, value);
    kept(row, pushed)
}

fn push_integers(row: &mut Items<TypedExpr>, key: i64, value: i64) -> Result<(), Memory> {
    row.push(integer(key))?;
    row.push(integer(value))
}

// ---- UPDATE and DELETE

fn change(
    alloc: Global,
    point: Option<i64>,
    condition: Condition,
    set: Result<Items<(u32, TypedExpr)>, Memory>,
    delete: bool,
) -> Result<TypedChange, Memory> {
    let parts = both(condition_of(alloc, condition), set);
    let (mentioned, (filter, set)) = both(mentioned(alloc), parts)?;
    Ok(TypedChange {
        table: 0,
        point: key_of(point),
        mentioned,
        filter: Some(filter),
        set,
        delete,
    })
}

fn push_sum(set: &mut Items<(u32, TypedExpr)>, alloc: Global) -> Result<(), Memory> {
    set.push((1, sum(alloc, column(0, 1), integer(1))?))
}

/// `v = v + 1`.
fn one_more(alloc: Global) -> Result<Items<(u32, TypedExpr)>, Memory> {
    let mut set = Items::new(alloc);
    let pushed = push_sum(&mut set, alloc);
    kept(set, pushed)
}

fn update(alloc: Global, key: i64) -> Result<TypedChange, Memory> {
    let condition = Condition::KeyIs(key);
    change(alloc, Some(key), condition, one_more(alloc), false)
}

fn delete(alloc: Global, condition: Condition) -> Result<TypedChange, Memory> {
    change(alloc, None, condition, Ok(Items::new(alloc)), true)
}
