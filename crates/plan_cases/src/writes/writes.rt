// The cells that are written.
use crate::writes::shown;
use crate::writes::trees::{rows_of, table};
use case_lines::Lit::{Int, Null, Str};
use case_lines::{Lit, is, text_of};
use cell_base::{Cell, Items, Key, Memory, Value};
use held_values::{both, kept, without};
use row_writes::{RowChange, delete_writes, insert_writes, rows_to_insert, update_writes};
use sql_tree::{Table, TypedExpr};
use std::alloc::{AllocError, Global};
use std::test::Fail;

fn answer(alloc: Global, made: Result<Items<(Cell, Value)>, Memory>) -> Result<String, AllocError> {
    match made {
        Ok(writes) => shown::writes(alloc, writes.as_slice()),
        Err(Memory) => String::from_str(alloc, "memory"),
    }
}

/// The writes of an INSERT into table 7.
fn written(
    alloc: Global,
    table: &Table,
    rows: &[Items<TypedExpr>],
) -> Result<Items<(Cell, Value)>, Memory> {
    if table.columns.len() > 32 {
        return Err(Memory);
    }
    match rows_to_insert(alloc, table, rows) {
        Ok(made) => insert_writes(alloc, 7, table, made),
        Err(_) => Err(Memory),
    }
}

const ROWS: &[&[Lit]] = &[
    &[Int(2), Int(5), Str("ab"), Int(7), Str("x")],
    &[Int(1), Null, Null, Int(1), Str("y")],
];

fn inserts(alloc: Global, key: u32) -> Result<String, Memory> {
    let (rows, table) = both(rows_of(alloc, ROWS), table(alloc, key))?;
    let given = answer(alloc, written(alloc, &table, rows.as_slice()));
    Ok(without((rows, table), given)?)
}

/// The column of the key, and what is written.
const INSERTED: &[(u32, &str)] = &[
    (
        0,
        "7.1=t 7.1.1=- 7.1.2=- 7.1.3=1 7.1.4=y 7.2=t 7.2.1=5 7.2.2=ab 7.2.3=7 7.2.4=x ",
    ),
    (
        4,
        "7.x=t 7.x.0=2 7.x.1=5 7.x.2=ab 7.x.3=7 7.y=t 7.y.0=1 7.y.1=- 7.y.2=- 7.y.3=1 ",
    ),
];

#[test]
fn writes_presence_and_then_fields(rt: HostRuntime) -> Result<(), Fail> {
    for (key, want) in INSERTED {
        is(*key, inserts(rt.alloc(), *key), want)?;
    }
    Ok(())
}

fn push_fields(fields: &mut Items<(u32, Value)>, alloc: Global) -> Result<(), Memory> {
    fields.push((1, Value::Null))?;
    fields.push((2, Value::Text(text_of(alloc, b"ab")?)))
}

fn fields(alloc: Global) -> Result<Items<(u32, Value)>, Memory> {
    let mut fields = Items::new(alloc);
    let pushed = push_fields(&mut fields, alloc);
    kept(fields, pushed)
}

fn push_change(
    changes: &mut Items<RowChange>,
    key: i64,
    fields: Result<Items<(u32, Value)>, Memory>,
) -> Result<(), Memory> {
    changes.push(RowChange {
        key: Key::Int(key),
        fields: fields?,
    })
}

fn push_changes(changes: &mut Items<RowChange>, alloc: Global) -> Result<(), Memory> {
    push_change(changes, 3, fields(alloc))?;
    push_change(changes, 5, Ok(Items::new(alloc)))
}

/// Two changes: of key 3 with two fields, and of key 5 with none.
fn two_changes(alloc: Global) -> Result<Items<RowChange>, Memory> {
    let mut changes = Items::new(alloc);
    let pushed = push_changes(&mut changes, alloc);
    kept(changes, pushed)
}

fn updates(alloc: Global) -> Result<String, Memory> {
    let changes = two_changes(alloc)?;
    Ok(answer(alloc, update_writes(alloc, 0, changes))?)
}

fn deletes(alloc: Global) -> Result<String, Memory> {
    let changes = two_changes(alloc)?;
    Ok(answer(alloc, delete_writes(alloc, 63, changes))?)
}

#[test]
fn writes_assigned_fields_alone(rt: HostRuntime) -> Result<(), Fail> {
    is("updates", updates(rt.alloc()), "0.3.1=- 0.3.2=ab ")
}

#[test]
fn writes_absence_alone(rt: HostRuntime) -> Result<(), Fail> {
    is("deletes", deletes(rt.alloc()), "63.3=f 63.5=f ")
}
