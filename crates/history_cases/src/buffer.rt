// What no clause says: that a call with ample memory succeeds, and values found by hand.
use crate::cells::Lit::{Flag, Int};
use crate::cells::Spot::{Field, Presence};
use crate::cells::{Found, Spot, is_found};
use crate::steps::{push, right, right_at};
use cell_base::{Cell, Key, Memory, Value};
use held_values::without;
use std::test::Fail;
use txn_buffer::TxnBuffer;

fn finds(buffer: &TxnBuffer, (spot, want): Found) -> bool {
    let cell = spot.cell();
    is_found(buffer.get(&cell), want)
}

/// Ends the test at the first cell of the table where something else is found.
pub fn find_all(buffer: &TxnBuffer, table: &str, cells: &[Found]) -> Result<(), Fail> {
    for (place, found) in cells.iter().enumerate() {
        right_at(table, place, finds(buffer, *found))?;
    }
    Ok(())
}

/// Three writes of two cells: a second value comes in the place of the first.
fn put_three(buffer: &mut TxnBuffer) -> Result<(), Memory> {
    buffer.reserve(3)?;
    buffer.put(Presence(1).cell(), Value::Flag(false));
    buffer.put(Field(1, 1).cell(), Value::Int(10));
    buffer.put(Presence(1).cell(), Value::Flag(true));
    Ok(())
}

const LAST_PUT: &[Found] = &[
    (Presence(1), Some(Flag(true))),
    (Field(1, 1), Some(Int(10))),
    (Field(1, 2), None),
];

fn is_cell(cell: &Cell, spot: Spot) -> bool {
    *cell == spot.cell()
}

fn has_order(writes: &[(Cell, Value)]) -> bool {
    match writes {
        [first, second] => is_cell(&first.0, Presence(1)) && is_cell(&second.0, Field(1, 1)),
        _ => false,
    }
}

fn keeps_order(buffer: &mut TxnBuffer) -> Result<(), Fail> {
    let begins = buffer.writes().len() == 0;
    put_three(buffer)?;
    let ends = buffer.writes().len() == 2 && has_order(buffer.writes());
    right("order", begins && ends)?;
    find_all(buffer, "last put", LAST_PUT)
}

#[test]
fn keeps_the_order_of_first_writes(rt: HostRuntime) -> Result<(), Fail> {
    let mut buffer = TxnBuffer::new(rt.alloc());
    let keeps = keeps_order(&mut buffer);
    without(buffer, keeps)
}

/// A cell for each number.
fn cell(number: u32) -> Cell {
    Cell::Field(number % 3, Key::Int(i64::from(number)), 1)
}

/// Puts by a walk over the whole list.
fn put_plainly(list: &mut Vec<(u32, i64)>, number: u32, value: i64) -> Result<(), Memory> {
    for entry in list.iter_mut() {
        if entry.0 == number {
            entry.1 = value;
            return Ok(());
        }
    }
    push(list, (number, value))
}

/// Puts the numbers of a fixed sequence into both, each with its place in the sequence.
fn fill(buffer: &mut TxnBuffer, list: &mut Vec<(u32, i64)>, count: u32) -> Result<(), Memory> {
    for step in 0..count {
        let number = step.wrapping_mul(step).wrapping_add(step / 3) % 211;
        buffer.reserve(1)?;
        buffer.put(cell(number), Value::Int(i64::from(step)));
        put_plainly(list, number, i64::from(step))?;
    }
    Ok(())
}

/// Whether this is the write of the entry, and what the buffer has at its cell.
fn is_same(buffer: &TxnBuffer, write: &(Cell, Value), (number, value): (u32, i64)) -> bool {
    let cell = cell(number);
    let value = Value::Int(value);
    write.0 == cell && write.1 == value && buffer.get(&write.0) == Some(&write.1)
}

/// Whether the buffer has just the writes of the list.
fn are_same(buffer: &TxnBuffer, list: &[(u32, i64)]) -> bool {
    let writes = buffer.writes();
    if writes.len() != list.len() {
        return false;
    }
    for (write, plain) in writes.iter().zip(list) {
        if !is_same(buffer, write, *plain) {
            return false;
        }
    }
    true
}

fn has_none(buffer: &TxnBuffer, number: u32) -> bool {
    let cell = cell(number);
    buffer.get(&cell).is_none()
}

fn keep_same(buffer: &mut TxnBuffer, list: &mut Vec<(u32, i64)>) -> Result<(), Fail> {
    fill(buffer, list, 1000)?;
    let are_same = list.len() > 50 && are_same(buffer, list.as_slice());
    right("kept", are_same && has_none(buffer, 211))
}

/// A thousand writes of some two hundred cells, beside a list that is walked.
#[test]
fn keeps_what_a_walked_list_keeps(rt: HostRuntime) -> Result<(), Fail> {
    let mut buffer = TxnBuffer::new(rt.alloc());
    let mut list = Vec::new(rt.alloc());
    let keep = keep_same(&mut buffer, &mut list);
    without((buffer, list), keep)
}
