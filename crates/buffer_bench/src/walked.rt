//! A list of cells and values that is walked, as the buffer was kept at first.

use crate::cells::cell;
use crate::measured::{Writes, measure};
use anyhow::Result;
use cell_base::{Cell, Memory, Value};
use held_values::{put, without};
use std::time::CpuClock;

/// The list.
#[derive(Drop)]
struct Walked {
    entries: Vec<(Cell, Value)>,
}

/// Puts a value at the cell.
fn put_at(list: &mut Vec<(Cell, Value)>, cell: Cell, value: Value) -> Result<(), Memory> {
    for entry in list.iter_mut() {
        if entry.0 == cell {
            put(&mut entry.1, value);
            return without(cell, Ok(()));
        }
    }
    list.push((cell, value))?;
    Ok(())
}

fn is_there(list: &[(Cell, Value)], place: u32) -> bool {
    let cell = cell(place);
    let is_there = list.iter().any(|entry| entry.0 == cell);
    without(cell, is_there)
}

impl Writes for Walked {
    fn fill(&mut self, count: u32, value: i64) -> Result<(), Memory> {
        for place in 0..count {
            put_at(&mut self.entries, cell(place), Value::Int(value))?;
        }
        Ok(())
    }

    fn found(&self, count: u32) -> u32 {
        let mut all = 0u32;
        for place in 0..count {
            if is_there(&self.entries, place) {
                all = all.saturating_add(1);
            }
        }
        all
    }
}

/// Times the list.
pub(crate) fn measure_list(rt: &(impl CpuClock + Print + AllocGlobal), rows: u32) -> Result<()> {
    let mut list = Walked {
        entries: Vec::new(rt.alloc()),
    };
    let measured = measure(rt, "list", &mut list, rows);
    without(list, measured)
}
