//! The buffer.

use crate::cells::{COLUMNS, cell};
use crate::measured::{Writes, measure};
use anyhow::Result;
use cell_base::{Memory, Value};
use held_values::without;
use std::time::CpuClock;
use txn_buffer::TxnBuffer;

impl Writes for TxnBuffer {
    /// Puts the values in room that is taken first.
    fn fill(&mut self, count: u32, value: i64) -> Result<(), Memory> {
        self.reserve(count as usize)?;
        for place in 0..count {
            self.reserve(1)?;
            self.put(cell(place), Value::Int(value));
        }
        Ok(())
    }

    fn found(&self, count: u32) -> u32 {
        let mut all = 0u32;
        for place in 0..count {
            if is_there(self, place) {
                all = all.saturating_add(1);
            }
        }
        all
    }
}

fn is_there(buffer: &TxnBuffer, place: u32) -> bool {
    let cell = cell(place);
    let is_there = buffer.get(&cell).is_some();
    without(cell, is_there)
}

fn fill_twice(buffer: &mut TxnBuffer, count: u32) -> Result<(), Memory> {
    buffer.fill(count, 1)?;
    buffer.fill(count, 2)
}

/// How many writes there are, and how many of so many cells are found, where each is put twice.
fn counts(buffer: &mut TxnBuffer, count: u32) -> Result<(usize, u32), Memory> {
    fill_twice(buffer, count)?;
    Ok((buffer.writes().len(), buffer.found(count)))
}

/// Puts the cells of so many rows, and says how many there are.
pub(crate) fn show(rt: &(impl Print + AllocGlobal), rows: u32) -> Result<()> {
    let mut buffer = TxnBuffer::new(rt.alloc());
    let counted = counts(&mut buffer, rows.saturating_mul(COLUMNS));
    let (writes, found) = without(buffer, counted)?;
    println!(rt; "{writes} writes, {found} found")?;
    Ok(())
}

/// Times the buffer.
pub(crate) fn measure_buffer(rt: &(impl CpuClock + Print + AllocGlobal), rows: u32) -> Result<()> {
    let mut buffer = TxnBuffer::new(rt.alloc());
    let measured = measure(rt, "buffer", &mut buffer, rows);
    without(buffer, measured)
}
