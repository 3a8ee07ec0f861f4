//! Rows of bits that grow together: as many rows as there are numbers.

ghost use Rattle.std.specs.Prelude.{◌≡◌, ◌<◌, ◌≤◌, ◌+◌, ◌-◌, ◌++◌, ◌∷◌, ◌↔◌, [], All, Contains, IsTrue, OnOk, OnErr, length, take};
ghost use Rattle.bit_rows.specs.Members.{IsUnion};
ghost use Rattle.bit_rows.specs.Matrix.{JoinsAt, row_at};
ghost use Rattle.bit_rows.specs.Lines.{HoldTogether, rows_of};

use crate::lines::Lines;
use crate::{ROW_BITS, Row};
use std::alloc::{AllocError, Global};
use std::marker::Model;

/// Adds an empty line after so many: the next one, or one after the last. An error is out of memory,
/// and then no line has changed.
fn add_row(alloc: Global, lines: &mut Lines, rows: usize) -> Result<(), AllocError>
    requires holds { HoldTogether lines.old }
    requires rows { rows ≤ length lines.old.lines.items }
    requires few { rows < ROW_BITS }
    ensures holds { HoldTogether lines.new }
    ensures there { OnOk result (rows < length lines.new.lines.items) }
    ensures kept { length lines.old.lines.items ≤ length lines.new.lines.items }
    ensures ok { OnOk result (take (rows + 1) (rows_of lines.new) ≡ take rows (rows_of lines.old) ++ [] ∷ []) }
    ensures err { OnErr result (rows_of lines.new ≡ rows_of lines.old) }
{
    if rows < lines.len() {
        lines.clear(rows);
        return Ok(());
    }
    lines.push(alloc)
}

/// Rows of bits that grow together: a list of sets of numbers. A row that is one run of numbers takes
/// no words, and each other one has a bit for each number. Contracts see the list of rows, each the
/// list of its members in rising order. Only `push` takes memory.
#[derive(Debug, Drop)]
pub struct BitMatrix {
    alloc: Global,
    /// The lines of the rows, and after them those of rows that were removed, with their memory.
    lines: Lines,
    /// How many rows there are.
    rows: usize,
}

impl Model for BitMatrix {
    ghost use Rattle.std.specs.Prelude.{◌≤◌, List, ℕ, length, take};
    ghost use Rattle.bit_rows.specs.Lines.{HoldTogether, rows_of};

    ghost Value = { List (List ℕ) };

    ghost view = { λ matrix. take matrix.rows (rows_of matrix.lines) };

    ghost invariant = { λ matrix. HoldTogether matrix.lines × (matrix.rows ≤ length matrix.lines.lines.items) };
}

impl BitMatrix {
    /// The matrix without rows. Takes no memory.
    pub fn new(alloc: Global) -> BitMatrix
        ensures { result ≡ [] }
    {
        BitMatrix {
            alloc,
            lines: Lines::new(alloc),
            rows: 0,
        }
    }

    /// How many rows there are.
    pub fn len(&self) -> usize
        ensures size { result ≡ length self.now }
        ensures few { result ≤ ROW_BITS }
    {
        self.rows
    }

    /// Adds an empty row after the last one. An error is out of memory, and then no row has
    /// changed.
    pub fn push(&mut self) -> Result<(), AllocError>
        requires { length self.old < ROW_BITS }
        ensures ok { OnOk result (self.new ≡ self.old ++ [] ∷ []) }
        ensures err { OnErr result (self.new ≡ self.old) }
    {
        add_row(self.alloc, &mut self.lines, self.rows)?;
        self.rows += 1;
        Ok(())
    }

    /// Removes the last row.
    pub fn pop(&mut self)
        requires { 0 < length self.old }
        ensures { self.old ≡ self.new ++ row_at self.old (length self.old - 1) ∷ [] }
    {
        self.rows -= 1;
    }

    /// Whether the number is a member of a row.
    pub fn has(&self, row: u32, bit: u32) -> bool
        requires { row < length self.now }
        ensures { IsTrue result ↔ Contains (row_at self.now row) bit }
    {
        self.lines.has(row as usize, bit)
    }

    /// Adds the members of a row of the matrix to another row.
    pub fn add_to(&self, number: u32, row: &mut Row)
        requires { number < length self.now }
        ensures { IsUnion row.old (row_at self.now number) row.new }
    {
        self.lines.add_to(number as usize, row);
    }

    /// Makes a row what a row of the matrix is.
    pub fn copy_to(&self, number: u32, row: &mut Row)
        requires { number < length self.now }
        ensures { row.new ≡ row_at self.now number }
    {
        self.lines.copy_to(number as usize, row);
    }

    /// Adds the members of another row, all below the number of rows, to a row of the matrix.
    pub fn join_at(&mut self, target: u32, row: &Row)
        requires target { target < length self.old }
        requires within { All (λ n. n < length self.old) row.now }
        ensures { JoinsAt target row.now self.old self.new }
    {
        self.lines.add_words(target as usize, row.words());
    }

    /// Adds a number and the members of its row to another row of the matrix.
    pub fn join_up_to(&mut self, number: u32, target: u32)
        requires number { number < length self.old }
        requires target { target < length self.old }
        requires apart { ¬ number ≡ target }
        ensures { JoinsAt target (number ∷ row_at self.old number) self.old self.new }
    {
        self.lines.join_up_to(number, target as usize);
    }
}
