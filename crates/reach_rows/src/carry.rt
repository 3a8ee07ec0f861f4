//! Rows that take over what new edges bring.

ghost use Rattle.std.specs.Prelude.{◌<◌, All, length};
ghost use Rattle.bit_rows.specs.declared.TheConstants.{ROW_BITS};
ghost use Rattle.reach_rows.specs.Rows.{IsClosed, IsDown, IsUpTo, HasPair, GainsOne, GainsAll, Carries, CarriesAt, CarriesUpTo, Spreads};

use bit_rows::{BitMatrix, Row};

/// Adds what comes before a number to the row, which has it already where it has the number.
pub(crate) fn add_ancestors(row: &mut Row, rows: &BitMatrix, number: u32)
    requires number { number < length rows.now }
    requires closed { IsClosed rows.now }
    requires down { IsDown rows.now row.old }
    ensures { GainsOne (HasPair rows.now) number row.old row.new }
{
    if !row.has(number) {
        rows.add_to(number, row);
    }
}

/// Adds a number and what comes before it to the row, unless it has the number.
fn add_up_to(row: &mut Row, rows: &BitMatrix, number: u32)
    requires number { number < length rows.now }
    requires closed { IsClosed rows.now }
    requires down { IsDown rows.now row.old }
    ensures { GainsOne (IsUpTo rows.now) number row.old row.new }
{
    if !row.has(number) {
        rows.add_to(number, row);
        row.set(number);
    }
}

/// Adds what comes before the members to the row, from the last member down. A member that the row
/// has brings nothing: where the members rise along one path, the last one brings all by one union.
pub(crate) fn gather_ancestors(row: &mut Row, rows: &BitMatrix, members: &[u32])
    requires members { All (λ m. m < length rows.now) members.now }
    requires closed { IsClosed rows.now }
    requires down { IsDown rows.now row.old }
    ensures { GainsAll (HasPair rows.now) members.now row.old row.new }
{
    for done in 0..members.len() {
        add_ancestors(row, rows, members[members.len() - 1 - done]);
    }
}

/// Adds the members and what comes before them to the row, from the last member down as
/// `gather_ancestors` does.
pub(crate) fn gather(row: &mut Row, rows: &BitMatrix, members: &[u32])
    requires members { All (λ m. m < length rows.now) members.now }
    requires closed { IsClosed rows.now }
    requires down { IsDown rows.now row.old }
    ensures { GainsAll (IsUpTo rows.now) members.now row.old row.new }
{
    for done in 0..members.len() {
        add_up_to(row, rows, members[members.len() - 1 - done]);
    }
}

/// Adds `gained` to the row, if it has the target.
fn carry(row: &mut Row, target: u32, gained: &Row)
    requires { target < ROW_BITS }
    ensures { Carries target gained.now row.old row.new }
{
    if row.has(target) {
        row.or_into(gained);
    }
}

/// Adds `gained` to each of the star rows that has the target.
pub(crate) fn carry_all(rows: &mut [Row], target: u32, gained: &Row)
    requires { target < ROW_BITS }
    ensures { CarriesUpTo (length rows.old) target gained.now rows.old rows.new }
{
    for number in 0..rows.len() {
        carry(&mut rows[number], target, gained);
    }
}

/// Adds `gained` to the row of a number, if it has the target.
fn carry_at(rows: &mut BitMatrix, number: u32, target: u32, gained: &Row)
    requires number { number < length rows.old }
    requires gained { All (λ n. n < length rows.old) gained.now }
    ensures { CarriesAt number target gained.now rows.old rows.new }
{
    if rows.has(number, target) {
        rows.join_at(number, gained);
    }
}

/// Adds `gained` to each row that has the target.
fn carry_each(rows: &mut BitMatrix, target: u32, gained: &Row)
    requires { All (λ n. n < length rows.old) gained.now }
    ensures { CarriesUpTo (length rows.old) target gained.now rows.old rows.new }
{
    for number in 0..rows.len() {
        carry_at(rows, number as u32, target, gained);
    }
}

/// Adds `gained` to the row of the target and to each row that has it.
pub(crate) fn spread(rows: &mut BitMatrix, target: u32, gained: &Row)
    requires target { target < length rows.old }
    requires gained { All (λ n. n < length rows.old) gained.now }
    ensures { Spreads target gained.now rows.old rows.new }
{
    carry_each(rows, target, gained);
    rows.join_at(target, gained);
}
