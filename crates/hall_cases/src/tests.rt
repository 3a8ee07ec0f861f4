// Interleavings of sessions in halls, with streams in pieces of several lengths.
ghost use Rattle.std.specs.Prelude.{◌<◌};

use crate::causes::causes;
use crate::drivers::drivers;
use crate::halves::halves;
use crate::levels::levels;
use crate::playing::difference;
use crate::reading::{Interleaving, read_interleavings};
use crate::updates::updates;
use held_values::without;
use std::alloc::Global;
use std::test::Fail;

// What isn't as the first interleaving that isn't as its text says: nothing, where all are.
fn first_difference(alloc: Global, rows: &[Interleaving], piece: u32) -> Result<String, Fail>
    requires { 0 < piece }
{
    for row in rows {
        let found = difference(alloc, row, piece)?;
        if !found.as_str().is_empty() {
            let (name, what) = (row.head.name.as_str(), found.as_str());
            return Ok(format!(in alloc; "{name}, in pieces of {piece}: {what}")?);
        }
    }
    Ok(String::new(alloc))
}

// What isn't as the interleavings say, in pieces of several lengths; or how many there are, where all is.
fn outcome_of(alloc: Global, rows: &[Interleaving]) -> Result<String, Fail> {
    for piece in [1, 7, 10_000] {
        let found = first_difference(alloc, rows, piece)?;
        if !found.as_str().is_empty() {
            return Ok(found);
        }
    }
    let count = rows.len();
    Ok(format!(in alloc; "{count} hold")?)
}

// The same of the interleavings of the text.
fn outcome(alloc: Global, text: &str) -> Result<String, Fail> {
    let rows = read_interleavings(alloc, text)?;
    let found = outcome_of(alloc, rows.as_slice());
    without(rows, found)
}

#[test]
fn updates_are_as_they_are_written(rt: HostRuntime) -> Result<(), Fail> {
    assert_eq!(rt; outcome(rt.alloc(), updates())?.as_str(), "5 hold");
    Ok(())
}

#[test]
fn halves_are_as_they_are_written(rt: HostRuntime) -> Result<(), Fail> {
    assert_eq!(rt; outcome(rt.alloc(), halves())?.as_str(), "4 hold");
    Ok(())
}

#[test]
fn causes_are_as_they_are_written(rt: HostRuntime) -> Result<(), Fail> {
    assert_eq!(rt; outcome(rt.alloc(), causes())?.as_str(), "4 hold");
    Ok(())
}

#[test]
fn levels_are_as_they_are_written(rt: HostRuntime) -> Result<(), Fail> {
    assert_eq!(rt; outcome(rt.alloc(), levels())?.as_str(), "1 hold");
    Ok(())
}

#[test]
fn drivers_are_as_they_are_written(rt: HostRuntime) -> Result<(), Fail> {
    assert_eq!(rt; outcome(rt.alloc(), drivers())?.as_str(), "2 hold");
    Ok(())
}
