// What an event adds to the load: one, one for each listed key, and one for each 256 bytes of text.
ghost use Rattle.std.specs.Prelude.{◌≡◌, ◌≤◌, ◌+◌, ◌/◌, sum_by, length, IfOk, IfSome};
ghost use Rattle.history_core.specs.Events.{weight_of, key_bytes, cell_bytes, value_bytes};

use crate::Event;
use cell_base::{Cell, Items, Key, Memory, Value};

/// What the event adds to the load. A weight above 4,611,686,018,427,387,904 counts as out of memory: no memory has room
/// for so many keys or bytes, and every load fits a number of 64 bits.
pub fn weight(event: &Event) -> Result<u64, Memory>
    ensures value { IfOk result (λ w. w ≡ weight_of event.now) }
    ensures light { IfOk result (λ w. weight_of event.now ≤ 4611686018427387904) }
{
    match event {
        Event::Scan { keys, .. } => keys_weight(keys),
        Event::Read { cell, value, .. } => Ok(text_weight(cell, value)),
        Event::Own { cell, value, .. } => Ok(text_weight(cell, value)),
        Event::Write { cell, value, .. } => Ok(text_weight(cell, value)),
        _ => Ok(1),
    }
}

/// The bytes of text in the key.
fn key_size(key: &Key) -> u64
    ensures { result ≡ key_bytes key.now }
{
    match key {
        Key::Int(_) => 0,
        Key::Text(text) => text.bytes().len() as u64,
    }
}

/// The bytes of text in the cell's key.
fn cell_size(cell: &Cell) -> u64
    ensures { result ≡ cell_bytes cell.now }
{
    match cell {
        Cell::Presence(_, key) => key_size(key),
        Cell::Field(_, key, _) => key_size(key),
    }
}

/// The bytes of text in the value.
fn value_size(value: &Value) -> u64
    ensures { result ≡ value_bytes value.now }
{
    match value {
        Value::Text(text) => text.bytes().len() as u64,
        _ => 0,
    }
}

/// The weight of an event that holds a cell and a value.
pub fn text_weight(cell: &Cell, value: &Value) -> u64
    ensures value { result ≡ 1 + (cell_bytes cell.now + value_bytes value.now) / 256 }
    ensures light { result ≤ 4611686018427387904 }
{
    let size = u128::from(cell_size(cell)) + u128::from(value_size(value));
    1 + (size / 256) as u64
}

/// The bytes of text in the keys. None where a number of 64 bits doesn't hold them.
fn keys_size(keys: &[Key]) -> Option<u64>
    ensures { IfSome result (λ size. size ≡ sum_by key_bytes keys.now) }
{
    let mut size = 0u64;
    for key in keys {
        size = size.checked_add(key_size(key))?;
    }
    Some(size)
}

/// The weight of a scan that lists the keys.
fn keys_weight(keys: &Items<Key>) -> Result<u64, Memory>
    ensures value { IfOk result (λ w. w ≡ 1 + length keys.now + sum_by key_bytes keys.now / 256) }
    ensures light { IfOk result (λ w. w ≤ 4611686018427387904) }
{
    let keys = keys.as_slice();
    match keys_size(keys) {
        Some(size) => small_weight(keys.len() as u64, size / 256),
        None => Err(Memory),
    }
}

/// One and the two numbers, where that is small enough for a load.
fn small_weight(count: u64, blocks: u64) -> Result<u64, Memory>
    ensures value { IfOk result (λ w. w ≡ 1 + count + blocks) }
    ensures light { IfOk result (λ w. w ≤ 4611686018427387904) }
{
    let weight = 1u128 + u128::from(count) + u128::from(blocks);
    if weight <= 4_611_686_018_427_387_904 {
        Ok(weight as u64)
    } else {
        Err(Memory)
    }
}
