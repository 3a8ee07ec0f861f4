// The values of events, in little room.
ghost use Rattle.std.specs.Prelude.{◌≡◌, ◌<◌, ◌∷◌, ◌++◌, [], pos, Some, OnOk, OnErr, IfOk, IfSome, IsTrue, length, slice_get, slice_set};
ghost use Rattle.right_logs.specs.NotedValues.{means, values_in, AreApart, compact_number, compact_of};

use crate::packed_value::{PackedValue, packed, packed_apart, packed_unset};
use cell_base::{Memory, Value};
use std::alloc::Global;
use std::marker::Model;

/// A value as it is noted: by itself, or by its number among those that are kept apart.
#[derive(Clone, Copy, Debug)]
pub enum NotedValue {
    Unset,
    Null,
    Flag(bool),
    /// An integer from 0 on, of 32 bits.
    Compact(u32),
    /// The value of this number among those that are kept apart.
    Apart(u32),
}

/// The value of each event, one after another. Contracts see the list of them.
#[derive(Debug, Drop)]
pub struct NotedValues {
    alloc: Global,
    notes: Vec<PackedValue>,
    apart: Vec<Value>,
}

impl Model for NotedValues {
    ghost use Rattle.std.specs.Prelude.{List};
    ghost use Rattle.cell_base.specs.declared.value.Value.{Value as ValueOf};
    ghost use Rattle.right_logs.specs.NotedValues.{values_in, AreApart};

    ghost Value = { List ValueOf };

    ghost view = { λ v. values_in v.apart.items v.notes.items };

    ghost invariant = { λ v. AreApart v.apart.items v.notes.items };
}

impl NotedValues {
    /// No value, and room for so many.
    pub fn with_room(alloc: Global, room: usize) -> Result<NotedValues, Memory>
        ensures { IfOk result (λ values. values ≡ []) }
    {
        let notes = Vec::with_capacity(alloc, room)?;
        let apart = Vec::new(alloc);
        Ok(NotedValues {
            alloc,
            notes,
            apart,
        })
    }

    /// How many values there are.
    pub fn len(&self) -> usize
        ensures { result ≡ length self.now }
    {
        self.notes.len()
    }

    /// Notes an event that has no value.
    pub fn push_unset(&mut self) -> Result<(), Memory>
        ensures { OnOk result (self.new ≡ self.old ++ Value.Unset ∷ []) }
    {
        self.notes.push(packed_unset())?;
        Ok(())
    }

    /// Notes the value of the next event.
    pub fn push(&mut self, value: &Value) -> Result<(), Memory>
        requires { length self.old < 2147483644 }
        ensures { OnOk result (self.new ≡ self.old ++ value.now ∷ []) }
    {
        note_value(self.alloc, &mut self.notes, &mut self.apart, value)
    }

    /// Whether the value stands at the place.
    pub fn holds(&self, place: u32, value: &Value) -> bool
        ensures { IsTrue result → slice_get self.now place ≡ Some value.now }
    {
        stands_at(&self.apart, &self.notes, place, value)
    }
}

/// Notes the value after the others.
fn note_value(
    alloc: Global,
    notes: &mut Vec<PackedValue>,
    apart: &mut Vec<Value>,
    value: &Value,
) -> Result<(), Memory>
    requires held { AreApart apart.old.items notes.old.items }
    requires few { length notes.old.items < 2147483644 }
    ensures held { AreApart apart.new.items notes.new.items }
    ensures ok { OnOk result (values_in apart.new.items notes.new.items ≡ values_in apart.old.items notes.old.items ++ value.now ∷ []) }
{
    match packed_value(value) {
        Some(note) => {
            notes.push(note)?;
            Ok(())
        }
        None => note_apart(alloc, notes, apart, value),
    }
}

/// The same of one that is kept apart. Its note stands for no value until the copy is there.
fn note_apart(
    alloc: Global,
    notes: &mut Vec<PackedValue>,
    apart: &mut Vec<Value>,
    value: &Value,
) -> Result<(), Memory>
    requires held { AreApart apart.old.items notes.old.items }
    requires few { length notes.old.items < 2147483644 }
    ensures held { AreApart apart.new.items notes.new.items }
    ensures ok { OnOk result (values_in apart.new.items notes.new.items ≡ values_in apart.old.items notes.old.items ++ value.now ∷ []) }
{
    let number = apart.len() as u32;
    let last = notes.len();
    notes.push(packed_unset())?;
    keep_apart(alloc, apart, value)?;
    put_number(notes, last, number);
    Ok(())
}

/// Keeps a copy of the value after those that are kept apart. Out of memory nothing changes.
fn keep_apart(alloc: Global, apart: &mut Vec<Value>, value: &Value) -> Result<(), Memory>
    ensures ok { OnOk result (apart.new.items ≡ apart.old.items ++ value.now ∷ []) }
    ensures err { OnErr result (apart.new.items ≡ apart.old.items) }
{
    let copy = value.copy(alloc)?;
    apart.push(copy)?;
    Ok(())
}

/// Makes the note at the place that of the value of the number.
fn put_number(notes: &mut Vec<PackedValue>, place: usize, number: u32)
    requires within { place < length notes.old.items }
    requires few { number < 2147483644 }
    ensures { notes.new.items ≡ slice_set notes.old.items place (NotedValue.Apart number) }
{
    notes[place] = packed_apart(number);
}

/// The note of an integer, where it is compact.
fn compact_integer(number: i64) -> Option<NotedValue>
    ensures { result ≡ compact_number number }
{
    match u32::try_from(number) {
        Ok(compact) => Some(NotedValue::Compact(compact)),
        Err(_) => None,
    }
}

/// The note of the value, where it needn't be kept apart.
fn compact(value: &Value) -> Option<NotedValue>
    ensures { result ≡ compact_of value.now }
{
    match value {
        Value::Unset => Some(NotedValue::Unset),
        Value::Null => Some(NotedValue::Null),
        Value::Flag(flag) => Some(NotedValue::Flag(*flag)),
        Value::Int(number) => compact_integer(*number),
        Value::Wide(_) => None,
        Value::Text(_) => None,
    }
}

/// The note of the value in four bytes, where it needn't be kept apart.
fn packed_value(value: &Value) -> Option<PackedValue>
    ensures { IfSome result (λ note. compact_of value.now ≡ Some note) }
{
    packed(compact(value)?)
}

/// Whether the note at the place is that of the value.
fn stands_at(apart: &[Value], notes: &[PackedValue], place: u32, value: &Value) -> bool
    ensures { IsTrue result → slice_get (values_in apart.now notes.now) place ≡ Some value.now }
{
    match notes.get(place as usize) {
        Some(note) => is_value(apart, note.note(), value),
        None => false,
    }
}

/// Whether the note is that of the value.
fn is_value(apart: &[Value], note: NotedValue, value: &Value) -> bool
    ensures { IsTrue result → means apart.now note ≡ value.now }
{
    match note {
        NotedValue::Unset => is_unset(value),
        NotedValue::Null => is_null(value),
        NotedValue::Flag(flag) => is_flag(value, flag),
        NotedValue::Compact(number) => is_integer(value, number),
        NotedValue::Apart(number) => is_apart(apart, number, value),
    }
}

/// Whether there is no value.
fn is_unset(value: &Value) -> bool
    ensures { IsTrue result → value.now ≡ Value.Unset }
{
    matches!(value, Value::Unset)
}

/// Whether the value is null.
fn is_null(value: &Value) -> bool
    ensures { IsTrue result → value.now ≡ Value.Null }
{
    matches!(value, Value::Null)
}

/// Whether the value is the flag.
fn is_flag(value: &Value, flag: bool) -> bool
    ensures { IsTrue result → value.now ≡ Value.Flag flag }
{
    if flag {
        matches!(value, Value::Flag(true))
    } else {
        matches!(value, Value::Flag(false))
    }
}

/// Whether the value is the integer.
fn is_integer(value: &Value, number: u32) -> bool
    ensures { IsTrue result → value.now ≡ Value.Int (pos number) }
{
    match compact(value) {
        Some(note) => is_compact(note, number),
        None => false,
    }
}

/// Whether the note is that of the integer.
fn is_compact(note: NotedValue, number: u32) -> bool
    ensures { IsTrue result → note ≡ NotedValue.Compact number }
{
    match note {
        NotedValue::Compact(own) => own == number,
        _ => false,
    }
}

/// Whether the value is the one of the number among those that are kept apart.
fn is_apart(apart: &[Value], number: u32, value: &Value) -> bool
    ensures { IsTrue result → means apart.now (NotedValue.Apart number) ≡ value.now }
{
    match apart.get(number as usize) {
        Some(own) => own.is_same(value),
        None => false,
    }
}
