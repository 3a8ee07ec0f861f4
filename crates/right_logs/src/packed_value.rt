// A noted value in four bytes.
ghost use Rattle.std.specs.Prelude.{◌≡◌, ◌<◌, IfSome};
ghost use Rattle.right_logs.specs.PackedValues.{noted_by, upper_note};

use crate::noted_values::NotedValue;
use std::marker::Model;

/// The first number that stands for no integer, but for a value that has a name, or one that is kept apart.
const UPPER: u32 = 2_147_483_648;

/// A noted value in four bytes. Contracts see the noted value.
#[derive(Debug, Drop)]
pub struct PackedValue {
    code: u32,
}

impl Model for PackedValue {
    ghost use Rattle.right_logs.specs.declared.noted_values.NotedValue.{NotedValue as NoteOf};
    ghost use Rattle.right_logs.specs.PackedValues.{noted_by};

    ghost Value = { NoteOf };

    ghost view = { λ p. noted_by p.code };
}

/// The note of an event without a value.
pub fn packed_unset() -> PackedValue
    ensures { result ≡ NotedValue.Unset }
{
    PackedValue { code: UPPER }
}

/// The note of the value of this number among those that are kept apart.
pub fn packed_apart(number: u32) -> PackedValue
    requires { number < 2147483644 }
    ensures { result ≡ NotedValue.Apart number }
{
    PackedValue {
        code: UPPER + 4 + number,
    }
}

/// The note of an integer, where it is below 2,147,483,648.
fn packed_integer(number: u32) -> Option<PackedValue>
    ensures { IfSome result (λ packed. packed ≡ NotedValue.Compact number) }
{
    if number < UPPER {
        Some(PackedValue { code: number })
    } else {
        None
    }
}

/// The note of a flag.
fn packed_flag(flag: bool) -> PackedValue
    ensures { result ≡ NotedValue.Flag flag }
{
    if flag {
        PackedValue { code: UPPER + 3 }
    } else {
        PackedValue { code: UPPER + 2 }
    }
}

/// The note in four bytes, where it is one that stands by itself, and fits.
pub fn packed(note: NotedValue) -> Option<PackedValue>
    ensures { IfSome result (λ packed. packed ≡ note) }
{
    match note {
        NotedValue::Unset => Some(packed_unset()),
        NotedValue::Null => Some(PackedValue { code: UPPER + 1 }),
        NotedValue::Flag(flag) => Some(packed_flag(flag)),
        NotedValue::Compact(number) => packed_integer(number),
        NotedValue::Apart(_) => None,
    }
}

/// The note that the number `UPPER` + `place` stands for.
fn upper(place: u32) -> NotedValue
    ensures { result ≡ upper_note place }
{
    match place {
        0 => NotedValue::Unset,
        1 => NotedValue::Null,
        2 => NotedValue::Flag(false),
        3 => NotedValue::Flag(true),
        place => NotedValue::Apart(place - 4),
    }
}

/// The note that the number stands for.
fn note_of(code: u32) -> NotedValue
    ensures { result ≡ noted_by code }
{
    if code < UPPER {
        NotedValue::Compact(code)
    } else {
        upper(code - UPPER)
    }
}

impl PackedValue {
    /// The note.
    pub fn note(&self) -> NotedValue
        ensures { result ≡ self.now }
    {
        note_of(self.code)
    }
}
