// Writes the rows of a result and their columns.
#![tactic(auto)]

ghost use Rattle.std.specs.Prelude.{◌≡◌, ◌≤◌, ◌<◌, ◌+◌, ◌^◌, ◌∷◌, ◌++◌, [], length, flat_map, OnOk, OnErr};
ghost use Rattle.std.specs.List.{All};
ghost use Rattle.pg_framing.specs.Replies.{two_bytes, type_oid, type_length, type_modifier, field_bytes, row_description, text_bytes, value_bytes, data_row, IsField, FitsModifier, FitsMessage};

use crate::replies::{append_ended, append_four, append_framed, append_two};
use cell_base::{Memory, SqlType, Value};
use itoa::Buffer;
use sql_tree::OutField;
use std::alloc::Global;

/// RowDescription: the columns of the rows that follow, at most 1,664. Out of memory, `out` stays as it was.
#[tactic(auto, unfolding(crate::specs::Replies::row_description))]
pub fn append_row_description(
    alloc: Global,
    out: &mut Vec<u8>,
    fields: &[OutField],
) -> Result<(), Memory>
    requires number { length fields.now ≤ 1664 }
    requires each { All IsField fields.now }
    requires fits { FitsMessage (two_bytes (length fields.now) ++ flat_map field_bytes fields.now) }
    ensures ok { OnOk result (out.new.items ≡ out.old.items ++ row_description fields.now) }
    ensures err { OnErr result (out.new.items ≡ out.old.items) }
{
    let mut body = Vec::new(alloc);
    append_two(&mut body, fields.len() as u16)?;
    for field in fields {
        append_field(&mut body, field)?;
    }
    append_framed(alloc, out, b'T', &body)
}

// One column: its name, no table and no column of one, its type, and the format of texts.
#[tactic(auto, unfolding(crate::specs::Replies::field_bytes))]
fn append_field(body: &mut Vec<u8>, field: &OutField) -> Result<(), Memory>
    requires { IsField field.now }
    ensures { OnOk result (body.new.items ≡ body.old.items ++ field_bytes field.now) }
{
    append_ended(body, field.name.bytes())?;
    append_four(body, 0)?;
    append_two(body, 0)?;
    append_four(body, oid_of(field.kind))?;
    append_two(body, length_of(field.kind))?;
    append_four(body, modifier_of(field.kind))?;
    append_two(body, 0)?;
    Ok(())
}

// The number of the type in PostgreSQL's catalogue.
fn oid_of(kind: SqlType) -> u32
    ensures { result ≡ type_oid kind }
{
    match kind {
        SqlType::Boolean => 16,
        SqlType::Bigint => 20,
        SqlType::Integer => 23,
        SqlType::Text => 25,
        SqlType::Varchar(_) => 1043,
        SqlType::Numeric => 1700,
    }
}

// The length of the type's values; minus one, in sixteen bits, where it varies.
fn length_of(kind: SqlType) -> u16
    ensures { result ≡ type_length kind }
{
    match kind {
        SqlType::Boolean => 1,
        SqlType::Bigint => 8,
        SqlType::Integer => 4,
        SqlType::Text | SqlType::Varchar(_) | SqlType::Numeric => u16::MAX,
    }
}

// The limit of a varchar and four; minus one, in 32 bits, where there is none.
fn modifier_of(kind: SqlType) -> u32
    requires { FitsModifier kind }
    ensures { result ≡ type_modifier kind }
{
    match kind {
        SqlType::Varchar(0) => u32::MAX,
        SqlType::Varchar(limit) => limit + 4,
        _ => u32::MAX,
    }
}

/// DataRow: the values of one row, at most 1,664, as texts. Out of memory, `out` stays as it was.
#[tactic(auto, unfolding(crate::specs::Replies::data_row))]
pub fn append_data_row(alloc: Global, out: &mut Vec<u8>, values: &[Value]) -> Result<(), Memory>
    requires number { length values.now ≤ 1664 }
    requires fits { FitsMessage (two_bytes (length values.now) ++ flat_map value_bytes values.now) }
    ensures ok { OnOk result (out.new.items ≡ out.old.items ++ data_row values.now) }
    ensures err { OnErr result (out.new.items ≡ out.old.items) }
{
    let mut body = Vec::new(alloc);
    append_two(&mut body, values.len() as u16)?;
    for value in values {
        append_value(&mut body, value)?;
    }
    append_framed(alloc, out, b'D', &body)
}

// One value: the length of its text and the text, or minus one for null.
#[tactic(auto, unfolding(crate::specs::Replies::value_bytes))]
fn append_value(body: &mut Vec<u8>, value: &Value) -> Result<(), Memory>
    requires { length (value_bytes value.now) < 2 ^ 31 }
    ensures { OnOk result (body.new.items ≡ body.old.items ++ value_bytes value.now) }
{
    let mut buffer = Buffer::new();
    match value {
        Value::Unset | Value::Null => append_four(body, u32::MAX),
        Value::Flag(true) => append_sized(body, b"t"),
        Value::Flag(false) => append_sized(body, b"f"),
        Value::Int(n) => append_sized(body, buffer.format(*n).as_bytes()),
        Value::Wide(n) => append_sized(body, buffer.format(*n).as_bytes()),
        Value::Text(text) => append_sized(body, text.bytes()),
    }
}

// The length of a text, and the text.
fn append_sized(body: &mut Vec<u8>, text: &[u8]) -> Result<(), Memory>
    requires { length text.now < 2 ^ 31 }
    ensures { OnOk result (body.new.items ≡ body.old.items ++ text_bytes (Some text.now)) }
{
    append_four(body, text.len() as u32)?;
    body.extend_from_slice(text)?;
    Ok(())
}
