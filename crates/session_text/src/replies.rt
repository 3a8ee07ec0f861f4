// The messages of the server (PostgreSQL's protocol chapter, "Message Formats").
use crate::parts::{
    push_bytes, push_message, push_text, push_text_message, push_value, two_numbers,
};
use crate::unread::Unread;
use std::alloc::Global;

// The types of columns as PostgreSQL has them: name, OID and length.
const COLUMN_TYPES: &[(&str, u32, i16)] = &[
    ("boolean", 16, 1),
    ("integer", 23, 4),
    ("bigint", 20, 8),
    ("numeric", 1700, -1),
    ("text", 25, -1),
    ("varchar", 1043, -1),
];

fn column_type(name: &str) -> Result<(u32, i16), Unread> {
    for (known, oid, length) in COLUMN_TYPES {
        if *known == name {
            return Ok((*oid, *length));
        }
    }
    Err(Unread::Line)
}

// A column, as `v bigint`: its name; no table and no number in one; its type, with no modifier, as text.
fn push_column(out: &mut Vec<u8>, column: &str) -> Result<(), Unread> {
    let Some((name, kind)) = column.split_once(' ') else {
        return Err(Unread::Line);
    };
    let (oid, length) = column_type(kind)?;
    push_text(out, name)?;
    out.extend_from_slice(&[0; 6])?;
    out.extend_from_slice(&oid.to_be_bytes())?;
    out.extend_from_slice(&length.to_be_bytes())?;
    out.extend_from_slice(&[255, 255, 255, 255, 0, 0])?;
    Ok(())
}

// A value of a row. `NULL` is no value, which has the length -1.
fn push_field(alloc: Global, out: &mut Vec<u8>, field: &str) -> Result<(), Unread> {
    if field == "NULL" {
        out.extend_from_slice(&[255; 4])?;
        return Ok(());
    }
    let mut bytes = Vec::new(alloc);
    push_bytes(&mut bytes, field)?;
    push_value(out, &bytes)
}

// A message that begins with the number of its items.
fn push_counted(
    alloc: Global,
    out: &mut Vec<u8>,
    kind: u8,
    count: u16,
    items: &[u8],
) -> Result<(), Unread> {
    let mut body = Vec::from_slice(alloc, &count.to_be_bytes())?;
    body.extend_from_slice(items)?;
    push_message(out, kind, &body)
}

fn push_row_description(alloc: Global, out: &mut Vec<u8>, columns: &str) -> Result<(), Unread> {
    let mut count: u16 = 0;
    let mut items = Vec::new(alloc);
    for column in columns.split(", ") {
        push_column(&mut items, column)?;
        count = count.saturating_add(1);
    }
    push_counted(alloc, out, b'T', count, &items)
}

fn push_data_row(alloc: Global, out: &mut Vec<u8>, fields: &str) -> Result<(), Unread> {
    let mut count: u16 = 0;
    let mut items = Vec::new(alloc);
    for field in fields.split('|') {
        push_field(alloc, &mut items, field)?;
        count = count.saturating_add(1);
    }
    push_counted(alloc, out, b'D', count, &items)
}

// An error or a notice, as `ERROR 42601 syntax error`: its severity in the fields S and V, its code and its text.
fn push_report(alloc: Global, out: &mut Vec<u8>, kind: u8, report: &str) -> Result<(), Unread> {
    let Some((severity, following)) = report.split_once(' ') else {
        return Err(Unread::Line);
    };
    let Some((code, text)) = following.split_once(' ') else {
        return Err(Unread::Line);
    };
    let mut body = Vec::new(alloc);
    for (field, value) in [
        (b'S', severity),
        (b'V', severity),
        (b'C', code),
        (b'M', text),
    ] {
        body.push(field)?;
        push_text(&mut body, value)?;
    }
    body.push(0)?;
    push_message(out, kind, &body)
}

// A setting, as `server_version 14.0`: its name and its value.
fn push_setting(alloc: Global, out: &mut Vec<u8>, setting: &str) -> Result<(), Unread> {
    let Some((name, value)) = setting.split_once(' ') else {
        return Err(Unread::Line);
    };
    let mut body = Vec::new(alloc);
    push_text(&mut body, name)?;
    push_text(&mut body, value)?;
    push_message(out, b'S', &body)
}

/// A message of the server: its name, a blank, and what it holds.
pub fn push_reply(alloc: Global, out: &mut Vec<u8>, message: &str) -> Result<(), Unread> {
    let (name, rest) = message.split_once(' ').unwrap_or((message, ""));
    match name {
        "bytes" => push_bytes(out, rest),
        "AuthenticationOk" => push_message(out, b'R', &[0; 4]),
        "ParameterStatus" => push_setting(alloc, out, rest),
        "BackendKeyData" => push_message(out, b'K', &two_numbers(alloc, rest)?),
        "ReadyForQuery" => push_message(out, b'Z', rest.as_bytes()),
        "RowDescription" => push_row_description(alloc, out, rest),
        "DataRow" => push_data_row(alloc, out, rest),
        "CommandComplete" => push_text_message(alloc, out, b'C', rest),
        "EmptyQueryResponse" => push_message(out, b'I', &[]),
        "ErrorResponse" => push_report(alloc, out, b'E', rest),
        "NoticeResponse" => push_report(alloc, out, b'N', rest),
        _ => Err(Unread::Line),
    }
}
