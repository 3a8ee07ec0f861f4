// What the server sends, by the bytes of worked sessions and of the protocol's description.
ghost use Rattle.std.specs.Prelude.{◌<◌, length, IsTrue};
ghost use Rattle.pg_framing.specs.Replies.{FitsModifier, value_bytes};
ghost use Rattle.cell_base.specs.Texts.{HasNoZero};

use crate::server::compared::{is, right};
use cell_base::{Memory, SqlState, SqlType, Text, Value};
use held_values::{kept, without};
use itoa::Buffer;
use pg_framing::{
    Severity, TransactionState, append_authentication_ok, append_backend_key_data,
    append_command_complete, append_data_row, append_empty_query_response, append_error_response,
    append_notice_response, append_parameter_status, append_ready_for_query,
    append_row_description,
};
use sql_tree::OutField;
use std::alloc::Global;
use std::test::Fail;

// Whether no zero byte stands in a text.
fn has_no_zero(text: &[u8]) -> bool
    ensures { IsTrue result → HasNoZero text.now }
{
    text.iter().all(|b| *b != 0)
}

const SETTINGS: &[(&[u8], &[u8])] = &[
    (b"server_version", b"14.0"),
    (b"server_encoding", b"UTF8"),
    (b"client_encoding", b"UTF8"),
    (b"DateStyle", b"ISO, MDY"),
    (b"integer_datetimes", b"on"),
    (b"standard_conforming_strings", b"on"),
];

// Settings without a zero byte in them.
fn append_settings(alloc: Global, out: &mut Vec<u8>) -> Result<(), Memory> {
    for (name, value) in SETTINGS {
        if name.len() < 99 && value.len() < 99 {
            append_setting(alloc, out, name, value)?;
        }
    }
    Ok(())
}

fn append_setting(alloc: Global, out: &mut Vec<u8>, name: &[u8], value: &[u8]) -> Result<(), Memory>
    requires name { length name.now < 99 }
    requires value { length value.now < 99 }
{
    if has_no_zero(name) && has_no_zero(value) {
        append_parameter_status(alloc, out, name, value)
    } else {
        Err(Memory)
    }
}

fn append_welcome(alloc: Global, out: &mut Vec<u8>) -> Result<(), Memory> {
    append_authentication_ok(alloc, out)?;
    append_settings(alloc, out)?;
    append_backend_key_data(alloc, out, 1, 0)?;
    append_ready_for_query(alloc, out, TransactionState::Idle)
}

// What answers the startup of session 1.
fn welcome(alloc: Global) -> Result<Vec<u8>, Memory> {
    let mut out = Vec::new(alloc);
    let appended = append_welcome(alloc, &mut out);
    kept(out, appended)
}

const WELCOME: &[u8] =
    b"R\x00\x00\x00\x08\x00\x00\x00\x00S\x00\x00\x00\x18server_version\x0014.0\x00S\x00\x00\x00\x19server_encoding\x00UTF8\x00S\x00\x00\x00\x19client_encoding\x00UTF8\x00S\x00\x00\x00\x17DateStyle\x00ISO, MDY\x00S\x00\x00\x00\x19integer_datetimes\x00on\x00S\x00\x00\x00\x23standard_conforming_strings\x00on\x00K\x00\x00\x00\x0c\x00\x00\x00\x01\x00\x00\x00\x00Z\x00\x00\x00\x05I";

fn is_welcome(given: &[u8]) -> Result<(), Fail> {
    right("length", 0, given.len() == 191)?;
    right("welcome", 0, given == WELCOME)
}

fn welcomes(alloc: Global) -> Result<(), Fail> {
    let welcome = welcome(alloc)?;
    let is_so = is_welcome(&welcome);
    without(welcome, is_so)
}

// The column `v` of each type, and what describes it.
const COLUMNS: &[(SqlType, &[u8])] = &[
    (
        SqlType::Boolean,
        b"T\x00\x00\x00\x1a\x00\x01v\x00\x00\x00\x00\x00\x00\x00\x00\x00\x00\x10\x00\x01\xff\xff\xff\xff\x00\x00",
    ),
    (
        SqlType::Integer,
        b"T\x00\x00\x00\x1a\x00\x01v\x00\x00\x00\x00\x00\x00\x00\x00\x00\x00\x17\x00\x04\xff\xff\xff\xff\x00\x00",
    ),
    (
        SqlType::Bigint,
        b"T\x00\x00\x00\x1a\x00\x01v\x00\x00\x00\x00\x00\x00\x00\x00\x00\x00\x14\x00\x08\xff\xff\xff\xff\x00\x00",
    ),
    (
        SqlType::Text,
        b"T\x00\x00\x00\x1a\x00\x01v\x00\x00\x00\x00\x00\x00\x00\x00\x00\x00\x19\xff\xff\xff\xff\xff\xff\x00\x00",
    ),
    (
        SqlType::Varchar(0),
        b"T\x00\x00\x00\x1a\x00\x01v\x00\x00\x00\x00\x00\x00\x00\x00\x00\x04\x13\xff\xff\xff\xff\xff\xff\x00\x00",
    ),
    (
        SqlType::Varchar(5),
        b"T\x00\x00\x00\x1a\x00\x01v\x00\x00\x00\x00\x00\x00\x00\x00\x00\x04\x13\xff\xff\x00\x00\x00\x09\x00\x00",
    ),
    (
        SqlType::Numeric,
        b"T\x00\x00\x00\x1a\x00\x01v\x00\x00\x00\x00\x00\x00\x00\x00\x00\x06\xa4\xff\xff\xff\xff\xff\xff\x00\x00",
    ),
];

// Whether the type's modifier can be told.
fn fits(kind: SqlType) -> bool
    ensures { IsTrue result → FitsModifier kind }
{
    match kind {
        SqlType::Varchar(limit) => limit <= 65_536,
        _ => true,
    }
}

// Describes the column `v` of this type.
fn append_column(alloc: Global, out: &mut Vec<u8>, kind: SqlType) -> Result<(), Memory>
    requires { FitsModifier kind }
{
    let name = match Text::from_bytes(alloc, b"v") {
        Ok(name) => name,
        Err(_) => return Err(Memory),
    };
    append_row_description(alloc, out, &[OutField { name, kind }])
}

fn append_if_it_fits(alloc: Global, out: &mut Vec<u8>, kind: SqlType) -> Result<(), Memory> {
    if fits(kind) {
        append_column(alloc, out, kind)
    } else {
        Err(Memory)
    }
}

fn description(alloc: Global, kind: SqlType) -> Result<Vec<u8>, Memory> {
    let mut out = Vec::new(alloc);
    let appended = append_if_it_fits(alloc, &mut out, kind);
    kept(out, appended)
}

fn describes(alloc: Global) -> Result<(), Fail> {
    for (place, (kind, want)) in COLUMNS.iter().enumerate() {
        is("columns", place, description(alloc, *kind), want)?;
    }
    Ok(())
}

// A value without a text of its own.
#[derive(Clone, Copy)]
enum Lit {
    Unset,
    Null,
    Flag(bool),
    Int(i64),
    Wide(i128),
}

fn value_of(lit: Lit) -> Value {
    match lit {
        Lit::Unset => Value::Unset,
        Lit::Null => Value::Null,
        Lit::Flag(flag) => Value::Flag(flag),
        Lit::Int(n) => Value::Int(n),
        Lit::Wide(n) => Value::Wide(n),
    }
}

// Values, and the row of each.
const ROWS: &[(Lit, &[u8])] = &[
    (Lit::Unset, b"D\x00\x00\x00\x0a\x00\x01\xff\xff\xff\xff"),
    (Lit::Null, b"D\x00\x00\x00\x0a\x00\x01\xff\xff\xff\xff"),
    (
        Lit::Flag(true),
        b"D\x00\x00\x00\x0b\x00\x01\x00\x00\x00\x01t",
    ),
    (
        Lit::Flag(false),
        b"D\x00\x00\x00\x0b\x00\x01\x00\x00\x00\x01f",
    ),
    (Lit::Int(10), b"D\x00\x00\x00\x0c\x00\x01\x00\x00\x00\x0210"),
    (Lit::Int(-7), b"D\x00\x00\x00\x0c\x00\x01\x00\x00\x00\x02-7"),
    (
        Lit::Wide(-18_446_744_073_709_551_616),
        b"D\x00\x00\x00\x1f\x00\x01\x00\x00\x00\x15-18446744073709551616",
    ),
];

// Whether a value has a small text.
#[tactic(auto, unfolding(pg_framing::specs::Spelling::four_bytes, pg_framing::specs::Replies::value_bytes))]
fn is_small(value: &Value) -> bool
    ensures { IsTrue result → length (value_bytes value.now) < 200 }
{
    let mut buffer = Buffer::new();
    match value {
        Value::Int(n) => buffer.format(*n).len() < 99,
        Value::Wide(n) => buffer.format(*n).len() < 99,
        Value::Text(text) => text.bytes().len() < 99,
        _ => true,
    }
}

// Writes the row of this small value.
fn append_row(alloc: Global, out: &mut Vec<u8>, value: Value) -> Result<(), Memory> {
    if !is_small(&value) {
        return Err(Memory);
    }
    append_data_row(alloc, out, &[value])
}

fn row(alloc: Global, lit: Lit) -> Result<Vec<u8>, Memory> {
    let mut out = Vec::new(alloc);
    let appended = append_row(alloc, &mut out, value_of(lit));
    kept(out, appended)
}

fn writes_rows(alloc: Global) -> Result<(), Fail> {
    for (place, (lit, want)) in ROWS.iter().enumerate() {
        is("rows", place, row(alloc, *lit), want)?;
    }
    Ok(())
}

fn append_ends(alloc: Global, out: &mut Vec<u8>, tag: &[u8]) -> Result<(), Memory>
    requires { length tag.now < 99 }
{
    if has_no_zero(tag) {
        append_command_complete(alloc, out, tag)?;
    }
    append_empty_query_response(alloc, out)?;
    append_ready_for_query(alloc, out, TransactionState::Block)?;
    append_ready_for_query(alloc, out, TransactionState::Failed)
}

// A statement's end, an empty query's, and the two other states.
fn ends(alloc: Global) -> Result<Vec<u8>, Memory> {
    let mut out = Vec::new(alloc);
    let appended = append_ends(alloc, &mut out, b"SELECT 1");
    kept(out, appended)
}

const ENDS: &[u8] =
    b"C\x00\x00\x00\x0dSELECT 1\x00I\x00\x00\x00\x04Z\x00\x00\x00\x05TZ\x00\x00\x00\x05E";

fn append_reports(alloc: Global, out: &mut Vec<u8>) -> Result<(), Memory> {
    append_error_response(alloc, out, Severity::Error, SqlState::S22012)?;
    append_error_response(alloc, out, Severity::Fatal, SqlState::S28000)?;
    append_notice_response(alloc, out, SqlState::S25P01)
}

// An error, a fatal one and a warning.
fn reports(alloc: Global) -> Result<Vec<u8>, Memory> {
    let mut out = Vec::new(alloc);
    let appended = append_reports(alloc, &mut out);
    kept(out, appended)
}

const REPORTS: &[u8] =
    b"E\x00\x00\x00\x2cSERROR\x00VERROR\x00C22012\x00Mdivision by zero\x00\x00E\x00\x00\x00\x3bSFATAL\x00VFATAL\x00C28000\x00Mno user name in startup message\x00\x00N\x00\x00\x00\x43SWARNING\x00VWARNING\x00C25P01\x00Mthere is no transaction in progress\x00\x00";

#[test]
fn replies_have_the_bytes_of_the_protocol(rt: HostRuntime) -> Result<(), Fail> {
    welcomes(rt.alloc())?;
    describes(rt.alloc())?;
    writes_rows(rt.alloc())?;
    is("ends", 0, ends(rt.alloc()), ENDS)?;
    is("reports", 0, reports(rt.alloc()), REPORTS)
}
