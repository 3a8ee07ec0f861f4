// The reply of a statement that reads or writes rows.
ghost use Rattle.std.specs.Prelude.{◌≡◌, ◌≤◌, ◌++◌, length, flat_map, All, IfOk, OnOk};
ghost use Rattle.std.specs.Fmt.{decimal};
ghost use Rattle.cell_base.specs.Texts.{HasNoZero};
ghost use Rattle.pg_framing.specs.Replies.{data_row, command_complete};
ghost use Rattle.described_columns.specs.Described.{AreDescribed};
ghost use Rattle.outcome_replies.specs.Replies.{columns_reply, outcome_reply, CanBeTold, RowFits};

use crate::description::RowDescription;
use cell_base::{Items, Memory, Value};
use itoa::Buffer;
use pg_framing::{
    Severity, append_command_complete, append_data_row, append_error_response,
    append_row_description,
};
use sql_tree::OutField;
use statement_course::Outcome;
use std::alloc::Global;

// One message for each row.
fn append_rows(alloc: Global, out: &mut Vec<u8>, rows: &[Items<Value>]) -> Result<(), Memory>
    requires { All RowFits rows.now }
    ensures { OnOk result (out.new.items ≡ out.old.items ++ flat_map data_row rows.now) }
{
    for row in rows {
        append_data_row(alloc, out, row.as_slice())?;
    }
    Ok(())
}

// CommandComplete, with a word and a number.
fn append_count(alloc: Global, out: &mut Vec<u8>, word: &[u8], n: u64) -> Result<(), Memory>
    requires no_zero { HasNoZero word.now }
    requires fits { length word.now ≤ 16 }
    ensures { OnOk result (out.new.items ≡ out.old.items ++ command_complete (word.now ++ decimal n)) }
{
    let mut tag = Vec::new(alloc);
    tag.extend_from_slice(word)?;
    let mut buffer = Buffer::new();
    tag.extend_from_slice(buffer.format(n).as_bytes())?;
    append_command_complete(alloc, out, &tag)
}

// The columns of a result, where they are told.
fn append_columns(
    alloc: Global,
    out: &mut Vec<u8>,
    fields: &[OutField],
    description: RowDescription,
) -> Result<(), Memory>
    requires { AreDescribed fields.now }
    ensures { OnOk result (out.new.items ≡ out.old.items ++ columns_reply description fields.now) }
{
    match description {
        RowDescription::Told => append_row_description(alloc, out, fields),
        RowDescription::Omitted => Ok(()),
    }
}

// The columns of a result, where they are told, its rows and how many they are.
#[tactic(auto, unfolding(crate::specs::Replies::outcome_reply))]
fn append_result(
    alloc: Global,
    out: &mut Vec<u8>,
    fields: &[OutField],
    rows: &[Items<Value>],
    description: RowDescription,
) -> Result<(), Memory>
    requires described { AreDescribed fields.now }
    requires fits { All RowFits rows.now }
    ensures { OnOk result (out.new.items ≡ out.old.items ++ outcome_reply description (Outcome.Rows fields.now rows.now)) }
{
    append_columns(alloc, out, fields, description)?;
    append_rows(alloc, out, rows)?;
    append_count(alloc, out, b"SELECT ", rows.len() as u64)
}

// The messages that tell what a statement came to.
#[tactic(auto, unfolding(crate::specs::Replies::outcome_reply))]
fn append_outcome(
    alloc: Global,
    out: &mut Vec<u8>,
    outcome: &Outcome,
    description: RowDescription,
) -> Result<(), Memory>
    requires { CanBeTold outcome.now }
    ensures { OnOk result (out.new.items ≡ out.old.items ++ outcome_reply description outcome.now) }
{
    match outcome {
        Outcome::Rows(fields, rows) => append_result(
            alloc,
            out,
            fields.as_slice(),
            rows.as_slice(),
            description,
        ),
        Outcome::Inserted(n) => append_count(alloc, out, b"INSERT 0 ", *n as u64),
        Outcome::Updated(n) => append_count(alloc, out, b"UPDATE ", *n as u64),
        Outcome::Deleted(n) => append_count(alloc, out, b"DELETE ", *n as u64),
        Outcome::Failed(code) => append_error_response(alloc, out, Severity::Error, *code),
    }
}

/// The messages that tell what a statement came to, with or without the RowDescription of a SELECT.
pub fn reply_of(
    alloc: Global,
    outcome: &Outcome,
    description: RowDescription,
) -> Result<Vec<u8>, Memory>
    requires { CanBeTold outcome.now }
    ensures { IfOk result (λ reply. reply.items ≡ outcome_reply description outcome.now) }
{
    let mut reply = Vec::new(alloc);
    append_outcome(alloc, &mut reply, outcome, description)?;
    Ok(reply)
}
