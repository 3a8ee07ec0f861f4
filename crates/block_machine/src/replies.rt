// The replies to the statements of a message as bytes.
ghost use Rattle.std.specs.Prelude.{◌≡◌, ◌≤◌, ◌++◌, ◌∷◌, [], length, IfOk, OnOk};
ghost use Rattle.outcome_replies.specs.Replies.{columns_reply};
ghost use Rattle.cell_base.specs.Texts.{HasNoZero};
ghost use Rattle.cell_base.specs.declared.value.Value.TheVariants as values;
ghost use Rattle.pg_framing.specs.Replies.{data_row};
ghost use Rattle.block_machine.specs.Settings.{IsShown};
ghost use Rattle.block_machine.specs.Replies.{ready_reply, error_reply, empty_reply, done_reply, warned_reply, show_reply};

use cell_base::{Memory, SqlState, SqlType, Text, TextFault, Value};
use outcome_replies::RowDescription;
use pg_framing::{
    Severity, TransactionState, append_command_complete, append_data_row,
    append_empty_query_response, append_error_response, append_notice_response,
    append_ready_for_query, append_row_description,
};
use sql_tree::OutField;
use std::alloc::Global;

/// ReadyForQuery, by the state of the session.
#[tactic(auto, unfolding(crate::specs::Replies::ready_reply))]
pub fn ready(alloc: Global, state: TransactionState) -> Result<Vec<u8>, Memory>
    ensures { IfOk result (λ reply. reply.items ≡ ready_reply state) }
{
    let mut reply = Vec::new(alloc);
    append_ready_for_query(alloc, &mut reply, state)?;
    Ok(reply)
}

/// ErrorResponse with this code, of severity ERROR.
#[tactic(auto, unfolding(crate::specs::Replies::error_reply))]
pub fn error(alloc: Global, state: SqlState) -> Result<Vec<u8>, Memory>
    ensures { IfOk result (λ reply. reply.items ≡ error_reply state) }
{
    let mut reply = Vec::new(alloc);
    append_error_response(alloc, &mut reply, Severity::Error, state)?;
    Ok(reply)
}

/// EmptyQueryResponse.
#[tactic(auto, unfolding(crate::specs::Replies::empty_reply))]
pub fn empty(alloc: Global) -> Result<Vec<u8>, Memory>
    ensures { IfOk result (λ reply. reply.items ≡ empty_reply) }
{
    let mut reply = Vec::new(alloc);
    append_empty_query_response(alloc, &mut reply)?;
    Ok(reply)
}

/// CommandComplete with this tag.
#[tactic(auto, unfolding(crate::specs::Replies::done_reply))]
pub fn done(alloc: Global, tag: &[u8]) -> Result<Vec<u8>, Memory>
    requires no_zero { HasNoZero tag.now }
    requires fits { length tag.now ≤ 32 }
    ensures { IfOk result (λ reply. reply.items ≡ done_reply tag.now) }
{
    let mut reply = Vec::new(alloc);
    append_command_complete(alloc, &mut reply, tag)?;
    Ok(reply)
}

/// The reply to a statement that wasn't needed: NoticeResponse with this code, and CommandComplete with this tag.
#[tactic(auto, unfolding(crate::specs::Replies::warned_reply))]
pub fn warned(alloc: Global, state: SqlState, tag: &[u8]) -> Result<Vec<u8>, Memory>
    requires no_zero { HasNoZero tag.now }
    requires fits { length tag.now ≤ 32 }
    ensures { IfOk result (λ reply. reply.items ≡ warned_reply state tag.now) }
{
    let mut reply = Vec::new(alloc);
    append_notice_response(alloc, &mut reply, state)?;
    append_command_complete(alloc, &mut reply, tag)?;
    Ok(reply)
}

// The text as a `Text`.
fn text_of(alloc: Global, text: &str) -> Result<Text, Memory>
    ensures { IfOk result (λ it. it ≡ text.now) }
{
    match Text::from_bytes(alloc, text.as_bytes()) {
        Ok(text) => Ok(text),
        Err(TextFault::Memory) => Err(Memory),
        // A `&str` is UTF-8.
        Err(TextFault::NotUtf8) => unreachable!(),
    }
}

// The one column of a SHOW, of type text.
fn column(alloc: Global, name: &str) -> Result<OutField, Memory>
    ensures { IfOk result (λ field. field ≡ record { name = name.now; kind = SqlType.Text }) }
{
    Ok(OutField {
        name: text_of(alloc, name)?,
        kind: SqlType::Text,
    })
}

// The column of a SHOW, where it is told.
fn append_column(
    alloc: Global,
    reply: &mut Vec<u8>,
    name: &str,
    description: RowDescription,
) -> Result<(), Memory>
    requires { IsShown name.now }
    ensures { OnOk result (reply.new.items ≡ reply.old.items ++
        columns_reply description (record { name = name.now; kind = SqlType.Text } ∷ [])) }
{
    match description {
        RowDescription::Told => {
            let field = column(alloc, name)?;
            append_row_description(alloc, reply, &[field])
        }
        RowDescription::Omitted => Ok(()),
    }
}

// The row of a SHOW.
fn append_text(alloc: Global, reply: &mut Vec<u8>, text: &str) -> Result<(), Memory>
    requires { length text.now ≤ 64 }
    ensures { OnOk result (reply.new.items ≡ reply.old.items ++ data_row (values.Text text.now ∷ [])) }
{
    let text = text_of(alloc, text)?;
    append_data_row(alloc, reply, &[Value::Text(text)])
}

/// The reply to a SHOW: RowDescription with the name that was asked for, where it is told, DataRow with the value, and CommandComplete.
#[tactic(auto, unfolding(crate::specs::Replies::show_reply))]
pub fn shown(
    alloc: Global,
    name: &str,
    value: &str,
    description: RowDescription,
) -> Result<Vec<u8>, Memory>
    requires name { IsShown name.now }
    requires value { length value.now ≤ 64 }
    ensures { IfOk result (λ reply. reply.items ≡ show_reply description name.now value.now) }
{
    let mut reply = Vec::new(alloc);
    append_column(alloc, &mut reply, name, description)?;
    append_text(alloc, &mut reply, value)?;
    append_command_complete(alloc, &mut reply, b"SHOW")?;
    Ok(reply)
}
