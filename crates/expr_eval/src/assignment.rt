// The conversion of a value to a column's type.
ghost use Rattle.std.specs.Prelude.{◌≡◌, ◌≤◌, ◌-◌, ◌==◌, ◌||◌, nat_le, length, take, drop, chars, IfOk};
ghost use Rattle.std.specs.Str.{IsUtf8};
ghost use Rattle.typing_rules.specs.Assignment.{assigned, are_spaces, stored_text, limited_text};
ghost use Rattle.expr_eval.specs.Answers.{Answers};

use cell_base::{Memory, SqlFault, SqlState, SqlType, Text, TextFault, Value};
use std::alloc::Global;

/// The most bytes of a text in a cell.
const MAX_BYTES: usize = 65_536;

/// The value as one of a column's type, as PostgreSQL assigns it. Null goes to every type.
///
/// `S22003`: an integer that the type doesn't have. `S22001`: more characters than a varchar's limit, and not all of what is
/// too much is spaces. `S54000`: a text of more than 65,536 bytes. `S42804`: the value doesn't go to the type.
pub fn assign(alloc: Global, value: Value, kind: SqlType) -> Result<Value, SqlFault>
    ensures { Answers result (assigned kind value) }
{
    match (kind, value) {
        (_, Value::Unset | Value::Null) => Ok(Value::Null),
        (SqlType::Boolean, Value::Flag(flag)) => Ok(Value::Flag(flag)),
        (SqlType::Integer, Value::Int(n)) => integer(n),
        (SqlType::Bigint, Value::Int(n)) => Ok(Value::Int(n)),
        (SqlType::Text, Value::Text(text)) => stored(text),
        (SqlType::Varchar(limit), Value::Text(text)) => limited(alloc, limit, text),
        _ => Err(SqlFault::State(SqlState::S42804)),
    }
}

fn integer(n: i64) -> Result<Value, SqlFault>
    ensures { Answers result (assigned SqlType.Integer (Value.Int n)) }
{
    match i32::try_from(n) {
        Ok(_) => Ok(Value::Int(n)),
        Err(_) => Err(SqlFault::State(SqlState::S22003)),
    }
}

fn stored(text: Text) -> Result<Value, SqlFault>
    ensures { Answers result (stored_text text) }
{
    if text.bytes().len() > MAX_BYTES {
        Err(SqlFault::State(SqlState::S54000))
    } else {
        Ok(Value::Text(text))
    }
}

fn limited(alloc: Global, limit: u32, text: Text) -> Result<Value, SqlFault>
    ensures { Answers result (limited_text limit text) }
{
    let count = character_count(&text);
    let limit = limit as usize;
    if has_room(limit, count) {
        stored(text)
    } else if has_spaces_from(&text, limit) {
        shortened(alloc, &text, count - limit)
    } else {
        Err(SqlFault::State(SqlState::S22001))
    }
}

fn character_count(text: &Text) -> usize
    ensures count { result ≡ length (chars text.now) }
    ensures utf8 { IsUtf8 text.now }
{
    text.as_str().chars().count()
}

/// Whether a text of so many characters keeps the limit.
fn has_room(limit: usize, count: usize) -> bool
    ensures { result ≡ (limit == 0 || nat_le count limit) }
{
    limit == 0 || count <= limit
}

/// Whether all characters from this place on are spaces.
fn has_spaces_from(text: &Text, place: usize) -> bool
    ensures { result ≡ are_spaces (drop place (chars text.now)) }
{
    text.as_str().chars().skip(place).all(|c| c == ' ')
}

/// The text without so many spaces at its end.
fn shortened(alloc: Global, text: &Text, spaces: usize) -> Result<Value, SqlFault>
    requires fits { spaces ≤ length text.now }
    requires utf8 { IsUtf8 (take (length text.now - spaces) text.now) }
    ensures { Answers result (stored_text (take (length text.now - spaces) text.now)) }
{
    let end = text.bytes().len() - spaces;
    if end > MAX_BYTES {
        Err(SqlFault::State(SqlState::S54000))
    } else {
        Ok(Value::Text(prefix(alloc, text, end)?))
    }
}

fn prefix(alloc: Global, text: &Text, end: usize) -> Result<Text, Memory>
    requires fits { end ≤ length text.now }
    requires utf8 { IsUtf8 (take end text.now) }
    ensures { IfOk result (λ prefix. prefix ≡ take end text.now) }
{
    match Text::from_bytes(alloc, &text.bytes()[..end]) {
        Ok(prefix) => Ok(prefix),
        Err(TextFault::Memory) => Err(Memory),
        Err(TextFault::NotUtf8) => unreachable!(),
    }
}
