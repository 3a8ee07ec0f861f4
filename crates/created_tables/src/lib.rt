//! No tests, but a library of those of histories: the table that a text creates.
#![tactic(auto)]

ghost use Rattle.std.specs.Prelude.{◌<◌, ◌^◌, length, IfOk};
ghost use Rattle.cell_base.specs.Texts.{HasNoZero};
ghost use Rattle.sql_statements.specs.Faults.{AreStatementsOf};
ghost use Rattle.sound_table.specs.Sound.{IsSound};

use cell_base::{Memory, Text};
use held_values::without;
use sound_text::built_is_sound;
use sql_statements::statements;
use sql_tree::{Statement, Table};
use std::alloc::Global;
use table_schema::build;

/// The table that the text creates, of fewer than 256 bytes. An error is out of memory, or a text that creates no table.
pub fn table_of(alloc: Global, text: &[u8]) -> Result<Table, Memory>
    ensures { IfOk result IsSound }
{
    if text.len() > 255 || text.contains(&0) {
        return Err(Memory);
    }
    let Ok(text) = Text::from_bytes(alloc, text) else {
        return Err(Memory);
    };
    table_of_text(alloc, &text)
}

fn table_of_text(alloc: Global, text: &Text) -> Result<Table, Memory>
    requires within { length text.now < 2 ^ 32 }
    requires plain { HasNoZero text.now }
    ensures { IfOk result IsSound }
{
    let Ok(list) = statements(alloc, text) else {
        return Err(Memory);
    };
    let table = first_table(alloc, text, list.as_slice());
    without(list, table)
}

/// The table that the first of the text's statements creates.
fn first_table(alloc: Global, _text: &Text, list: &[Statement]) -> Result<Table, Memory>
    requires plain { HasNoZero _text.now }
    requires list { AreStatementsOf _text.now list.now }
    ensures { IfOk result IsSound }
{
    built_is_sound();
    let Some(Statement::Create(create)) = list.first() else {
        return Err(Memory);
    };
    let Ok(table) = build(alloc, create) else {
        return Err(Memory);
    };
    Ok(table)
}
