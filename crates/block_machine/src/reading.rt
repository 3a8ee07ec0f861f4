// What the bytes of a query message ask for.
ghost use Rattle.std.specs.Prelude.{◌≡◌, ◌≢◌, ◌<◌, ◌^◌, length, IfOk};
ghost use Rattle.std.specs.Str.{IsUtf8};
ghost use Rattle.cell_base.specs.Texts.{HasNoZero};
ghost use Rattle.sql_statements.specs.Faults.{state_of};
ghost use Rattle.block_machine.specs.Messages.{IsMessage};
ghost use Rattle.block_machine.specs.Stages.{IsSoundMessage};

use crate::message::Message;
use cell_base::{Memory, SqlState, Text, TextFault};
use sql_statements::{ParseFault, statements};
use std::alloc::Global;

// What a text with this fault asks for.
fn unread(fault: &ParseFault) -> Result<Message, Memory>
    ensures unread { IfOk result (λ message. message ≡ Message.Unread (state_of fault.now)) }
    ensures other { IfOk result (λ message. fault.now ≢ ParseFault.Memory) }
{
    match fault {
        ParseFault::Memory => Err(Memory),
        _ => Ok(Message::Unread(fault.state())),
    }
}

// What a text asks for.
fn read_text(alloc: Global, text: &Text) -> Result<Message, Memory>
    requires fits { length text.now < 2 ^ 32 }
    requires utf8 { IsUtf8 text.now }
    ensures message { IfOk result (IsMessage text.now) }
    ensures sound { HasNoZero text.now → IfOk result IsSoundMessage }
{
    match statements(alloc, text) {
        Ok(found) => Ok(Message::Statements(found)),
        Err(fault) => unread(&fault),
    }
}

/// What the bytes of a query message ask for, fewer than 4,294,967,296. Bytes that aren't UTF-8 are 22021, and a text that isn't read
/// has the code of its fault.
pub fn read_message(alloc: Global, text: &[u8]) -> Result<Message, Memory>
    requires { length text.now < 2 ^ 32 }
    ensures message { IfOk result (IsMessage text.now) }
    ensures sound { HasNoZero text.now → IfOk result IsSoundMessage }
{
    match Text::from_bytes(alloc, text) {
        Ok(text) => read_text(alloc, &text),
        Err(TextFault::NotUtf8) => Ok(Message::Unread(SqlState::S22021)),
        Err(TextFault::Memory) => Err(Memory),
    }
}
