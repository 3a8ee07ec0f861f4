// The types of the messages that stand after the startup.
ghost use Rattle.std.specs.Prelude.{◌≡◌, ◌↔◌, IfSome, IsNone, IsTrue};
ghost use Rattle.client_framing.specs.Fronts.{IsType, CanHaveLength};
ghost use Rattle.client_framing.specs.Reading.{byte_of};

use crate::{CopyMessage, Extended};

/// The type of a message, which its first byte says.
#[derive(Clone, Copy, Debug)]
pub enum MessageType {
    Query,
    Terminate,
    Sync,
    Flush,
    Extended(Extended),
    FunctionCall,
    Copy(CopyMessage),
}

/// The type that the byte says.
pub fn type_of(byte: u8) -> Option<MessageType>
    ensures some { IfSome result (λ kind. byte_of kind ≡ byte) }
    ensures none { IsNone result → (¬ (IsType byte)) }
{
    match byte {
        b'Q' => Some(MessageType::Query),
        b'X' => Some(MessageType::Terminate),
        b'S' => Some(MessageType::Sync),
        b'H' => Some(MessageType::Flush),
        b'P' => Some(MessageType::Extended(Extended::Parse)),
        b'B' => Some(MessageType::Extended(Extended::Bind)),
        b'D' => Some(MessageType::Extended(Extended::Describe)),
        b'E' => Some(MessageType::Extended(Extended::Execute)),
        b'C' => Some(MessageType::Extended(Extended::Close)),
        b'F' => Some(MessageType::FunctionCall),
        b'd' => Some(MessageType::Copy(CopyMessage::Data)),
        b'c' => Some(MessageType::Copy(CopyMessage::Done)),
        b'f' => Some(MessageType::Copy(CopyMessage::Fail)),
        _ => None,
    }
}

/// Whether a message of this type can have this length.
pub fn can_have_length(kind: MessageType, len: u32) -> bool
    ensures { IsTrue result ↔ CanHaveLength (byte_of kind) len }
{
    match kind {
        MessageType::Query => len >= 5,
        MessageType::Terminate | MessageType::Sync | MessageType::Flush => len == 4,
        MessageType::Extended(_) | MessageType::FunctionCall | MessageType::Copy(_) => len >= 4,
    }
}
