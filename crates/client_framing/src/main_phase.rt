// Reads a message of a started session from the front of what is held.
ghost use Rattle.std.specs.Prelude.{◌≡◌, ◌≢◌, ◌≤◌, ◌+◌, ◌-◌, ◌∷◌, ◌++◌, [], length, take, drop, true, Some, IfOk, IfErr, IfSome, IsNone};
ghost use Rattle.cell_base.specs.Texts.{HasNoZero};
ghost use Rattle.client_framing.specs.Spelling.{IsBody, type_of};
ghost use Rattle.client_framing.specs.Fronts.{TakesFront, IsPartial, HasFault, IsNoText, CanHaveLength};
ghost use Rattle.client_framing.specs.Reading.{byte_of};

use crate::message_type::{MessageType, can_have_length, type_of};
use crate::parts::{number_at, text_of};
use crate::{FrameFault, FrontendMessage};
use cell_base::Items;
use std::alloc::Global;

// The greatest length of a message.
const MOST_LENGTH: u32 = 1_048_576;

/// The message at the front, and how many bytes it takes.
pub fn message_of(
    alloc: Global,
    bytes: &[u8],
) -> Result<Option<(FrontendMessage, usize)>, FrameFault>
    ensures found { IfOk result (λ r. IfSome r (λ x. TakesFront true bytes.now x.0 (drop x.1 bytes.now))) }
    ensures within { IfOk result (λ r. IfSome r (λ x. x.1 ≤ length bytes.now)) }
    ensures partial { IfOk result (λ r. IsNone r → IsPartial true bytes.now) }
    ensures bad { IfErr result (λ e. e ≢ FrameFault.Memory → HasFault true bytes.now e) }
{
    if bytes.is_empty() {
        return Ok(None);
    }
    let Some(kind) = type_of(bytes[0]) else {
        return Err(FrameFault::UnknownType(bytes[0]));
    };
    if bytes.len() < 5 {
        return Ok(None);
    }
    let len = number_at(bytes, 1);
    if !can_have_length(kind, len) {
        return Err(FrameFault::BadLength(len));
    }
    if len > MOST_LENGTH {
        return Err(FrameFault::TooLong(len));
    }
    let end = 1 + len as usize;
    if bytes.len() < end {
        return Ok(None);
    }
    let message = message_with(alloc, kind, &bytes[5..end])?;
    Ok(Some((message, end)))
}

// The message of this type and body.
fn message_with(
    alloc: Global,
    kind: MessageType,
    body: &[u8],
) -> Result<FrontendMessage, FrameFault>
    requires { CanHaveLength (byte_of kind) (4 + length body.now) }
    ensures kind { IfOk result (λ message. type_of message ≡ Some (byte_of kind)) }
    ensures body { IfOk result (λ message. IsBody message body.now) }
    ensures fault { IfErr result (λ e. e ≢ FrameFault.Memory → e ≡ FrameFault.NoTerminator) }
    ensures query { IfErr result (λ e. e ≢ FrameFault.Memory → byte_of kind ≡ 81) }
    ensures no_text { IfErr result (λ e. e ≢ FrameFault.Memory → IsNoText body.now) }
{
    match kind {
        MessageType::Query => query_of(alloc, body),
        MessageType::Terminate => Ok(FrontendMessage::Terminate),
        MessageType::Sync => Ok(FrontendMessage::Sync),
        MessageType::Flush => Ok(FrontendMessage::Flush),
        MessageType::Extended(message) => Ok(FrontendMessage::Extended(message)),
        MessageType::FunctionCall => Ok(FrontendMessage::FunctionCall),
        MessageType::Copy(message) => Ok(FrontendMessage::Copy(message)),
    }
}

// The query of this body.
fn query_of(alloc: Global, body: &[u8]) -> Result<FrontendMessage, FrameFault>
    ensures kind { IfOk result (λ message. type_of message ≡ Some 81) }
    ensures body { IfOk result (λ message. IsBody message body.now) }
    ensures fault { IfErr result (λ e. e ≢ FrameFault.Memory → e ≡ FrameFault.NoTerminator) }
    ensures no_text { IfErr result (λ e. e ≢ FrameFault.Memory → IsNoText body.now) }
{
    let Some(text) = query_text(body) else {
        return Err(FrameFault::NoTerminator);
    };
    let text = Items::from_slice(alloc, text)?;
    Ok(FrontendMessage::Query(text))
}

// A text that is closed by its only zero byte.
fn query_text(body: &[u8]) -> Option<&[u8]>
    ensures some { IfSome result (λ text. body.now ≡ text.now ++ 0 ∷ []) }
    ensures no_zero { IfSome result (λ text. HasNoZero text.now) }
    ensures none { IsNone result → IsNoText body.now }
{
    let (text, after) = text_of(body)?;
    if after.is_empty() { Some(text) } else { None }
}
