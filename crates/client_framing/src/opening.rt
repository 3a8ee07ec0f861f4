// Reads a message that stands before the startup's end from the front of what is held.
ghost use Rattle.std.specs.Prelude.{◌≡◌, ◌≢◌, ◌≤◌, ◌-◌, ◌↔◌, length, take, drop, false, Some, IfOk, IfErr, IfSome, IsNone, IsTrue};
ghost use Rattle.client_framing.specs.Spelling.{IsBody, code_of};
ghost use Rattle.client_framing.specs.Fronts.{TakesFront, IsPartial, HasFault};
ghost use Rattle.client_framing.specs.Reading.{CanBeBody, IsRightlyNamed, opening_code};

use crate::opening_type::{OpeningType, opening_type};
use crate::pairs::{can_be_pairs, pairs_of};
use crate::parts::number_at;
use crate::{FrameFault, FrontendMessage};
use cell_base::Memory;
use std::alloc::Global;

// The greatest length of a message before the startup's end.
const MOST_LENGTH: u32 = 10_000;

/// The message before the startup's end, and how many bytes it takes.
pub fn opening_of(
    alloc: Global,
    bytes: &[u8],
) -> Result<Option<(FrontendMessage, usize)>, FrameFault>
    ensures found { IfOk result (λ r. IfSome r (λ x. TakesFront false bytes.now x.0 (drop x.1 bytes.now))) }
    ensures within { IfOk result (λ r. IfSome r (λ x. x.1 ≤ length bytes.now)) }
    ensures partial { IfOk result (λ r. IsNone r → IsPartial false bytes.now) }
    ensures bad { IfErr result (λ e. e ≢ FrameFault.Memory → HasFault false bytes.now e) }
{
    if bytes.len() < 4 {
        return Ok(None);
    }
    let len = number_at(bytes, 0);
    if len < 8 {
        return Err(FrameFault::BadLength(len));
    }
    if len > MOST_LENGTH {
        return Err(FrameFault::TooLong(len));
    }
    if bytes.len() < 8 {
        return Ok(None);
    }
    let kind = opening_type(number_at(bytes, 4));
    let len = len as usize;
    let held = held_after_code(bytes, len);
    if !can_be_body(kind, held, len - 8) {
        return Err(FrameFault::BadStartup);
    }
    if bytes.len() < len {
        return Ok(None);
    }
    let message = opening_with(alloc, kind, held)?;
    Ok(Some((message, len)))
}

// What is held of a message's bytes after its code.
fn held_after_code(bytes: &[u8], len: usize) -> &[u8]
    requires held { 8 ≤ length bytes.now }
    requires low { 8 ≤ len }
    ensures { result.now ≡ take (len - 8) (drop 8 bytes.now) }
{
    if bytes.len() < len {
        &bytes[8..]
    } else {
        &bytes[8..len]
    }
}

// Whether the bytes can go on to be the body of a message of this type, so many bytes in all.
fn can_be_body(kind: OpeningType, held: &[u8], size: usize) -> bool
    requires fits { length held.now ≤ size }
    requires named { IsRightlyNamed kind }
    ensures { IsTrue result ↔ CanBeBody (opening_code kind) size held.now }
{
    match kind {
        OpeningType::Startup => can_be_pairs(held, size),
        OpeningType::Cancel => size == 8,
        OpeningType::Ssl | OpeningType::Gss => size == 0,
        OpeningType::Version(_) => true,
    }
}

// The message of this type and body.
fn opening_with(alloc: Global, kind: OpeningType, body: &[u8]) -> Result<FrontendMessage, Memory>
    requires body { CanBeBody (opening_code kind) (length body.now) body.now }
    requires named { IsRightlyNamed kind }
    ensures code { IfOk result (λ message. code_of message ≡ Some (opening_code kind)) }
    ensures body { IfOk result (λ message. IsBody message body.now) }
{
    match kind {
        OpeningType::Startup => Ok(FrontendMessage::Startup(pairs_of(alloc, body)?)),
        OpeningType::Cancel => Ok(FrontendMessage::Cancel(number_at(body, 0), number_at(body, 4))),
        OpeningType::Ssl => Ok(FrontendMessage::Ssl),
        OpeningType::Gss => Ok(FrontendMessage::Gss),
        OpeningType::Version(code) => Ok(FrontendMessage::Version(code)),
    }
}
