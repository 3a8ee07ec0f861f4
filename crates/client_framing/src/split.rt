// A whole stream, in whatever pieces it came.
ghost use Rattle.std.specs.Prelude.{◌≡◌, List, ℕ, length, flat_map, IfOk, OnOk, false};
ghost use Rattle.client_framing.specs.Fronts.{Stream, IsStream, IsRead, TakesFronts, grafted, end_of};
ghost use Rattle.client_framing.specs.Reading.{SplitsInto, EndsWith};

use crate::{FrameFault, Frames, FrontendMessage};
use cell_base::{Items, Memory};
use std::alloc::Global;

/// A stream as it is read: its messages, the number of bytes held after them, and the fault that stands there.
#[derive(Debug, Drop)]
pub struct Split {
    pub messages: Items<FrontendMessage>,
    pub rest: usize,
    pub fault: Option<FrameFault>,
}

/// Reads a stream that comes in these pieces, each piece to its last whole message before the next one comes.
pub fn split_stream(alloc: Global, pieces: &[Items<u8>]) -> Result<Split, Memory>
    // The pieces joined are these messages, and after them the rest or the fault.
    ensures stream { IfOk result (λ s. (rest : List ℕ) × IsStream false (flat_map (λ piece. piece) pieces.now) (grafted s.messages (end_of rest s.fault)) × (length rest ≡ s.rest)) }
    // They are nothing else, so it doesn't matter how the stream was cut into pieces.
    ensures only { IfOk result (λ s. (other : Stream) → IsStream false (flat_map (λ piece. piece) pieces.now) other → IsRead other
        → (rest : List ℕ) × (other ≡ grafted s.messages (end_of rest s.fault)) × (length rest ≡ s.rest)) }
    // So many bytes are left after the messages, also where a fault stands there.
    ensures rest { IfOk result (λ s. (rest : List ℕ) × TakesFronts false (flat_map (λ piece. piece) pieces.now) s.messages rest × (length rest ≡ s.rest)) }
{
    let mut frames = Frames::new(alloc);
    let mut messages = Items::new(alloc);
    let mut fault = None;
    for piece in pieces {
        frames.feed(piece.as_slice())?;
        fault = take_messages(&mut frames, &mut messages)?;
    }
    Ok(Split {
        messages,
        rest: frames.rest(),
        fault,
    })
}

// Takes each whole message, and answers the fault after them.
fn take_messages(
    frames: &mut Frames,
    messages: &mut Items<FrontendMessage>,
) -> Result<Option<FrameFault>, Memory>
    ensures splits { (stream : List ℕ) → SplitsInto stream messages.old frames.old → OnOk result (SplitsInto stream messages.new frames.new) }
    ensures ends { IfOk result (λ fault. EndsWith frames.new fault) }
{
    loop {
        match frames.next() {
            Ok(Some(message)) => messages.push(message)?,
            Ok(None) => return Ok(None),
            Err(FrameFault::Memory) => return Err(Memory),
            Err(fault) => return Ok(Some(fault)),
        }
    }
}
