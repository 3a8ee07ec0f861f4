// What a hall keeps of a client.
ghost use Rattle.std.specs.Prelude.{◌<◌, ◌≤◌, vec_len};

use block_machine::End;
use choice_stream::ListWords;
use session_core::Session;

/// A client's session, the words that are left, the stream with how far it was taken, what was sent, and the end that is shown.
#[derive(Debug, Drop)]
pub(crate) struct Seat {
    pub session: Session,
    pub words: ListWords,
    pub stream: Vec<u8>,
    pub at: usize,
    pub piece: usize,
    pub sent: Vec<u8>,
    pub end: Option<End>,
    ghost some: { 0 < piece },
    ghost within: { at ≤ vec_len stream },
}
