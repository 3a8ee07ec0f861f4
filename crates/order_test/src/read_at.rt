// A read that is judged.
use history_core::Event;

/// A read or a scan that is judged.
#[derive(Clone, Copy, Debug)]
pub struct ReadAt<'a> {
    /// Where it stands among the events.
    pub place: usize,
    pub event: &'a Event,
    /// The transaction that made it.
    pub reader: u32,
}
