// What is kept of a link over a socket.

/// What is kept of a link over a socket that was given back: how often its sides failed. Its stream is closed.
#[derive(Clone, Copy, Debug, PartialEq, Eq)]
pub struct LinkFaults {
    pub read_faults: u64,
    pub write_faults: u64,
}
