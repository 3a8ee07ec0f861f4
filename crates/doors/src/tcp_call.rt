// The calls of a network over sockets.
use cell_base::Text;

/// What came of a call that opens doors.
#[derive(Clone, Copy, Debug, PartialEq, Eq)]
pub enum Opening {
    Opened,
    Failed,
}

/// A call that opened doors of a network over sockets.
#[derive(Debug, Drop)]
pub struct TcpDoorsCall {
    pub address: Text,
    pub number: u32,
    pub opening: Opening,
}
