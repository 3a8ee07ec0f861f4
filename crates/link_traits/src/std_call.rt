// The calls of the real program's host, and the adapters that come back to it.
use cell_base::Text;

/// What came of a call.
#[derive(Clone, Copy, Debug, PartialEq, Eq)]
pub enum Outcome {
    HandedOut,
    Failed,
}

/// A call of the real program's host.
#[derive(Debug, Drop)]
pub enum StdCall {
    StandardLink,
    OpenFile(Text, Outcome),
    MakeFile(Text, Outcome),
}

/// What is kept of an adapter that came back: how often its sides failed. Its file is closed.
#[derive(Clone, Copy, Debug, PartialEq, Eq)]
pub enum StdReturned {
    Link { read_faults: u64, write_faults: u64 },
    File { read_faults: u64 },
    NewFile { write_faults: u64 },
}
