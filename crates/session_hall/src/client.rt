// Clients of a hall.

/// A client: all that it sends, in pieces of at most so many bytes, and the words that choose what its reads find.
#[derive(Debug, Drop)]
pub struct Client {
    pub stream: Vec<u8>,
    /// At least 1.
    pub piece: u32,
    /// After these the word is 0.
    pub words: Vec<u32>,
}

/// How a client's step ended.
#[derive(Clone, Copy, Debug, PartialEq, Eq)]
pub enum Stepped {
    /// Its session made a call of its book, and goes on.
    Called,
    /// Its session has ended.
    Ended,
}
