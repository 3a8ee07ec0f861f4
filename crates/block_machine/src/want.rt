// What a message wants.
use crate::call::Call;

/// What a message wants next.
#[derive(Debug, Drop)]
pub enum MessageWant {
    /// Its table defined by the book.
    Define,
    /// What its running statement demands.
    Cells,
    /// Another call of the book.
    Book(Call),
    /// Its reply sent.
    Send,
    /// Nothing: it is done.
    Nothing,
}
