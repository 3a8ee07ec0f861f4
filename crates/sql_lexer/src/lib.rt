//! Cuts a text into the tokens of SQL, as PostgreSQL's lexical structure has them within the profile of this server.
//!
//! [`tokens`] answers exactly the tokens that stand for the text, or exactly the fault of the first place at which
//! nothing fits. What a word, a quoted name, a string, a number, a parameter, a sign, white space and a comment is stands
//! in `specs/Lexemes.antt`, apart from the code, and what the tokens and the first fault of a whole text are in
//! `specs/Tokens.antt`. [`one_reading`] is the law that no text has two of them.
//!
//! The text is read from left to right in loops, without recursion. A piece looks at most two bytes past its end and hands
//! on where it ended, and within a piece each byte is read a fixed number of times, so time is linear in the text. Nested
//! comments are counted, not stacked. What is held is the tokens and, while one is made, its bytes once more, so memory is
//! linear too.
#![tactic(auto)]

mod cut;
mod fault;
mod piece;
mod scan;

pub use cut::{one_reading, tokens};
pub use fault::LexFault;
pub use sql_tree::{Sign, Token, TokenKind};
