//! Whole sessions as text: what a client sends, the events that the history then has, and what the client is sent. The encoder stands
//! for itself: it calls no code of the server, so what it makes is a second source for the server's bytes.
//!
//! The sessions of a text are parted by empty lines. A session has a line for each of these, in the order of the conversation:
//!
//! | Line | Says |
//! |---|---|
//! | `# a failed block` | the first one is the session's name, others are comments |
//! | `level cc` | the level of the server: `rc`, `ra` or `cc`; without this line `rc` |
//! | `words 1 0` | the next choice words; after the last one all are 0 |
//! | `+ table t` | the lines of a set-up of this name (`src/setups.rt`) |
//! | `> Query SELECT 1` | a message of the client |
//! | `< ReadyForQuery I` | a message of the server |
//! | `* begin 1 rc` | an event of the history |
//! | `= session 1: Terminated` | the number of the session that was opened, or `no session`, and its end |
//!
//! A test that needs one session's bytes alone takes them of its text by `request_bytes` and `reply_bytes`.
//!
//! The messages have the names of PostgreSQL's protocol chapter. A text goes to the end of its line; in it `\0` is a zero byte and `\x5c`
//! the byte of that hexadecimal number.
//!
//! | Message of the client | Holds |
//! |---|---|
//! | `StartupMessage user=a database=b` | names and values |
//! | `SSLRequest`, `GSSENCRequest`, `CancelRequest 1 0` | of a cancel the process number and the key |
//! | `Query SELECT 1` | the text |
//! | `RepeatedQuery 257 SELECT 1;` | a query whose text is this one so many times |
//! | `Parse`, `Bind`, `Describe`, `Execute`, `Close`, `Sync`, `Flush`, `FunctionCall`, `CopyData`, `CopyDone`, `CopyFail`, `Terminate` | the body as it is |
//! | `bytes Q\0\0\0\x03` | bytes that need be no message |
//!
//! | Message of the server | Holds |
//! |---|---|
//! | `AuthenticationOk`, `ParameterStatus DateStyle ISO, MDY`, `BackendKeyData 1 0` | a setting; the process number and the key |
//! | `ReadyForQuery I` | the state |
//! | `RowDescription k bigint, b boolean` | columns with their types, without a modifier |
//! | `DataRow 1\|NULL` | values |
//! | `CommandComplete INSERT 0 1`, `EmptyQueryResponse` | the tag |
//! | `ErrorResponse ERROR 42601 syntax error`, `NoticeResponse WARNING 25P01 ..` | severity, code and text |
//! | `bytes N` | bytes that need be no message |
#![tactic(auto)]

mod alone;
mod blocks;
mod deletes;
mod duplicate_keys;
mod levels;
mod many_queries;
mod messages;
mod one_row;
mod parts;
mod refusals;
mod replies;
mod requests;
mod session;
mod setups;
mod statements;
mod unread;

pub use alone::lone_sessions;
pub use blocks::block_sessions;
pub use deletes::delete_sessions;
pub use duplicate_keys::duplicate_key_sessions;
pub use levels::level_sessions;
pub use many_queries::query_sessions;
pub use messages::message_sessions;
pub use one_row::row_sessions;
pub use refusals::refusal_sessions;
pub use session::{Session, read_sessions, reply_bytes, request_bytes};
pub use statements::statement_sessions;
pub use unread::Unread;
