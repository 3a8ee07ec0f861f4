//! The messages that a server of PostgreSQL's protocol 3.0 writes.
//!
//! Each writer appends exactly the bytes of its message, or, out of memory, nothing. The messages of a client are read in
//! `client_framing`.
//!
//! It stands on `cell_base` for values and error codes, on `sql_tree` for the columns of a result, on `byteorder` for the
//! numbers of a message, and on `itoa` for decimal numbers.
#![tactic(auto)]

mod replies;
mod rows;

pub use replies::{
    Severity, TransactionState, append_authentication_ok, append_backend_key_data,
    append_command_complete, append_empty_query_response, append_error_response,
    append_notice_response, append_parameter_status, append_ready_for_query,
};
pub use rows::{append_data_row, append_row_description};
