// Statements as the reader of SQL makes them of texts.
use cell_base::{Items, Text};
use sql_statements::{ParseFault, statements};
use sql_tree::Statement;
use std::alloc::Global;

/// The longest text that is read, in bytes.
const MAX_TEXT: usize = 100_000;

fn read_text(alloc: Global, text: Text) -> Result<Items<Statement>, ParseFault> {
    if text.bytes().len() > MAX_TEXT {
        return Err(ParseFault::Memory);
    }
    statements(alloc, &text)
}

/// The statements of a text of at most 100,000 bytes, or its fault.
pub fn read(alloc: Global, spelled: &str) -> Result<Items<Statement>, ParseFault> {
    match Text::from_bytes(alloc, spelled.as_bytes()) {
        Ok(text) => read_text(alloc, text),
        Err(_) => Err(ParseFault::Memory),
    }
}
