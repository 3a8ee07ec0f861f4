// The system's words for a fault.
use cell_base::Memory;
use std::alloc::Global;
use std::io;

// The words before the number of a fault of the system.
fn without_number(told: &str) -> &str {
    match told.split_once(" (os error ") {
        Some((words, _)) => words,
        None => told,
    }
}

/// The system's words for a fault, as they are told to people: without the fault's number, which else follows them.
pub fn words_of(alloc: Global, reason: &io::Error) -> Result<String, Memory> {
    let told = format!(in alloc; "{reason}")?;
    let mut text = String::new(alloc);
    text.push_str(without_number(told.as_str()))?;
    Ok(text)
}
