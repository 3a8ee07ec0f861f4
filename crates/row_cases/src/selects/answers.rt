// What a statement comes to over rows, as text: the values of a row stand between commas, the rows between semicolons.
use crate::selects::slow;
use case_lines::{Line, fault_shown, named};
use case_tables::{are_narrow, read};
use cell_base::{Items, Memory, SqlFault, Value};
use held_values::{both, without};
use row_assembly::rows_of;
use row_meaning::TableRows;
use sql_statements::ParseFault;
use sql_tree::{Statement, Table, Typed, TypedSelect};
use sql_types::typed;
use std::alloc::{AllocError, Global};

// ---- rows as text

fn push_row(line: &mut Line, row: &[Value]) {
    for (i, value) in row.iter().enumerate() {
        line.word(if i > 0 { "," } else { "" });
        line.value(value, "null");
    }
}

fn rows_text(alloc: Global, rows: &[Items<Value>]) -> Result<String, AllocError> {
    let mut line = Line::new(alloc);
    for (i, row) in rows.iter().enumerate() {
        line.word(if i > 0 { ";" } else { "" });
        push_row(&mut line, row.as_slice());
    }
    line.whole()
}

fn rows_shown(alloc: Global, rows: &[Items<Value>]) -> Result<String, AllocError> {
    if rows.is_empty() {
        String::from_str(alloc, "none")
    } else {
        rows_text(alloc, rows)
    }
}

/// The rows that are asked for.
type Answer = Result<Items<Items<Value>>, SqlFault>;

fn shown(alloc: Global, answer: Answer) -> Result<String, AllocError> {
    match answer {
        Ok(rows) => rows_shown(alloc, rows.as_slice()),
        Err(fault) => fault_shown(alloc, fault),
    }
}

/// What is asked of a SELECT's rows.
#[derive(Clone, Copy)]
pub enum Ask {
    /// The rows.
    Rows,
    /// How many rows there are.
    Count,
    /// Whether they are those of the slow program.
    Same,
}

fn counted(alloc: Global, answer: Answer) -> Result<String, AllocError> {
    match answer {
        Ok(rows) => named(alloc, &rows.len()),
        Err(fault) => fault_shown(alloc, fault),
    }
}

fn judged(alloc: Global, fast: &str, slow: &str) -> Result<String, AllocError> {
    if fast != slow {
        return format!(in alloc; "{fast} and not {slow}");
    }
    String::from_str(alloc, if fast == "none" { "none" } else { "same" })
}

fn compared(
    alloc: Global,
    select: &TypedSelect,
    picture: &[TableRows],
) -> Result<String, AllocError> {
    let fast = shown(alloc, rows_of(alloc, select, picture));
    let slow = shown(alloc, slow::rows_of(alloc, select, picture));
    let (fast, slow) = both(fast, slow)?;
    let judged = judged(alloc, fast.as_str(), slow.as_str());
    without((fast, slow), judged)
}

fn answered(
    alloc: Global,
    select: &TypedSelect,
    picture: &[TableRows],
    ask: Ask,
) -> Result<String, AllocError> {
    match ask {
        Ask::Rows => shown(alloc, rows_of(alloc, select, picture)),
        Ask::Count => counted(alloc, rows_of(alloc, select, picture)),
        Ask::Same => compared(alloc, select, picture),
    }
}

// ---- statements

fn answer_to_typed(
    alloc: Global,
    made: &Result<Typed, SqlFault>,
    picture: &[TableRows],
    ask: Ask,
) -> Result<String, AllocError> {
    match made {
        Ok(Typed::Select(select)) => answered(alloc, select, picture, ask),
        Ok(_) => String::from_str(alloc, "no query"),
        Err(SqlFault::State(state)) => format!(in alloc; "untyped {state:?}"),
        Err(SqlFault::Memory) => String::from_str(alloc, "memory"),
    }
}

fn answer_to_one(
    alloc: Global,
    found: &Statement,
    tables: &[Table],
    picture: &[TableRows],
    ask: Ask,
) -> Result<String, AllocError> {
    if !are_narrow(tables) {
        return String::from_str(alloc, "wide tables");
    }
    let made = typed(alloc, found, tables);
    let answer = answer_to_typed(alloc, &made, picture, ask);
    without(made, answer)
}

fn answer_to_all(
    alloc: Global,
    found: &[Statement],
    tables: &[Table],
    picture: &[TableRows],
    ask: Ask,
) -> Result<String, AllocError> {
    match found {
        [one] => answer_to_one(alloc, one, tables, picture, ask),
        _ => String::from_str(alloc, "not one statement"),
    }
}

fn answer_to_read(
    alloc: Global,
    reading: Result<Items<Statement>, ParseFault>,
    tables: &[Table],
    picture: &[TableRows],
    ask: Ask,
) -> Result<String, AllocError> {
    match reading {
        Ok(found) => answer_to_all(alloc, found.as_slice(), tables, picture, ask),
        Err(fault) => format!(in alloc; "unread {:?}", fault.state()),
    }
}

/// What the one SELECT of a text comes to over the rows, or the code of its fault.
pub fn answer(
    alloc: Global,
    spelled: &str,
    tables: &[Table],
    picture: &[TableRows],
    ask: Ask,
) -> Result<String, Memory> {
    Ok(answer_to_read(alloc, read(alloc, spelled), tables, picture, ask)?)
}
