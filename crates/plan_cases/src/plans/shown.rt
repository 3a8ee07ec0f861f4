// Demands as text.
use case_lines::Line;
use cell_base::{Cell, Items, Value};
use statement_course::{Demand, Outcome};

fn push_rows(line: &mut Line, rows: &[Items<Value>]) {
    for row in rows {
        for value in row.as_slice() {
            line.word(" ");
            line.value(value, "-");
        }
        line.word(";");
    }
}

fn push_count(line: &mut Line, word: &str, count: u32) {
    line.word(word);
    line.number(i64::from(count));
}

fn push_outcome(line: &mut Line, outcome: &Outcome) {
    match outcome {
        Outcome::Rows(_, rows) => {
            line.word("rows");
            push_rows(line, rows.as_slice());
        }
        Outcome::Inserted(n) => push_count(line, "inserted ", *n),
        Outcome::Updated(n) => push_count(line, "updated ", *n),
        Outcome::Deleted(n) => push_count(line, "deleted ", *n),
        Outcome::Failed(code) => {
            line.word("failed ");
            line.name(code);
        }
    }
}

fn push_touch(line: &mut Line, cell: &Cell) {
    line.cell(cell);
    line.word("?, ");
}

fn push_write(line: &mut Line, cell: &Cell, value: &Value) {
    line.cell(cell);
    line.word("=");
    line.value(value, "-");
    line.word(", ");
}

/// Puts a demand after others.
pub fn push_demand(line: &mut Line, demand: &Demand) {
    match demand {
        Demand::Scan(table) => {
            push_count(line, "scan ", *table);
            line.word(", ");
        }
        Demand::Touch(cell) => push_touch(line, cell),
        Demand::Write(cell, value) => push_write(line, cell, value),
        Demand::Reply(outcome) => push_outcome(line, outcome),
    }
}
