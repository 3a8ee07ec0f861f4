// Statements and rows made by chance.
use crate::selects::chance::Chance;
use crate::selects::list::List;
use crate::selects::world::{of_table, text_value, with_key};
use case_lines::Line;
use cell_base::{Items, Key, SqlFault, Value};
use row_meaning::TableRows;
use std::alloc::{AllocError, Global};

/// The tables of the entries of FROM: false stands for t and true for u.
const FORMS: &[&[bool]] = &[
    &[false],
    &[true],
    &[false, true],
    &[false, false],
    &[true, false],
    &[false, true, false],
];

const ALIASES: &[&str] = &["a", "b", "c"];

fn name_at<'a>(names: &'a [&'a str], place: usize) -> &'a str {
    match names.get(place) {
        Some(name) => name,
        None => "a",
    }
}

fn one_of<'a>(chance: &mut Chance, names: &'a [&'a str]) -> &'a str {
    let place = chance.below(names.len());
    name_at(names, place)
}

fn push_one_of(chance: &mut Chance, line: &mut Line, names: &[&str]) {
    line.word(one_of(chance, names));
}

// ---- expressions

fn column_name(chance: &mut Chance, is_u: bool) -> &'static str {
    match (is_u, chance.below(2)) {
        (true, 0) => "id",
        (true, _) => "n",
        (false, 0) => "k",
        (false, _) => "v",
    }
}

/// A column that holds numbers.
fn push_column(chance: &mut Chance, line: &mut Line, form: &[bool]) {
    let entry = chance.below(form.len());
    line.word(name_at(ALIASES, entry));
    line.word(".");
    line.word(column_name(chance, form.get(entry) == Some(&true)));
}

/// How a number is written: what stands before a column, whether there is one, and what stands after it.
const NUMBERS: &[(&str, bool, &str)] = &[
    ("0", false, ""),
    ("1", false, ""),
    ("2", false, ""),
    ("6 / ", true, ""),
    ("", true, " + 1"),
    ("", true, " + 1"),
    ("", true, " % 2"),
    ("", true, ""),
    ("", true, ""),
    ("", true, ""),
    ("", true, ""),
    ("", true, ""),
];

fn number_at(place: usize) -> (&'static str, bool, &'static str) {
    match NUMBERS.get(place) {
        Some(number) => *number,
        None => ("0", false, ""),
    }
}

fn push_number(chance: &mut Chance, line: &mut Line, form: &[bool]) {
    let (before, has_column, after) = number_at(chance.below(NUMBERS.len()));
    line.word(before);
    if has_column {
        push_column(chance, line, form);
    }
    line.word(after);
}

/// What may stand after a number. As often another number is compared with it.
const TESTS: &[&str] = &[
    " IS NULL",
    " IS NOT NULL",
    " IN (1, NULL, 2)",
    " NOT IN (0, 3)",
];

const COMPARISONS: &[&str] = &[" = ", " <> ", " < ", " <= ", " > ", " >= "];

fn push_test(chance: &mut Chance, line: &mut Line, form: &[bool]) {
    push_number(chance, line, form);
    match TESTS.get(chance.below(8)) {
        Some(test) => line.word(test),
        None => {
            push_one_of(chance, line, COMPARISONS);
            push_number(chance, line, form);
        }
    }
}

const NEGATIONS: &[&str] = &["", "NOT "];

const CONNECTIVES: &[&str] = &[" AND ", " OR "];

fn push_condition(chance: &mut Chance, line: &mut Line, form: &[bool]) {
    for _ in 0..chance.below(3) {
        push_one_of(chance, line, NEGATIONS);
        push_test(chance, line, form);
        push_one_of(chance, line, CONNECTIVES);
    }
    push_test(chance, line, form);
}

// ---- statements

fn push_items(chance: &mut Chance, line: &mut Line, form: &[bool]) {
    for _ in 0..chance.below(3) {
        push_number(chance, line, form);
        line.word(", ");
    }
    push_number(chance, line, form);
}

const FUNCTIONS: &[&str] = &["count(", "sum(", "min(", "max("];

fn push_aggregates(chance: &mut Chance, line: &mut Line, form: &[bool]) {
    for _ in 0..chance.below(3) {
        push_one_of(chance, line, FUNCTIONS);
        push_number(chance, line, form);
        line.word("), ");
    }
    line.word("count(*)");
}

fn table_name(is_u: bool) -> &'static str {
    if is_u { "u " } else { "t " }
}

/// The entries up to this one.
fn seen(form: &[bool], entry: usize) -> &[bool] {
    if entry < form.len() {
        &form[..entry + 1]
    } else {
        form
    }
}

fn push_table(line: &mut Line, form: &[bool], entry: usize) {
    line.word(table_name(form.get(entry) == Some(&true)));
    line.word(name_at(ALIASES, entry));
}

fn push_entry(chance: &mut Chance, line: &mut Line, form: &[bool], entry: usize) {
    line.word(if entry > 0 { " JOIN " } else { " FROM " });
    push_table(line, form, entry);
    if entry > 0 {
        line.word(" ON ");
        push_condition(chance, line, seen(form, entry));
    }
}

fn push_from(chance: &mut Chance, line: &mut Line, form: &[bool]) {
    for entry in 0..form.len() {
        push_entry(chance, line, form, entry);
    }
    if chance.below(3) > 0 {
        line.word(" WHERE ");
        push_condition(chance, line, form);
    }
}

const DIRECTIONS: &[&str] = &["", " DESC"];

fn push_order(chance: &mut Chance, line: &mut Line, form: &[bool]) {
    line.word(" ORDER BY ");
    if chance.below(2) > 0 {
        push_column(chance, line, form);
        push_one_of(chance, line, DIRECTIONS);
        line.word(", ");
    }
    push_column(chance, line, form);
    line.word(" + 0");
    push_one_of(chance, line, DIRECTIONS);
}

const LIMITS: &[&str] = &["", "", " LIMIT 0", " LIMIT 1", " LIMIT 3"];

const OFFSETS: &[&str] = &["", "", " OFFSET 1", " OFFSET 2"];

fn push_body(chance: &mut Chance, line: &mut Line, form: &[bool]) {
    if chance.below(4) == 0 {
        push_aggregates(chance, line, form);
        push_from(chance, line, form);
    } else {
        push_items(chance, line, form);
        push_from(chance, line, form);
        if chance.below(2) == 0 {
            push_order(chance, line, form);
        }
    }
}

fn push_select(chance: &mut Chance, line: &mut Line, form: &[bool]) {
    line.word("SELECT ");
    push_body(chance, line, form);
    push_one_of(chance, line, LIMITS);
    push_one_of(chance, line, OFFSETS);
}

fn form_at(place: usize) -> &'static [bool] {
    match FORMS.get(place) {
        Some(form) => form,
        None => &[false],
    }
}

/// The text of a SELECT over t and u.
pub fn statement(alloc: Global, chance: &mut Chance) -> Result<String, AllocError> {
    let form = form_at(chance.below(FORMS.len()));
    let mut line = Line::new(alloc);
    push_select(chance, &mut line, form);
    line.whole()
}

// ---- rows

fn number(chance: &mut Chance) -> Value {
    match chance.below(5) {
        0 => Value::Null,
        1 => Value::Int(0),
        2 => Value::Int(1),
        3 => Value::Int(2),
        _ => Value::Int(3),
    }
}

const NAMES: &[&str] = &["a", "b", "ab"];

fn row(
    alloc: Global,
    chance: &mut Chance,
    key: i64,
    is_u: bool,
) -> Result<(Key, Items<Value>), SqlFault> {
    let mut values = List::new(alloc);
    values.add(Value::Int(key));
    if is_u {
        values.push(text_value(alloc, one_of(chance, NAMES).as_bytes()));
    }
    values.add(number(chance));
    with_key(Key::Int(key), values)
}

fn some_rows(
    alloc: Global,
    chance: &mut Chance,
    table: u32,
    is_u: bool,
) -> Result<TableRows, SqlFault> {
    let mut rows = List::new(alloc);
    for key in 0..5 {
        if chance.below(3) > 0 {
            rows.push(row(alloc, chance, key, is_u));
        }
    }
    of_table(table, rows)
}

/// Rows of t and u, keys ascending.
pub fn picture(alloc: Global, chance: &mut Chance) -> Result<Items<TableRows>, SqlFault> {
    let mut picture = List::new(alloc);
    picture.push(some_rows(alloc, chance, 1, true));
    picture.push(some_rows(alloc, chance, 0, false));
    picture.whole()
}
