// Typed statements as text.
//
// A SELECT is its columns, `<-`, its items, and then, where there are any: `from` the numbers of the tables, `reads` the mentioned
// columns of each entry, `at` the key of each entry (`-` where it is scanned), `where` the conditions, `by` the terms of ORDER BY,
// `limit`, `offset`, and `grouped` where an aggregate stands in it. An INSERT is `into` its table and its rows; an UPDATE and a
// DELETE have the same words, and `set` a column's number `=` its value.
use crate::typing::expr::{push_expr, push_kind, push_quoted};
use crate::typing::shown::{WithTypes, listed};
use case_lines::{Line, Shown, each};
use cell_base::{Items, Key};
use sql_tree::{OutField, Typed, TypedChange, TypedExpr, TypedInsert, TypedSelect};

fn push_columns(line: &mut Line, columns: &[u32]) {
    line.word("(");
    for (i, number) in columns.iter().enumerate() {
        line.word(if i > 0 { "," } else { "" });
        line.number(i64::from(*number));
    }
    line.word(")");
}

fn push_point(line: &mut Line, point: &Option<Key>) {
    match point {
        Some(Key::Int(number)) => line.number(*number),
        Some(Key::Text(text)) => push_quoted(line, text),
        None => line.word("-"),
    }
}

// ---- queries

impl Shown<WithTypes> for OutField {
    fn push(&self, line: &mut Line) {
        line.word(self.name.as_str());
        push_kind(line, self.kind);
        line.word(" ");
    }
}

/// The number of a table.
impl Shown<WithTypes> for u32 {
    fn push(&self, line: &mut Line) {
        line.number(i64::from(*self));
    }
}

/// The mentioned columns of an entry.
impl Shown<WithTypes> for Items<u32> {
    fn push(&self, line: &mut Line) {
        push_columns(line, self.as_slice());
    }
}

impl Shown<WithTypes> for Option<Key> {
    fn push(&self, line: &mut Line) {
        push_point(line, self);
    }
}

/// A term of ORDER BY.
impl Shown<WithTypes> for (TypedExpr, bool) {
    fn push(&self, line: &mut Line) {
        push_expr(line, &self.0);
        if self.1 {
            line.word(" desc");
        }
    }
}

fn push_from(line: &mut Line, select: &TypedSelect) {
    listed(line, " from", &select.tables);
    listed(line, " reads", &select.mentioned);
    listed(line, " at", &select.points);
}

fn push_cut(line: &mut Line, select: &TypedSelect) {
    if let Some(number) = select.limit {
        line.word(" limit ");
        line.number(number);
    }
    if select.offset != 0 {
        line.word(" offset ");
        line.number(select.offset);
    }
}

fn push_select(line: &mut Line, select: &TypedSelect) {
    each::<WithTypes, _>(line, "", &select.fields);
    line.word("<-");
    each::<WithTypes, _>(line, " ", &select.items);
    push_from(line, select);
    listed(line, " where", &select.conditions);
    listed(line, " by", &select.order);
    push_cut(line, select);
    if select.aggregate {
        line.word(" grouped");
    }
}

// ---- changes

fn push_insert(line: &mut Line, insert: &TypedInsert) {
    line.word("into ");
    line.number(i64::from(insert.table));
    for row in insert.rows.as_slice() {
        line.word(" row");
        each::<WithTypes, _>(line, " ", row);
    }
}

/// A column that is set, and to what.
impl Shown<WithTypes> for (u32, TypedExpr) {
    fn push(&self, line: &mut Line) {
        line.number(i64::from(self.0));
        line.word(" = ");
        push_expr(line, &self.1);
    }
}

fn push_filter(line: &mut Line, filter: &Option<TypedExpr>) {
    if let Some(expr) = filter {
        line.word(" where ");
        push_expr(line, expr);
    }
}

fn push_change(line: &mut Line, change: &TypedChange) {
    line.word(if change.delete { "delete " } else { "update " });
    line.number(i64::from(change.table));
    line.word(" reads ");
    push_columns(line, change.mentioned.as_slice());
    line.word(" at ");
    push_point(line, &change.point);
    each::<WithTypes, _>(line, " set ", &change.set);
    push_filter(line, &change.filter);
}

/// The typed statement as one line.
impl Shown<WithTypes> for Typed {
    fn push(&self, line: &mut Line) {
        match self {
            Typed::Select(typed) => push_select(line, typed),
            Typed::Insert(typed) => push_insert(line, typed),
            Typed::Change(typed) => push_change(line, typed),
        }
    }
}
