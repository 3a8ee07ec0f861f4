// Statements as one line each.
use crate::reading::expr::{Plain, show};
use case_lines::{Line, Shown, each};
use cell_base::{Items, SqlType, Text};
use sql_tree::{
    ColumnDef, CreateTable, Delete, Expr, Insert, Item, OrderTerm, Select, Statement, TableRef,
    Update,
};

impl Shown<Plain> for Text {
    fn push(&self, line: &mut Line) {
        line.word(self.as_str());
    }
}

fn push_alias(line: &mut Line, alias: &Option<Text>) {
    if let Some(alias) = alias {
        line.word(" as ");
        line.word(alias.as_str());
    }
}

fn push_after(line: &mut Line, word: &str, expr: &Option<Expr>) {
    if let Some(expr) = expr {
        line.word(word);
        show(line, expr);
    }
}

/// A cell of a row, or what a column is set to.
fn push_value(line: &mut Line, value: &Option<Expr>) {
    match value {
        Some(expr) => show(line, expr),
        None => line.word("default"),
    }
}

impl Shown<Plain> for Option<Expr> {
    fn push(&self, line: &mut Line) {
        push_value(line, self);
    }
}

// ---- queries

impl Shown<Plain> for Item {
    fn push(&self, line: &mut Line) {
        match self {
            Item::Star => line.word("*"),
            Item::Expr(expr, name) => {
                show(line, expr);
                push_alias(line, name);
            }
        }
    }
}

impl Shown<Plain> for TableRef {
    fn push(&self, line: &mut Line) {
        line.word(self.name.as_str());
        push_alias(line, &self.alias);
        push_after(line, " on ", &self.on);
    }
}

impl Shown<Plain> for OrderTerm {
    fn push(&self, line: &mut Line) {
        show(line, &self.expr);
        if self.descending {
            line.word(" desc");
        }
    }
}

fn push_count(line: &mut Line, word: &str, number: Option<i64>) {
    if let Some(number) = number {
        line.word(word);
        line.number(number);
    }
}

fn push_select(line: &mut Line, select: &Select) {
    line.word("select");
    each::<Plain, _>(line, " ", &select.items);
    each::<Plain, _>(line, " from ", &select.from);
    push_after(line, " where ", &select.filter);
    each::<Plain, _>(line, " by ", &select.order);
    push_count(line, " limit ", select.limit);
    push_count(line, " offset ", select.offset);
}

// ---- changes

impl Shown<Plain> for Items<Option<Expr>> {
    fn push(&self, line: &mut Line) {
        each::<Plain, _>(line, " ", self);
    }
}

fn push_insert(line: &mut Line, insert: &Insert) {
    line.word("insert ");
    line.word(insert.table.as_str());
    each::<Plain, _>(line, " ", &insert.columns);
    each::<Plain, _>(line, " row", &insert.rows);
}

/// A column that is set, and to what.
impl Shown<Plain> for (Text, Option<Expr>) {
    fn push(&self, line: &mut Line) {
        line.word(self.0.as_str());
        line.word(" = ");
        push_value(line, &self.1);
    }
}

fn push_update(line: &mut Line, update: &Update) {
    line.word("update ");
    line.word(update.table.as_str());
    each::<Plain, _>(line, " set ", &update.set);
    push_after(line, " where ", &update.filter);
}

fn push_delete(line: &mut Line, delete: &Delete) {
    line.word("delete ");
    line.word(delete.table.as_str());
    push_after(line, " where ", &delete.filter);
}

// ---- tables

fn push_varchar(line: &mut Line, length: u32) {
    line.word(" varchar ");
    line.number(i64::from(length));
}

fn push_kind(line: &mut Line, kind: SqlType) {
    match kind {
        SqlType::Boolean => line.word(" boolean"),
        SqlType::Integer => line.word(" integer"),
        SqlType::Bigint => line.word(" bigint"),
        SqlType::Text => line.word(" text"),
        SqlType::Numeric => line.word(" numeric"),
        SqlType::Varchar(length) => push_varchar(line, length),
    }
}

impl Shown<Plain> for ColumnDef {
    fn push(&self, line: &mut Line) {
        line.word(self.name.as_str());
        push_kind(line, self.kind);
        if self.not_null {
            line.word(" not null");
        }
        push_after(line, " default ", &self.default);
        if self.key {
            line.word(" key");
        }
    }
}

fn push_create(line: &mut Line, create: &CreateTable) {
    line.word("create ");
    line.word(create.name.as_str());
    each::<Plain, _>(line, " column ", &create.columns);
    each::<Plain, _>(line, " key ", &create.keys);
    each::<Plain, _>(line, " check ", &create.checks);
}

// ---- settings

fn push_set(line: &mut Line, name: &Text, values: &Items<Text>) {
    line.word("set ");
    line.word(name.as_str());
    line.word(" =");
    each::<Plain, _>(line, " ", values);
}

fn push_show(line: &mut Line, name: &Text) {
    line.word("show ");
    line.word(name.as_str());
}

fn push_setting(line: &mut Line, statement: &Statement) {
    match statement {
        Statement::Begin(true) => line.word("start"),
        Statement::Begin(false) => line.word("begin"),
        Statement::Commit => line.word("commit"),
        Statement::Rollback => line.word("rollback"),
        Statement::SetModes => line.word("modes"),
        Statement::Set(name, values) => push_set(line, name, values),
        Statement::Show(name) => push_show(line, name),
        _ => (),
    }
}

fn push_statement(line: &mut Line, statement: &Statement) {
    match statement {
        Statement::Select(tree) => push_select(line, tree),
        Statement::Insert(tree) => push_insert(line, tree),
        Statement::Update(tree) => push_update(line, tree),
        Statement::Delete(tree) => push_delete(line, tree),
        Statement::Create(tree) => push_create(line, tree),
        _ => push_setting(line, statement),
    }
}

/// The statement as one line, with a semicolon after it.
impl Shown<Plain> for Statement {
    fn push(&self, line: &mut Line) {
        push_statement(line, self);
        line.word(";");
    }
}
