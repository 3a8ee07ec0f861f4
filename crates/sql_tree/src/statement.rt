// Statements as they are read.
use crate::Expr;
use cell_base::{Items, SqlType, Text};

/// A column of a CREATE TABLE.
#[derive(Debug, Drop)]
pub struct ColumnDef {
    pub name: Text,
    pub kind: SqlType,
    pub not_null: bool,
    pub default: Option<Expr>,
    /// Whether the column is marked PRIMARY KEY.
    pub key: bool,
}

/// CREATE TABLE.
#[derive(Debug, Drop)]
pub struct CreateTable {
    pub name: Text,
    pub columns: Items<ColumnDef>,
    /// The names of all PRIMARY KEY lists of the table.
    pub keys: Items<Text>,
    /// The CHECKs of the columns and of the table, in text order.
    pub checks: Items<Expr>,
}

/// An item of a SELECT.
#[derive(Debug, Drop)]
pub enum Item {
    Star,
    /// An expression and its alias, where one is written.
    Expr(Expr, Option<Text>),
}

/// An entry of FROM.
#[derive(Debug, Drop)]
pub struct TableRef {
    pub name: Text,
    pub alias: Option<Text>,
    /// The condition of the JOIN that brings the entry.
    pub on: Option<Expr>,
}

/// A term of ORDER BY.
#[derive(Debug, Drop)]
pub struct OrderTerm {
    pub expr: Expr,
    pub descending: bool,
}

/// SELECT.
#[derive(Debug, Drop)]
pub struct Select {
    pub items: Items<Item>,
    pub from: Items<TableRef>,
    pub filter: Option<Expr>,
    pub order: Items<OrderTerm>,
    pub limit: Option<i64>,
    pub offset: Option<i64>,
}

/// INSERT. A missing expression is DEFAULT.
#[derive(Debug, Drop)]
pub struct Insert {
    pub table: Text,
    /// The written column names; none where no list is written.
    pub columns: Items<Text>,
    pub rows: Items<Items<Option<Expr>>>,
}

/// UPDATE. A missing expression is DEFAULT.
#[derive(Debug, Drop)]
pub struct Update {
    pub table: Text,
    pub set: Items<(Text, Option<Expr>)>,
    pub filter: Option<Expr>,
}

/// DELETE.
#[derive(Debug, Drop)]
pub struct Delete {
    pub table: Text,
    pub filter: Option<Expr>,
}

/// A statement.
#[derive(Debug, Drop)]
pub enum Statement {
    Select(Select),
    Insert(Insert),
    Update(Update),
    Delete(Delete),
    Create(CreateTable),
    /// True for START TRANSACTION.
    Begin(bool),
    Commit,
    Rollback,
    /// SET of a setting, its names joined by a point, to values.
    Set(Text, Items<Text>),
    /// SET TRANSACTION, or SET SESSION CHARACTERISTICS.
    SetModes,
    /// SHOW of a setting.
    Show(Text),
}
