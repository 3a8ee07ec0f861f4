//! Tokens and the trees of SQL as plain data, without behaviour beyond copies.
#![tactic(auto)]

mod copied;
mod depth;
mod expr;
mod op;
mod statement;
mod table;
mod token;
mod typed;
mod typed_expr;

pub use expr::Expr;
pub use op::{Aggregate, Op};
pub use statement::{
    ColumnDef, CreateTable, Delete, Insert, Item, OrderTerm, Select, Statement, TableRef, Update,
};
pub use table::{Column, OutField, Table};
pub use token::{Sign, Token, TokenKind};
pub use typed::{Typed, TypedChange, TypedInsert, TypedSelect};
pub use typed_expr::{TypedExpr, TypedNode};
