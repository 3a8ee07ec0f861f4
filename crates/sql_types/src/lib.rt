//! The types of statements: the typed statement, or the code that comes first.
#![tactic(auto)]

ghost use Rattle.typing_rules.specs.Typed as spec;
ghost use Rattle.typing_rules.specs.Gives.{Gives};
ghost use Rattle.typing_parts.specs.Narrow.{AreFewAndNarrow};

use cell_base::{SqlFault, SqlState};
use change_typing::{typed_delete, typed_insert, typed_update};
pub use expr_typing::{Entry, typed_constant, typed_flag};
use select_typing::typed_select;
use sql_tree::{Statement, Table, Typed};
use std::alloc::Global;

/// The typed tree of a statement that reads or writes rows, over these tables, which are numbered from 0, or the code that
/// comes first. The codes are those of [`typed_select`], [`typed_insert`], [`typed_update`] and [`typed_delete`]; a statement
/// of another kind has no types, and is `S0A000` (PostgreSQL's documentation, "Queries" and "Data Manipulation").
///
/// [`typed_select`]: select_typing::typed_select
/// [`typed_insert`]: change_typing::typed_insert
/// [`typed_update`]: change_typing::typed_update
/// [`typed_delete`]: change_typing::typed_delete
pub fn typed(alloc: Global, statement: &Statement, tables: &[Table]) -> Result<Typed, SqlFault>
    requires { AreFewAndNarrow tables.now }
    ensures { Gives (spec.typed tables.now statement.now) result }
{
    match statement {
        Statement::Select(select) => Ok(Typed::Select(typed_select(alloc, select, tables)?)),
        Statement::Insert(insert) => Ok(Typed::Insert(typed_insert(alloc, insert, tables)?)),
        Statement::Update(update) => Ok(Typed::Change(typed_update(alloc, update, tables)?)),
        Statement::Delete(delete) => Ok(Typed::Change(typed_delete(alloc, delete, tables)?)),
        _ => Err(SqlFault::State(SqlState::S0A000)),
    }
}
