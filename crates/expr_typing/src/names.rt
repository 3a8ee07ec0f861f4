// Which column a name stands for.
ghost use Rattle.std.specs.Prelude.{◌≡◌, ◌<◌, ◌^◌, length};
ghost use Rattle.std.specs.Option.{option_map};
ghost use Rattle.typing_rules.specs.Names.{column_from, column_in, columns_from, is_known, is_meant, only, resolved};
ghost use Rattle.expr_typing.specs.Scope.{IsNarrow, source, sources};
ghost use Rattle.expr_typing.specs.Found.{found_of, found_or};

use crate::Entry;
use cell_base::{SqlState, SqlType, Text};
use sql_tree::Column;

/// A column of an entry, both from 0, and its type.
#[derive(Clone, Copy, Debug)]
pub struct Found {
    pub entry: u32,
    pub column: u32,
    pub kind: SqlType,
}

fn column_of(columns: &[Column], name: &Text, entry: u32) -> Option<Found>
    requires { length columns.now < 2 ^ 32 }
    ensures { option_map found_of result ≡ column_from name.now entry 0 columns.now }
{
    for (i, column) in columns.iter().enumerate() {
        if column.name.as_str() == name.as_str() {
            return Some(Found {
                entry,
                column: i as u32,
                kind: column.kind,
            });
        }
    }
    None
}

fn means(qualifier: Option<&Text>, name: &Text) -> bool
    ensures { result ≡ is_meant (option_map (λ q. q.now) qualifier.entry) name.now }
{
    match qualifier {
        None => true,
        Some(qualifier) => qualifier.as_str() == name.as_str(),
    }
}

#[tactic(auto, unfolding(typing_rules::specs::Names::column_in))]
fn column_in(entry: &Entry<'_>, qualifier: Option<&Text>, name: &Text, at: u32) -> Option<Found>
    requires { length entry.now.table.now.columns < 2 ^ 32 }
    ensures { option_map found_of result ≡ column_in (option_map (λ q. q.now) qualifier.entry) name.now at (source entry.now) }
{
    if means(qualifier, entry.name) {
        column_of(entry.table.columns.as_slice(), name, at)
    } else {
        None
    }
}

/// The one column of all entries that the name stands for.
fn only(scope: &[Entry<'_>], qualifier: Option<&Text>, name: &Text) -> Result<Found, SqlState>
    requires { IsNarrow scope.now }
    ensures { found_or result ≡ only (columns_from (option_map (λ q. q.now) qualifier.entry) name.now 0 (sources scope.now)) }
{
    let mut found = None;
    for (i, entry) in scope.iter().enumerate() {
        if let Some(column) = column_in(entry, qualifier, name, i as u32) {
            if found.is_some() {
                return Err(SqlState::S42702);
            }
            found = Some(column);
        }
    }
    found.ok_or(SqlState::S42703)
}

/// Whether an entry has this name.
fn is_known(scope: &[Entry<'_>], name: &Text) -> bool
    ensures { result ≡ is_known (Some name.now) (sources scope.now) }
{
    for entry in scope {
        if name.as_str() == entry.name.as_str() {
            return true;
        }
    }
    false
}

/// The one column that a name stands for.
#[tactic(auto, unfolding(typing_rules::specs::Names::resolved))]
pub fn resolved(
    scope: &[Entry<'_>],
    qualifier: Option<&Text>,
    name: &Text,
) -> Result<Found, SqlState>
    requires { IsNarrow scope.now }
    ensures { found_or result ≡ resolved (sources scope.now) (option_map (λ q. q.now) qualifier.entry) name.now }
{
    if let Some(written) = qualifier {
        if !is_known(scope, written) {
            return Err(SqlState::S42P01);
        }
    }
    only(scope, qualifier, name)
}
