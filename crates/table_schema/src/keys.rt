// The key of a table that is built.
ghost use Rattle.std.specs.Prelude.{◌≡◌, ℕ, List, [], ◌∷◌, ◌++◌, ◌<◌, ◌≤◌, ◌^◌, Ok, Err, length, IfErr, IfOk, MatchResult};
ghost use Rattle.std.specs.Option.{option_to_list, option_map};
ghost use Rattle.typing_rules.specs.Building as spec;

use cell_base::{SqlState, SqlType, Text};
use sql_tree::{Column, ColumnDef, CreateTable};

/// The number of the key's column.
#[tactic(auto, unfolding(typing_rules::specs::Building::key_of))]
pub fn key_of(create: &CreateTable, columns: &[Column]) -> Result<u32, SqlState>
    requires { length columns.now < 2 ^ 32 }
    ensures { result ≡ spec.key_of columns.now (spec.marked create.now.columns ++ create.now.keys) }
{
    let marked = marked_name(create.columns.as_slice())?;
    let listed = listed_name(create.keys.as_slice())?;
    match (marked, listed) {
        (Some(name), None) | (None, Some(name)) => place_of(columns, name),
        _ => Err(SqlState::S0A000),
    }
}

/// The name of the column that is marked PRIMARY KEY, if one is.
fn marked_name(columns: &[ColumnDef]) -> Result<Option<&Text>, SqlState>
    ensures one { IfOk result (λ name. spec.marked columns.now ≡ option_to_list (option_map (λ n. n.now) name)) }
    ensures many { IfErr result (λ code. (code ≡ SqlState.S0A000) × (2 ≤ length (spec.marked columns.now))) }
{
    let mut marked = None;
    for column in columns {
        if column.key {
            if marked.is_some() {
                return Err(SqlState::S0A000);
            }
            marked = Some(&column.name);
        }
    }
    Ok(marked)
}

/// The name in the PRIMARY KEY lists, if there is one.
fn listed_name(keys: &[Text]) -> Result<Option<&Text>, SqlState>
    ensures one { IfOk result (λ name. keys.now ≡ option_to_list (option_map (λ n. n.now) name)) }
    ensures many { IfErr result (λ code. (code ≡ SqlState.S0A000) × (2 ≤ length keys.now)) }
{
    match keys {
        [] => Ok(None),
        [name] => Ok(Some(name)),
        _ => Err(SqlState::S0A000),
    }
}

/// The number of the column of this name.
fn place_of(columns: &[Column], name: &Text) -> Result<u32, SqlState>
    requires { length columns.now < 2 ^ 32 }
    ensures { result ≡ spec.key_from name.now 0 columns.now }
{
    for (i, column) in columns.iter().enumerate() {
        if column.name.as_str() == name.as_str() {
            return match column.kind {
                SqlType::Boolean => Err(SqlState::S0A000),
                _ => Ok(i as u32),
            };
        }
    }
    Err(SqlState::S42703)
}
