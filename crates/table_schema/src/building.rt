// The table that a CREATE TABLE makes.
ghost use Rattle.std.specs.Prelude.{◌≡◌, ◌<◌, ◌^◌, ◌∷◌, [], length, map};
ghost use Rattle.typing_rules.specs.Expressions.{flag};
ghost use Rattle.typing_rules.specs.Outcome.{all_of};
ghost use Rattle.typing_rules.specs.Building as spec;
ghost use Rattle.typing_rules.specs.Gives.{Gives};

use crate::columns::columns_of;
use crate::keys::key_of;
use cell_base::{Items, SqlFault, SqlState};
use expr_typing::{Entry, typed_flag};
use sql_tree::{Column, CreateTable, Expr, Table, TypedExpr};
use std::alloc::Global;

/// The most columns of a table.
const MAX_COLUMNS: usize = 32;

/// The table that a CREATE TABLE makes (PostgreSQL's documentation, "CREATE TABLE"). Its key is never null.
///
/// The code that comes first answers: more than 32 columns are `S54000`; then for each column a name that stands before
/// (`S42701`), a varchar's length outside 1 to 65,536 (`S54000`), and what its default's conversion gives; then no key or
/// more than one (`S0A000`), a key that is no column (`S42703`), a boolean key (`S0A000`); then what typing gives to each
/// CHECK as a condition over the table's columns.
#[tactic(auto, unfolding(typing_rules::specs::Building::built))]
pub fn build(alloc: Global, create: &CreateTable) -> Result<Table, SqlFault>
    ensures { Gives (spec.built create.now) result }
{
    if create.columns.len() > MAX_COLUMNS {
        return Err(SqlFault::State(SqlState::S54000));
    }
    let columns = columns_of(alloc, create.columns.as_slice())?;
    let key = key_of(create, columns.as_slice())?;
    let bare = Table {
        name: create.name.copy(alloc)?,
        columns,
        key,
        checks: Items::new(alloc),
    };
    let checks = checks_of(alloc, create, &bare)?;
    Ok(finished(bare, checks))
}

/// The CHECKs, as conditions over the table's columns.
#[tactic(auto, unfolding(typing_rules::specs::Building::checks_of))]
fn checks_of(
    alloc: Global,
    create: &CreateTable,
    table: &Table,
) -> Result<Items<TypedExpr>, SqlFault>
    requires named { table.now.name ≡ create.now.name }
    requires narrow { length table.now.columns < 2 ^ 32 }
    ensures { Gives (spec.checks_of create.now table.now.columns) result }
{
    conditions(alloc, create.checks.as_slice(), table)
}

fn conditions(alloc: Global, exprs: &[Expr], table: &Table) -> Result<Items<TypedExpr>, SqlFault>
    requires { length table.now.columns < 2 ^ 32 }
    ensures { Gives (all_of (map (flag (record { name = table.now.name; columns = table.now.columns } ∷ [])) exprs.now)) result }
{
    let mut typed = Items::new(alloc);
    for expr in exprs {
        typed.push(condition(alloc, expr, table)?)?;
    }
    Ok(typed)
}

fn condition(alloc: Global, expr: &Expr, table: &Table) -> Result<TypedExpr, SqlFault>
    requires { length table.now.columns < 2 ^ 32 }
    ensures { Gives (flag (record { name = table.now.name; columns = table.now.columns } ∷ []) expr.now) result }
{
    let entry = Entry {
        name: &table.name,
        table,
    };
    typed_flag(alloc, expr, &[entry])
}

/// The table with its CHECKs, its key marked as never null.
fn finished(bare: Table, checks: Items<TypedExpr>) -> Table
    requires { bare.key < length bare.columns }
    ensures { result ≡ record { name = bare.name; columns = spec.keyed bare.key bare.columns; key = bare.key; checks = checks } }
{
    let Table {
        name,
        columns,
        key,
        checks: _,
    } = bare;
    Table {
        name,
        columns: keyed(columns, key),
        key,
        checks,
    }
}

fn keyed(columns: Items<Column>, key: u32) -> Items<Column>
    requires { key < length columns }
    ensures { result ≡ spec.keyed key columns }
{
    let mut columns = columns.into_vec();
    columns[key as usize].not_null = true;
    Items::from_vec(columns)
}
