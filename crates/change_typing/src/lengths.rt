// The numbers of values of the rows of an INSERT.
ghost use Rattle.std.specs.Prelude.{◌≡◌, ◌==◌, ◌&&◌, nat_le, length};
ghost use Rattle.std.specs.List.{list_all};
ghost use Rattle.typing_rules.specs.Insert as spec;
ghost use Rattle.change_typing.specs.Targets.{targets};

use cell_base::Items;
use sql_tree::{Expr, Table};
use typing_parts::ColumnAt;

fn are_of_length(rows: &[Items<Option<Expr>>], wanted: usize) -> bool
    ensures { result ≡ list_all (λ row. length row == wanted) rows.now }
{
    for row in rows {
        if row.len() != wanted {
            return false;
        }
    }
    true
}

fn are_of_length_within(rows: &[Items<Option<Expr>>], wanted: usize, most: usize) -> bool
    ensures { result ≡ list_all (λ row. length row == wanted && nat_le (length row) most) rows.now }
{
    for row in rows {
        if row.len() != wanted || row.len() > most {
            return false;
        }
    }
    true
}

fn first_length(rows: &[Items<Option<Expr>>]) -> usize
    ensures { result ≡ spec.first_length rows.now }
{
    match rows {
        [] => 0,
        [row, ..] => row.len(),
    }
}

/// Whether each row has as many values as the written list has columns, and without a list as many as the first row, and no
/// more than the table has columns.
pub fn has_lengths(table: &Table, listed: &[ColumnAt<'_>], rows: &[Items<Option<Expr>>]) -> bool
    ensures { result ≡ spec.has_lengths table.now (targets listed.now) rows.now }
{
    match listed {
        [] => are_of_length_within(rows, first_length(rows), table.columns.len()),
        [_, ..] => are_of_length(rows, listed.len()),
    }
}
