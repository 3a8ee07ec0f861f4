// Rows in the order of their keys.
ghost use Rattle.std.specs.Prelude.{◌≡◌, IfOk};
ghost use Rattle.row_meaning.specs.Insertion.{by_keys};
ghost use Rattle.row_writes.specs.Twins as twins;

use cell_base::{Items, Key, Memory, Value};

/// The rows, keys ascending.
pub fn sorted_by_keys(
    rows: Items<(Key, Items<Value>)>,
) -> Result<Items<(Key, Items<Value>)>, Memory>
    ensures { IfOk result (λ sorted. sorted ≡ by_keys rows) }
{
    let mut rows = rows.into_vec();
    rows.sort_by(|a, b| a.0.cmp(&b.0))?;
    Ok(Items::from_vec(rows))
}

/// Whether two rows beside one another have one key.
pub fn has_twins(rows: &[(Key, Items<Value>)]) -> bool
    ensures { result ≡ twins.has_twins rows.now }
{
    match rows {
        [] => false,
        [first, others @ ..] => has_twins_after(&first.0, others),
    }
}

fn has_twins_after(first: &Key, rows: &[(Key, Items<Value>)]) -> bool
    ensures { result ≡ twins.has_twins_after first.now rows.now }
{
    let mut before = first;
    for row in rows {
        if *before == row.0 {
            return true;
        }
        before = &row.0;
    }
    false
}
