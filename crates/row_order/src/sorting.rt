// The rows of a result, put in order.
ghost use Rattle.std.specs.Prelude.{◌≡◌, map, IfOk};
ghost use Rattle.row_meaning.specs.Ordering.{ordered};
ghost use Rattle.row_order.specs.Rows.{sorted_of};

use crate::comparison::by_terms;
use cell_base::{Items, Memory, Value};

/// A row of a result before it is put in order.
#[derive(Debug, Drop)]
pub struct SortedRow {
    /// The values of the result's columns.
    pub values: Items<Value>,
    /// The values of the terms of ORDER BY.
    pub terms: Items<Value>,
}

/// The rows in the order of ORDER BY, of which each term has a direction: true stands for DESC. Rows that tie stay as they
/// stood. It takes some n log n comparisons, and moves the rows.
pub fn sort_rows(rows: Vec<SortedRow>, directions: &[bool]) -> Result<Vec<SortedRow>, Memory>
    ensures { IfOk result (λ out. map sorted_of out.items ≡ ordered directions.now (map sorted_of rows.items)) }
{
    let mut rows = rows;
    rows.sort_by(|a, b| by_terms(directions, a.terms.as_slice(), b.terms.as_slice()))?;
    Ok(rows)
}
