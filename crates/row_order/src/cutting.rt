// OFFSET and LIMIT.
ghost use Rattle.std.specs.Prelude.{◌≡◌, ◌≤◌, length, drop, take};
ghost use Rattle.row_meaning.specs.Ordering as ordering;

/// The rows that OFFSET and then LIMIT leave. A number below 0 counts as 0. The rows are moved, none is copied.
pub fn cut_rows<T: Drop>(rows: Vec<T>, offset: i64, limit: Option<i64>) -> Vec<T>
    ensures { result.items ≡ ordering.cut offset limit rows.items }
{
    let rows = without_first(rows, count_of(offset));
    match limit {
        Some(limit) => first(rows, count_of(limit)),
        None => rows,
    }
}

/// A number of rows; below 0 it counts as 0.
fn count_of(n: i64) -> usize
    ensures { result ≡ ordering.count_of n }
{
    if n < 0 { 0 } else { n as usize }
}

fn without_first<T: Drop>(rows: Vec<T>, count: usize) -> Vec<T>
    ensures { result.items ≡ drop count rows.items }
{
    let mut rows = rows;
    let dropped = count.min(rows.len());
    let kept = rows.len() - dropped;
    rows.rotate_left(dropped);
    rows.truncate(kept);
    rows
}

fn first<T: Drop>(rows: Vec<T>, count: usize) -> Vec<T>
    ensures { result.items ≡ take count rows.items }
{
    let mut rows = rows;
    rows.truncate(count);
    rows
}
