// Lists of keys.
use cell_base::Key;

/// Whether the keys are just these integers, in this order.
pub fn are_integers(keys: &[Key], want: &[i64]) -> bool {
    keys.len() == want.len() && keys.iter().zip(want).all(|(key, n)| is_integer(key, *n))
}

fn is_integer(key: &Key, want: i64) -> bool {
    match key {
        Key::Int(n) => *n == want,
        Key::Text(_) => false,
    }
}
