// The most bytes of a result's rows.
ghost use Rattle.std.specs.Prelude.{◌≡◌, ◌^◌, ◌-◌, length, min, nat_le, sum_by};
ghost use Rattle.pg_framing.specs.Replies.{value_bytes, data_row};
ghost use Rattle.row_meaning.specs.Selection as meaning;
ghost use Rattle.typing_rules.specs.Gives.{Gives};

use cell_base::{Items, SqlFault, SqlState, Value};
use itoa::Buffer;

/// The most bytes of a result's rows, as messages.
const MAX_BYTES: usize = 16_777_216;

/// The bytes of a value in a row's message.
fn value_len(value: &Value) -> usize
    ensures { result ≡ length (value_bytes value.now) }
{
    let mut buffer = Buffer::new();
    match value {
        Value::Unset => 4,
        Value::Null => 4,
        Value::Flag(_) => 5,
        Value::Int(n) => 4 + buffer.format(*n).len(),
        Value::Wide(n) => 4 + buffer.format(*n).len(),
        Value::Text(text) => 4 + text.bytes().len(),
    }
}

/// The bytes of a row's message, or the greatest number where they are more.
fn row_len(row: &[Value]) -> usize
    ensures { result ≡ min (length (data_row row.now)) (2 ^ 64 - 1) }
{
    let mut bytes: usize = 7;
    for value in row {
        bytes = bytes.saturating_add(value_len(value));
    }
    bytes
}

fn is_within(rows: &[Items<Value>]) -> bool
    ensures { result ≡ nat_le (sum_by (λ row. length (data_row row)) rows.now) meaning.most_bytes }
{
    let mut bytes: usize = 0;
    for row in rows {
        bytes = bytes.saturating_add(row_len(row.as_slice()));
    }
    bytes <= MAX_BYTES
}

/// The rows, where they aren't too many bytes.
pub fn limited(rows: Vec<Items<Value>>) -> Result<Items<Items<Value>>, SqlFault>
    ensures { Gives (meaning.limited rows.items) result }
{
    if is_within(&rows) {
        Ok(Items::from_vec(rows))
    } else {
        Err(SqlFault::State(SqlState::S54000))
    }
}
