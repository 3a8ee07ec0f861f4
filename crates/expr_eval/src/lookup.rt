// Values that stand in the expression or in the row.
ghost use Rattle.std.specs.Prelude.{◌≡◌};
ghost use Rattle.expr_eval.specs.Lent.{owned, seen};
ghost use Rattle.expr_eval.specs.Values as values;

use crate::datum::Datum;
use cell_base::{SqlType, Value};

/// The value, where it is of the type, and else null.
pub fn of_kind<'a>(kind: SqlType, value: &'a Value) -> Datum<'a>
    ensures { owned result ≡ values.of_kind kind value.now }
{
    match (kind, value) {
        (SqlType::Boolean, Value::Flag(flag)) => Datum::Flag(*flag),
        (SqlType::Integer, Value::Int(n)) => integer(*n),
        (SqlType::Bigint, Value::Int(n)) => Datum::Int(*n),
        (SqlType::Text | SqlType::Varchar(_), Value::Text(text)) => Datum::Text(text),
        (SqlType::Numeric, Value::Wide(n)) => Datum::Wide(*n),
        _ => Datum::Null,
    }
}

fn integer<'a>(n: i64) -> Datum<'a>
    ensures { owned result ≡ values.of_kind SqlType.Integer (Value.Int n) }
{
    match i32::try_from(n) {
        Ok(_) => Datum::Int(n),
        Err(_) => Datum::Null,
    }
}

/// The value of a column, where it is of the type, and else null.
pub fn column<'a>(kind: SqlType, row: &'a [&'a [Value]], entry: u32, column: u32) -> Datum<'a>
    ensures { owned result ≡ values.of_kind kind (values.column_value (seen row.now) entry column) }
{
    let Some(entry) = row.get(entry as usize) else {
        return Datum::Null;
    };
    match entry.get(column as usize) {
        Some(value) => of_kind(kind, value),
        None => Datum::Null,
    }
}
