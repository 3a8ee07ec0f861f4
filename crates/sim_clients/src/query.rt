// The queries of a simulated client.
ghost use Rattle.std.specs.Prelude.{◌≡◌, ◌++◌, ◌≤◌, ◌+◌, ◌/◌, ◌%◌, OnOk, decimal, codes, length};
ghost use Rattle.sim_clients.specs.Queries.{text_of, query_of, action_for};

use cell_base::Memory;
use itoa::Buffer;

/// What a query does with the row of its key.
#[derive(Clone, Copy, Debug, PartialEq, Eq)]
pub enum Action {
    /// Inserts the row with this value.
    Insert(u32),
    /// Adds one to its value.
    Increment,
    /// Reads its value.
    Select,
    /// Deletes it.
    Delete,
}

/// A query on the row of a key of the table `t`.
#[derive(Clone, Copy, Debug, PartialEq, Eq)]
pub struct Query {
    pub key: u32,
    pub action: Action,
}

// What the second word of a query says.
fn action_of(word: u32) -> Action
    ensures { result ≡ action_for (word / 4) (word % 4) }
{
    match word % 4 {
        0 => Action::Insert(word / 4),
        1 => Action::Increment,
        2 => Action::Select,
        _ => Action::Delete,
    }
}

/// The query that two words of the generator say.
pub fn drawn(first: u32, second: u32) -> Query
    ensures { result ≡ query_of first second }
{
    Query {
        key: 1 + first % 8,
        action: action_of(second),
    }
}

/// Writes bytes at the end.
pub fn put(out: &mut Vec<u8>, bytes: &[u8]) -> Result<(), Memory>
    ensures bytes { OnOk result (out.new.items ≡ out.old.items ++ bytes.now) }
    ensures count { OnOk result (length out.new.items ≡ length out.old.items + length bytes.now) }
{
    out.extend_from_slice(bytes)?;
    Ok(())
}

// Writes a number in decimal.
fn put_number(out: &mut Vec<u8>, number: u32) -> Result<(), Memory>
    ensures bytes { OnOk result (out.new.items ≡ out.old.items ++ decimal number) }
    ensures few { OnOk result (length out.new.items ≤ length out.old.items + 10) }
{
    put(out, Buffer::new().format(number).as_bytes())
}

// Writes words, and the key after them.
fn put_on_key(out: &mut Vec<u8>, words: &[u8], key: u32) -> Result<(), Memory>
    ensures bytes { OnOk result (out.new.items ≡ out.old.items ++ (words.now ++ decimal key)) }
    ensures few { OnOk result (length out.new.items ≤ length out.old.items + (length words.now + 10)) }
{
    put(out, words)?;
    put_number(out, key)
}

// Writes the insertion of a row.
fn put_insert(out: &mut Vec<u8>, key: u32, value: u32) -> Result<(), Memory>
    ensures bytes { OnOk result (out.new.items ≡ out.old.items ++ (codes "INSERT INTO t VALUES (" ++ (decimal key ++ (codes ", " ++ (decimal value ++ codes ")"))))) }
    ensures few { OnOk result (length out.new.items ≤ length out.old.items + 60) }
{
    put_on_key(out, b"INSERT INTO t VALUES (", key)?;
    put_on_key(out, b", ", value)?;
    put(out, b")")
}

/// Writes the text of a query.
pub fn put_query(out: &mut Vec<u8>, query: Query) -> Result<(), Memory>
    ensures bytes { OnOk result (out.new.items ≡ out.old.items ++ text_of query) }
    ensures few { OnOk result (length out.new.items ≤ length out.old.items + 60) }
{
    let key = query.key;
    match query.action {
        Action::Insert(value) => put_insert(out, key, value),
        Action::Increment => put_on_key(out, b"UPDATE t SET v = v + 1 WHERE k = ", key),
        Action::Select => put_on_key(out, b"SELECT v FROM t WHERE k = ", key),
        Action::Delete => put_on_key(out, b"DELETE FROM t WHERE k = ", key),
    }
}
