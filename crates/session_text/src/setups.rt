// What many sessions have in common, each named by its first line. A set-up may name another one, which names none.
use crate::unread::Unread;

const SETUPS: &str = r"
# greeted
< AuthenticationOk
< ParameterStatus server_version 14.0
< ParameterStatus server_encoding UTF8
< ParameterStatus client_encoding UTF8
< ParameterStatus DateStyle ISO, MDY
< ParameterStatus integer_datetimes on
< ParameterStatus standard_conforming_strings on

# started
* open 1
+ greeted
< BackendKeyData 1 0
< ReadyForQuery I

# started as session 2
* open 2
+ greeted
< BackendKeyData 2 0
< ReadyForQuery I

# started as session 3
* open 3
+ greeted
< BackendKeyData 3 0
< ReadyForQuery I

# table t
> Query CREATE TABLE t (k bigint PRIMARY KEY, v bigint)
* define 1 x74
< CommandComplete CREATE TABLE
< ReadyForQuery I

# row (1, 10) with the word 0
> Query INSERT INTO t VALUES (1, 10)
words 0
* look 1 1
* begin 1 rc
* read 1 p.0.1 0 1 0 false
* write 1 p.0.1 true
* write 1 f.0.1.1 10
* commit 1
< CommandComplete INSERT 0 1
< ReadyForQuery I

# row (1, 10) with the word 1
> Query INSERT INTO t VALUES (1, 10)
words 1
* look 1 1
* begin 1 rc
* read 1 p.0.1 0 1 1 false
* write 1 p.0.1 true
* write 1 f.0.1.1 10
* commit 1
< CommandComplete INSERT 0 1
< ReadyForQuery I
";

fn setups() -> &'static str {
    SETUPS
}

/// The lines of the set-up of this name.
pub fn setup(name: &str) -> Result<&'static str, Unread> {
    for paragraph in setups().split("\n\n") {
        if let Some((title, lines)) = paragraph.trim_start().split_once('\n') {
            if title.strip_prefix("# ") == Some(name) {
                return Ok(lines);
            }
        }
    }
    Err(Unread::Line)
}
