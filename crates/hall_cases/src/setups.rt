// What many interleavings have in common, each named by its first line. `{session}` is the session of the client that has it, and `{level}`
// the level of the server. A set-up may name another one, which names none of these.

const SETUPS: &str = r"
# started
* open {session}
{session} + greeted
{session} < BackendKeyData {session} 0
{session} < ReadyForQuery I

# table t
{session} > Query CREATE TABLE t (k bigint PRIMARY KEY, v bigint)
* define {session} x74
{session} < CommandComplete CREATE TABLE
{session} < ReadyForQuery I

# row (1, 10) with the word 0
{session} > Query INSERT INTO t VALUES (1, 10)
{session} words 0
* look {session} 1
* begin {session} {level}
* read {session} p.0.1 0 1 0 false
* write {session} p.0.1 true
* write {session} f.0.1.1 10
* commit {session}
{session} < CommandComplete INSERT 0 1
{session} < ReadyForQuery I

# block that finds the row (1, 10) and commits the row (2, 20)
{session} > StartupMessage user=a
{session} + started
{session} + block
{session} > Query SELECT v FROM t WHERE k = 1
{session} words 1 0
* look {session} 1
* read {session} p.0.1 1 2 1 true
* read {session} f.0.1.1 1 1 0 10
{session} < RowDescription v bigint
{session} < DataRow 10
{session} < CommandComplete SELECT 1
{session} < ReadyForQuery T
{session} > Query INSERT INTO t VALUES (2, 20)
{session} words 0
* look {session} 1
* read {session} p.0.2 0 1 0 false
* write {session} p.0.2 true
* write {session} f.0.2.1 20
{session} < CommandComplete INSERT 0 1
{session} < ReadyForQuery T
{session} + commit

# block
{session} > Query BEGIN
* begin {session} {level}
{session} < CommandComplete BEGIN
{session} < ReadyForQuery T

# commit
{session} > Query COMMIT
* commit {session}
{session} < CommandComplete COMMIT
{session} < ReadyForQuery I

# end
{session} > Terminate
* close {session}
{session} = Terminated

# end inside a block
{session} > Terminate
* rollback {session}
* close {session}
{session} = Terminated
";

fn setups() -> &'static str {
    SETUPS
}

/// The lines of the set-up of this name.
pub fn setup(name: &str) -> Option<&'static str> {
    for paragraph in setups().split("\n\n") {
        if let Some((title, lines)) = paragraph.trim_start().split_once('\n') {
            if title.strip_prefix("# ") == Some(name) {
                return Some(lines);
            }
        }
    }
    None
}
