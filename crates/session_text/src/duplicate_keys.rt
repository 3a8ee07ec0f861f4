// Sessions that insert a key that is there already.

const DUPLICATE_KEYS: &str = r"
# a duplicate key that is seen
> StartupMessage user=a
+ started
+ table t
+ row (1, 10) with the word 0
> Query INSERT INTO t VALUES (1, 99)
words 1
* look 1 1
* begin 1 rc
* read 1 p.0.1 1 2 1 true
* rollback 1
< ErrorResponse ERROR 23505 duplicate key value violates unique constraint
< ReadyForQuery I
> Terminate
* close 1
= session 1: Terminated

# a duplicate key that isn't seen
> StartupMessage user=a
+ started
+ table t
+ row (1, 10) with the word 0
> Query INSERT INTO t VALUES (1, 99)
words 0
* look 1 1
* begin 1 rc
* read 1 p.0.1 0 2 0 false
* write 1 p.0.1 true
* write 1 f.0.1.1 99
* commit 1
< CommandComplete INSERT 0 1
< ReadyForQuery I
> Terminate
* close 1
= session 1: Terminated

# a table made twice, and a key inserted twice
> StartupMessage user=a
+ started
+ table t
> Query CREATE TABLE t (k bigint PRIMARY KEY, v bigint)
* look 1 1
< ErrorResponse ERROR 42P07 relation already exists
< ReadyForQuery I
+ row (1, 10) with the word 0
> Query INSERT INTO t VALUES (1, 11)
words 1
* look 1 1
* begin 1 rc
* read 1 p.0.1 1 2 1 true
* rollback 1
< ErrorResponse ERROR 23505 duplicate key value violates unique constraint
< ReadyForQuery I
> Terminate
* close 1
= session 1: Terminated
";

/// Sessions that insert a key that is there already.
pub fn duplicate_key_sessions() -> &'static str {
    DUPLICATE_KEYS
}
