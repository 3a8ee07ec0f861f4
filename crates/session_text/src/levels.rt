// Sessions that choose the level of their transactions.

const LEVELS: &str = r"
# SET chooses the level of the next transaction, and SHOW tells it
# At Causal Consistency a session that is alone is offered its newest write alone. A level that isn't
# there changes nothing, and the default is the level of the server.
> StartupMessage user=a
+ started
+ table t
+ row (1, 10) with the word 0
> Query SET monkey.level TO 'cc'
< CommandComplete SET
< ReadyForQuery I
> Query SHOW monkey.level
< RowDescription monkey.level text
< DataRow cc
< CommandComplete SHOW
< ReadyForQuery I
> Query SELECT v FROM t WHERE k = 1
words 5 6
* look 1 1
* begin 1 cc
* read 1 p.0.1 1 1 5 true
* read 1 f.0.1.1 1 1 6 10
* commit 1
< RowDescription v bigint
< DataRow 10
< CommandComplete SELECT 1
< ReadyForQuery I
> Query SET monkey.level TO 'si'
< ErrorResponse ERROR 0A000 feature not supported
< ReadyForQuery I
> Query SHOW monkey.level
< RowDescription monkey.level text
< DataRow cc
< CommandComplete SHOW
< ReadyForQuery I
> Query SET monkey.level TO default
< CommandComplete SET
< ReadyForQuery I
> Query SHOW monkey.level
< RowDescription monkey.level text
< DataRow rc
< CommandComplete SHOW
< ReadyForQuery I
> Query SELECT v FROM t WHERE k = 1
words 4
* look 1 1
* begin 1 rc
* read 1 p.0.1 0 2 4 false
* commit 1
< RowDescription v bigint
< CommandComplete SELECT 0
< ReadyForQuery I
> Terminate
* close 1
= session 1: Terminated

# a SET inside a block
# The running transaction keeps its level, and the next one has the new one. No ROLLBACK undoes it.
> StartupMessage user=a
+ started
+ table t
+ row (1, 10) with the word 0
> Query BEGIN
* begin 1 rc
< CommandComplete BEGIN
< ReadyForQuery T
> Query SET monkey.level TO ra
< CommandComplete SET
< ReadyForQuery T
> Query SHOW monkey.level
< RowDescription monkey.level text
< DataRow ra
< CommandComplete SHOW
< ReadyForQuery T
> Query SELECT v FROM t WHERE k = 1
words 2
* look 1 1
* read 1 p.0.1 0 2 2 false
< RowDescription v bigint
< CommandComplete SELECT 0
< ReadyForQuery T
> Query COMMIT
* commit 1
< CommandComplete COMMIT
< ReadyForQuery I
> Query SELECT v FROM t WHERE k = 1
words 3 9
* look 1 1
* begin 1 ra
* read 1 p.0.1 1 1 3 true
* read 1 f.0.1.1 1 1 9 10
* commit 1
< RowDescription v bigint
< DataRow 10
< CommandComplete SELECT 1
< ReadyForQuery I
> Query BEGIN
* begin 1 ra
< CommandComplete BEGIN
< ReadyForQuery T
> Query SET monkey.level = cc
< CommandComplete SET
< ReadyForQuery T
> Query ROLLBACK
* rollback 1
< CommandComplete ROLLBACK
< ReadyForQuery I
> Query SHOW monkey.level
< RowDescription monkey.level text
< DataRow cc
< CommandComplete SHOW
< ReadyForQuery I
> Query SELECT v FROM t WHERE k = 1
words 8
* look 1 1
* begin 1 cc
* read 1 p.0.1 1 1 8 true
* read 1 f.0.1.1 1 1 0 10
* commit 1
< RowDescription v bigint
< DataRow 10
< CommandComplete SELECT 1
< ReadyForQuery I
> Terminate
* close 1
= session 1: Terminated

# what keeps the level
# A statement that fails undoes no SET, and a failed block takes none. Neither do several values
# change the level, nor a setting that isn't there.
> StartupMessage user=a
+ started
> Query BEGIN
* begin 1 rc
< CommandComplete BEGIN
< ReadyForQuery T
> Query SET monkey.level TO ra
< CommandComplete SET
< ReadyForQuery T
> Query SELECT 1/0
* rollback 1
< ErrorResponse ERROR 22012 division by zero
< ReadyForQuery E
> Query SET monkey.level TO cc
< ErrorResponse ERROR 25P02 current transaction is aborted
< ReadyForQuery E
> Query ROLLBACK
< CommandComplete ROLLBACK
< ReadyForQuery I
> Query SHOW monkey.level
< RowDescription monkey.level text
< DataRow ra
< CommandComplete SHOW
< ReadyForQuery I
> Query SET monkey.level TO cc, rc
< ErrorResponse ERROR 0A000 feature not supported
< ReadyForQuery I
> Query SET monkey.levels TO cc
< ErrorResponse ERROR 0A000 feature not supported
< ReadyForQuery I
> Query BEGIN; SHOW monkey.level
* begin 1 ra
< CommandComplete BEGIN
< RowDescription monkey.level text
< DataRow ra
< CommandComplete SHOW
< ReadyForQuery T
> Query COMMIT
* commit 1
< CommandComplete COMMIT
< ReadyForQuery I
> Terminate
* close 1
= session 1: Terminated

# a server at Causal Consistency
# A session begins at that level, and goes back to it by the default.
level cc
> StartupMessage user=a
+ started
> Query SHOW monkey.level
< RowDescription monkey.level text
< DataRow cc
< CommandComplete SHOW
< ReadyForQuery I
+ table t
> Query INSERT INTO t VALUES (1, 10)
words 0
* look 1 1
* begin 1 cc
* read 1 p.0.1 0 1 0 false
* write 1 p.0.1 true
* write 1 f.0.1.1 10
* commit 1
< CommandComplete INSERT 0 1
< ReadyForQuery I
> Query SELECT v FROM t WHERE k = 1
words 7 1
* look 1 1
* begin 1 cc
* read 1 p.0.1 1 1 7 true
* read 1 f.0.1.1 1 1 1 10
* commit 1
< RowDescription v bigint
< DataRow 10
< CommandComplete SELECT 1
< ReadyForQuery I
> Query SET monkey.level TO rc
< CommandComplete SET
< ReadyForQuery I
> Query SHOW monkey.level
< RowDescription monkey.level text
< DataRow rc
< CommandComplete SHOW
< ReadyForQuery I
> Query SELECT v FROM t WHERE k = 1
words 2
* look 1 1
* begin 1 rc
* read 1 p.0.1 0 2 2 false
* commit 1
< RowDescription v bigint
< CommandComplete SELECT 0
< ReadyForQuery I
> Query SET monkey.level TO 'default'
< CommandComplete SET
< ReadyForQuery I
> Query SHOW monkey.level
< RowDescription monkey.level text
< DataRow cc
< CommandComplete SHOW
< ReadyForQuery I
> Query BEGIN
* begin 1 cc
< CommandComplete BEGIN
< ReadyForQuery T
> Query COMMIT
* commit 1
< CommandComplete COMMIT
< ReadyForQuery I
> Terminate
* close 1
= session 1: Terminated
";

/// Sessions that choose the level of their transactions.
pub fn level_sessions() -> &'static str {
    LEVELS
}
