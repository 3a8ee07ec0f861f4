// Sessions whose blocks go over several messages, or are cut off.

const BLOCKS: &str = r"
# a Query is cut short inside a block
> StartupMessage user=a
+ started
> Query BEGIN
* begin 1 rc
< CommandComplete BEGIN
< ReadyForQuery T
> bytes Q\0\0\0\x20SE
* rollback 1
* close 1
= session 1: Cut

# a length that is too small, inside a block
> StartupMessage user=a
+ started
> Query BEGIN
* begin 1 rc
< CommandComplete BEGIN
< ReadyForQuery T
> bytes Q\0\0\0\x03
* rollback 1
* close 1
< ErrorResponse FATAL 08P01 protocol violation
= session 1: Protocol(BadLength(3))

# a Query without its zero byte, inside a block that has written
> StartupMessage user=a
+ started
+ table t
> Query BEGIN
* begin 1 rc
< CommandComplete BEGIN
< ReadyForQuery T
> Query INSERT INTO t VALUES (1, 10)
words 0
* look 1 1
* read 1 p.0.1 0 1 0 false
* write 1 p.0.1 true
* write 1 f.0.1.1 10
< CommandComplete INSERT 0 1
< ReadyForQuery T
> bytes Q\0\0\0\x06SEL
* rollback 1
* close 1
< ErrorResponse FATAL 08P01 protocol violation
= session 1: Protocol(NoTerminator)

# empty texts in a failed block
> StartupMessage user=a
+ started
> Query BEGIN
* begin 1 rc
< CommandComplete BEGIN
< ReadyForQuery T
> Query SELECT 1/0
* rollback 1
< ErrorResponse ERROR 22012 division by zero
< ReadyForQuery E
> Query
< EmptyQueryResponse
< ReadyForQuery E
> Query ;
< EmptyQueryResponse
< ReadyForQuery E
> Query  -- x
< EmptyQueryResponse
< ReadyForQuery E
> Query COMMIT
< CommandComplete ROLLBACK
< ReadyForQuery I
> Terminate
* close 1
= session 1: Terminated

# a block that begins and ends inside messages of several statements
# It reads its own write back, and all its events are counted.
> StartupMessage user=a
+ started
+ table t
> Query BEGIN; INSERT INTO t VALUES (1, 10)
words 0
* begin 1 rc
* look 1 1
* read 1 p.0.1 0 1 0 false
* write 1 p.0.1 true
* write 1 f.0.1.1 10
< CommandComplete BEGIN
< CommandComplete INSERT 0 1
< ReadyForQuery T
> Query SELECT v FROM t WHERE k = 1
* look 1 1
* own 1 p.0.1 true
* own 1 f.0.1.1 10
< RowDescription v bigint
< DataRow 10
< CommandComplete SELECT 1
< ReadyForQuery T
> Query COMMIT; SHOW monkey.history
* commit 1
* show 1 12
< CommandComplete COMMIT
< RowDescription monkey.history text
< DataRow 12
< CommandComplete SHOW
< ReadyForQuery I
> Terminate
* close 1
= session 1: Terminated

# an update in a block misses the row that the session committed before
> StartupMessage user=a
+ started
+ table t
+ row (1, 10) with the word 1
> Query BEGIN ISOLATION LEVEL READ COMMITTED
* begin 1 rc
< CommandComplete BEGIN
< ReadyForQuery T
> Query UPDATE t SET v = 5 WHERE k = 1
words 0
* look 1 1
* read 1 p.0.1 0 2 0 false
< CommandComplete UPDATE 0
< ReadyForQuery T
> Query COMMIT
* commit 1
< CommandComplete COMMIT
< ReadyForQuery I
> Terminate
* close 1
= session 1: Terminated
";

/// Sessions whose blocks go over several messages, or are cut off.
pub fn block_sessions() -> &'static str {
    BLOCKS
}
