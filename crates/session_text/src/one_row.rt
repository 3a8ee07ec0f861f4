// Sessions that insert, update and read a row of one table.

const ONE_ROW: &str = r"
# the words 1, 0, 2: the read finds the state before the row
> StartupMessage user=a
+ started
+ table t
+ row (1, 10) with the word 1
> Query SELECT v FROM t WHERE k = 1
words 0 2
# The word 2 isn't drawn: there is no row.
* look 1 1
* begin 1 rc
* read 1 p.0.1 0 2 0 false
* commit 1
< RowDescription v bigint
< CommandComplete SELECT 0
< ReadyForQuery I
> Terminate
* close 1
= session 1: Terminated

# the words 1, 1, 2: the read finds the row
> StartupMessage user=a
+ started
+ table t
+ row (1, 10) with the word 1
> Query SELECT v FROM t WHERE k = 1
words 1 2
* look 1 1
* begin 1 rc
* read 1 p.0.1 1 2 1 true
* read 1 f.0.1.1 1 1 2 10
* commit 1
< RowDescription v bigint
< DataRow 10
< CommandComplete SELECT 1
< ReadyForQuery I
> Terminate
* close 1
= session 1: Terminated

# a session misses its own committed row
> StartupMessage user=a
+ started
+ table t
+ row (1, 10) with the word 0
> Query SELECT v FROM t WHERE k = 1
words 0
* look 1 1
* begin 1 rc
* read 1 p.0.1 0 2 0 false
* commit 1
< RowDescription v bigint
< CommandComplete SELECT 0
< ReadyForQuery I
> Terminate
* close 1
= session 1: Terminated

# a session reads its own committed row
> StartupMessage user=a
+ started
+ table t
+ row (1, 10) with the word 0
> Query SELECT v FROM t WHERE k = 1
words 1 7
* look 1 1
* begin 1 rc
* read 1 p.0.1 1 2 1 true
* read 1 f.0.1.1 1 1 7 10
* commit 1
< RowDescription v bigint
< DataRow 10
< CommandComplete SELECT 1
< ReadyForQuery I
> Terminate
* close 1
= session 1: Terminated

# an update, then a read of the old value
> StartupMessage user=a
+ started
+ table t
+ row (1, 10) with the word 0
> Query UPDATE t SET v = 20 WHERE k = 1
words 1
* look 1 1
* begin 1 rc
* read 1 p.0.1 1 2 1 true
* write 1 f.0.1.1 20
* commit 1
< CommandComplete UPDATE 1
< ReadyForQuery I
> Query SELECT v FROM t WHERE k = 1
words 1 0
* look 1 1
* begin 1 rc
* read 1 p.0.1 1 2 1 true
* read 1 f.0.1.1 1 2 0 10
* commit 1
< RowDescription v bigint
< DataRow 10
< CommandComplete SELECT 1
< ReadyForQuery I
> Terminate
* close 1
= session 1: Terminated

# an update, then a read of the new value
> StartupMessage user=a
+ started
+ table t
+ row (1, 10) with the word 0
> Query UPDATE t SET v = 20 WHERE k = 1
words 1
* look 1 1
* begin 1 rc
* read 1 p.0.1 1 2 1 true
* write 1 f.0.1.1 20
* commit 1
< CommandComplete UPDATE 1
< ReadyForQuery I
> Query SELECT v FROM t WHERE k = 1
words 1 1
* look 1 1
* begin 1 rc
* read 1 p.0.1 1 2 1 true
* read 1 f.0.1.1 2 2 1 20
* commit 1
< RowDescription v bigint
< DataRow 20
< CommandComplete SELECT 1
< ReadyForQuery I
> Terminate
* close 1
= session 1: Terminated

# own writes are read back without a word
> StartupMessage user=a
+ started
+ table t
> Query BEGIN
* begin 1 rc
< CommandComplete BEGIN
< ReadyForQuery T
> Query INSERT INTO t VALUES (1, 10)
words 5
* look 1 1
* read 1 p.0.1 0 1 5 false
* write 1 p.0.1 true
* write 1 f.0.1.1 10
< CommandComplete INSERT 0 1
< ReadyForQuery T
> Query SELECT v FROM t WHERE k = 1
* look 1 1
* own 1 p.0.1 true
* own 1 f.0.1.1 10
< RowDescription v bigint
< DataRow 10
< CommandComplete SELECT 1
< ReadyForQuery T
> Query ROLLBACK
* rollback 1
< CommandComplete ROLLBACK
< ReadyForQuery I
> Query SELECT v FROM t WHERE k = 1
words 6
* look 1 1
* begin 1 rc
* read 1 p.0.1 0 1 6 false
* commit 1
< RowDescription v bigint
< CommandComplete SELECT 0
< ReadyForQuery I
> Terminate
* close 1
= session 1: Terminated

# a read before any table is there, a text that isn't read, and the end of input
> StartupMessage user=a
+ started
> Query SELECT v FROM t WHERE k = 1
* look 1 0
< ErrorResponse ERROR 42P01 relation does not exist
< ReadyForQuery I
> Query VACUUM
< ErrorResponse ERROR 0A000 feature not supported
< ReadyForQuery I
* close 1
= session 1: Closed
";

/// Sessions that insert, update and read a row of one table.
pub fn row_sessions() -> &'static str {
    ONE_ROW
}
