// One session of many query messages, one after another.

const MANY_QUERIES: &str = r"
# queries of one session, one after another
# Each read of another transaction's cell finds the newest of two.
> StartupMessage user=a
+ started
> Query
< EmptyQueryResponse
< ReadyForQuery I
+ table t
> Query CREATE TABLE t (k bigint PRIMARY KEY, v bigint)
* look 1 1
< ErrorResponse ERROR 42P07 relation already exists
< ReadyForQuery I
+ row (1, 10) with the word 1
> Query SELECT v FROM t WHERE k = 1
words 1 1
* look 1 1
* begin 1 rc
* read 1 p.0.1 1 2 1 true
* read 1 f.0.1.1 1 1 1 10
* commit 1
< RowDescription v bigint
< DataRow 10
< CommandComplete SELECT 1
< ReadyForQuery I
> Query SELECT 1; SELECT 2
< RowDescription ?column? integer
< DataRow 1
< CommandComplete SELECT 1
< RowDescription ?column? integer
< DataRow 2
< CommandComplete SELECT 1
< ReadyForQuery I
> Query SELECT 1; SELECT 1 / 0; SELECT 2
< RowDescription ?column? integer
< DataRow 1
< CommandComplete SELECT 1
< ErrorResponse ERROR 22012 division by zero
< ReadyForQuery I
> Query BEGIN
* begin 1 rc
< CommandComplete BEGIN
< ReadyForQuery T
> Query BEGIN
< NoticeResponse WARNING 25001 there is already a transaction in progress
< CommandComplete BEGIN
< ReadyForQuery T
> Query
< EmptyQueryResponse
< ReadyForQuery T
> Query INSERT INTO t VALUES (2, 20)
words 1
* look 1 1
* read 1 p.0.2 0 1 1 false
* write 1 p.0.2 true
* write 1 f.0.2.1 20
< CommandComplete INSERT 0 1
< ReadyForQuery T
> Query COMMIT
* commit 1
< CommandComplete COMMIT
< ReadyForQuery I
> Query COMMIT
< NoticeResponse WARNING 25P01 there is no transaction in progress
< CommandComplete COMMIT
< ReadyForQuery I
> Query ROLLBACK
< NoticeResponse WARNING 25P01 there is no transaction in progress
< CommandComplete ROLLBACK
< ReadyForQuery I
> Query START TRANSACTION; INSERT INTO t VALUES (3, 30)
words 1
* begin 1 rc
* look 1 1
* read 1 p.0.3 0 1 1 false
* write 1 p.0.3 true
* write 1 f.0.3.1 30
< CommandComplete START TRANSACTION
< CommandComplete INSERT 0 1
< ReadyForQuery T
> Query SELECT nosuch FROM t
* look 1 1
* rollback 1
< ErrorResponse ERROR 42703 column does not exist
< ReadyForQuery E
> Query SELECT 1
< ErrorResponse ERROR 25P02 current transaction is aborted
< ReadyForQuery E
> Query SELECT
< ErrorResponse ERROR 42601 syntax error
< ReadyForQuery E
> Query
< EmptyQueryResponse
< ReadyForQuery E
> Query COMMIT; SELECT 1
< CommandComplete ROLLBACK
< RowDescription ?column? integer
< DataRow 1
< CommandComplete SELECT 1
< ReadyForQuery I
> Query SELECT k FROM t ORDER BY k
words 1 1
* look 1 1
* begin 1 rc
* scan 1 0 1 2
* read 1 p.0.1 1 2 1 true
* read 1 p.0.2 3 2 1 true
* commit 1
< RowDescription k bigint
< DataRow 1
< DataRow 2
< CommandComplete SELECT 2
< ReadyForQuery I
> Query INSERT INTO t VALUES (4, 40); SELECT 1 / 0
words 1
* look 1 1
* begin 1 rc
* read 1 p.0.4 0 1 1 false
* write 1 p.0.4 true
* write 1 f.0.4.1 40
* rollback 1
< CommandComplete INSERT 0 1
< ErrorResponse ERROR 22012 division by zero
< ReadyForQuery I
> Query SELECT k FROM t ORDER BY k
words 1 1
* look 1 1
* begin 1 rc
* scan 1 0 1 2
* read 1 p.0.1 1 2 1 true
* read 1 p.0.2 3 2 1 true
* commit 1
< RowDescription k bigint
< DataRow 1
< DataRow 2
< CommandComplete SELECT 2
< ReadyForQuery I
> Query INSERT INTO t VALUES (5, 50); COMMIT; SELECT 1 / 0
words 1
* look 1 1
* begin 1 rc
* read 1 p.0.5 0 1 1 false
* write 1 p.0.5 true
* write 1 f.0.5.1 50
* commit 1
< CommandComplete INSERT 0 1
< NoticeResponse WARNING 25P01 there is no transaction in progress
< CommandComplete COMMIT
< ErrorResponse ERROR 22012 division by zero
< ReadyForQuery I
> Query SELECT k FROM t ORDER BY k
words 1 1 1
* look 1 1
* begin 1 rc
* scan 1 0 1 2 5
* read 1 p.0.1 1 2 1 true
* read 1 p.0.2 3 2 1 true
* read 1 p.0.5 8 2 1 true
* commit 1
< RowDescription k bigint
< DataRow 1
< DataRow 2
< DataRow 5
< CommandComplete SELECT 3
< ReadyForQuery I
> Query SET client_encoding TO 'UTF8'
< CommandComplete SET
< ReadyForQuery I
> Query SET monkey.level TO rc
< CommandComplete SET
< ReadyForQuery I
> Query SET monkey.level TO si
< ErrorResponse ERROR 0A000 feature not supported
< ReadyForQuery I
> Query SET monkey.history TO 1
< ErrorResponse ERROR 0A000 feature not supported
< ReadyForQuery I
> Query SHOW monkey.level
< RowDescription monkey.level text
< DataRow rc
< CommandComplete SHOW
< ReadyForQuery I
> Query SHOW DateStyle
< RowDescription datestyle text
< DataRow ISO, MDY
< CommandComplete SHOW
< ReadyForQuery I
> Query SHOW nosuch
< ErrorResponse ERROR 0A000 feature not supported
< ReadyForQuery I
> Terminate
* close 1
= session 1: Terminated
";

/// One session of 32 query messages.
pub fn query_sessions() -> &'static str {
    MANY_QUERIES
}
