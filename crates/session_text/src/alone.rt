// Sessions that are alone at Read Atomic and at Causal Consistency: each read of a cell that the session has committed is offered the newest
// write alone.

const LONE_SESSIONS: &str = r"
# an update, then a read, at Read Atomic: each read is offered one write
level ra
> StartupMessage user=a
+ started
+ table t
> Query INSERT INTO t VALUES (1, 10)
words 0
* look 1 1
* begin 1 ra
* read 1 p.0.1 0 1 0 false
* write 1 p.0.1 true
* write 1 f.0.1.1 10
* commit 1
< CommandComplete INSERT 0 1
< ReadyForQuery I
> Query UPDATE t SET v = 20 WHERE k = 1
words 0
* look 1 1
* begin 1 ra
* read 1 p.0.1 1 1 0 true
* write 1 f.0.1.1 20
* commit 1
< CommandComplete UPDATE 1
< ReadyForQuery I
> Query SELECT v FROM t WHERE k = 1
words 0 0
* look 1 1
* begin 1 ra
* read 1 p.0.1 1 1 0 true
* read 1 f.0.1.1 2 1 0 20
* commit 1
< RowDescription v bigint
< DataRow 20
< CommandComplete SELECT 1
< ReadyForQuery I
> Terminate
* close 1
= session 1: Terminated

# an update, then a read, at Causal Consistency: each read is offered one write
level cc
> StartupMessage user=a
+ started
+ table t
> Query INSERT INTO t VALUES (1, 10)
words 0
* look 1 1
* begin 1 cc
* read 1 p.0.1 0 1 0 false
* write 1 p.0.1 true
* write 1 f.0.1.1 10
* commit 1
< CommandComplete INSERT 0 1
< ReadyForQuery I
> Query UPDATE t SET v = 20 WHERE k = 1
words 0
* look 1 1
* begin 1 cc
* read 1 p.0.1 1 1 0 true
* write 1 f.0.1.1 20
* commit 1
< CommandComplete UPDATE 1
< ReadyForQuery I
> Query SELECT v FROM t WHERE k = 1
words 0 0
* look 1 1
* begin 1 cc
* read 1 p.0.1 1 1 0 true
* read 1 f.0.1.1 2 1 0 20
* commit 1
< RowDescription v bigint
< DataRow 20
< CommandComplete SELECT 1
< ReadyForQuery I
> Terminate
* close 1
= session 1: Terminated

# order, aggregates and a join at Causal Consistency: no read finds the state before the rows
level cc
> StartupMessage user=a
+ started
> Query CREATE TABLE w (k bigint PRIMARY KEY, n integer)
* define 1 x77
< CommandComplete CREATE TABLE
< ReadyForQuery I
> Query INSERT INTO w VALUES (1, NULL), (2, 5), (3, NULL)
words 1 1 1
* look 1 1
* begin 1 cc
* read 1 p.0.1 0 1 1 false
* read 1 p.0.2 0 1 1 false
* read 1 p.0.3 0 1 1 false
* write 1 p.0.1 true
* write 1 f.0.1.1 null
* write 1 p.0.2 true
* write 1 f.0.2.1 5
* write 1 p.0.3 true
* write 1 f.0.3.1 null
* commit 1
< CommandComplete INSERT 0 3
< ReadyForQuery I
> Query SELECT k FROM w ORDER BY n
words 1 1 1 1 1 1
* look 1 1
* begin 1 cc
* scan 1 0 1 2 3
* read 1 p.0.1 1 1 1 true
* read 1 f.0.1.1 1 1 1 null
* read 1 p.0.2 1 1 1 true
* read 1 f.0.2.1 1 1 1 5
* read 1 p.0.3 1 1 1 true
* read 1 f.0.3.1 1 1 1 null
* commit 1
< RowDescription k bigint
< DataRow 2
< DataRow 1
< DataRow 3
< CommandComplete SELECT 3
< ReadyForQuery I
> Query SELECT k FROM w ORDER BY n DESC
words 1 1 1 1 1 1
* look 1 1
* begin 1 cc
* scan 1 0 1 2 3
* read 1 p.0.1 1 1 1 true
* read 1 f.0.1.1 1 1 1 null
* read 1 p.0.2 1 1 1 true
* read 1 f.0.2.1 1 1 1 5
* read 1 p.0.3 1 1 1 true
* read 1 f.0.3.1 1 1 1 null
* commit 1
< RowDescription k bigint
< DataRow 1
< DataRow 3
< DataRow 2
< CommandComplete SELECT 3
< ReadyForQuery I
> Query SELECT count(*), count(n), sum(n), min(n) FROM w
words 1 1 1 1 1 1
* look 1 1
* begin 1 cc
* scan 1 0 1 2 3
* read 1 p.0.1 1 1 1 true
* read 1 f.0.1.1 1 1 1 null
* read 1 p.0.2 1 1 1 true
* read 1 f.0.2.1 1 1 1 5
* read 1 p.0.3 1 1 1 true
* read 1 f.0.3.1 1 1 1 null
* commit 1
< RowDescription count bigint, count bigint, sum bigint, min integer
< DataRow 3|1|5|5
< CommandComplete SELECT 1
< ReadyForQuery I
> Query SELECT sum(k) FROM w
words 1 1 1
* look 1 1
* begin 1 cc
* scan 1 0 1 2 3
* read 1 p.0.1 1 1 1 true
* read 1 p.0.2 1 1 1 true
* read 1 p.0.3 1 1 1 true
* commit 1
< RowDescription sum numeric
< DataRow 6
< CommandComplete SELECT 1
< ReadyForQuery I
> Query SELECT a.k, b.n FROM w a JOIN w b ON a.k = b.k WHERE b.n = 5
words 1 1 1 1 1 1
* look 1 1
* begin 1 cc
* scan 1 0 1 2 3
* read 1 p.0.1 1 1 1 true
* read 1 f.0.1.1 1 1 1 null
* read 1 p.0.2 1 1 1 true
* read 1 f.0.2.1 1 1 1 5
* read 1 p.0.3 1 1 1 true
* read 1 f.0.3.1 1 1 1 null
* commit 1
< RowDescription k bigint, n integer
< DataRow 2|5
< CommandComplete SELECT 1
< ReadyForQuery I
> Query SELECT sum(n) FROM w WHERE k = 9
words 1
* look 1 1
* begin 1 cc
* read 1 p.0.9 0 1 1 false
* commit 1
< RowDescription sum bigint
< DataRow NULL
< CommandComplete SELECT 1
< ReadyForQuery I
> Terminate
* close 1
= session 1: Terminated
";

/// Sessions that are alone at Read Atomic and at Causal Consistency.
pub fn lone_sessions() -> &'static str {
    LONE_SESSIONS
}
