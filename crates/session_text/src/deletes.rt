// Sessions that delete rows.

const DELETES: &str = r"
# deletes that find the newest rows
# By a key, by a condition, of a key that isn't there, and of all rows.
> StartupMessage user=a
+ started
+ table t
> Query INSERT INTO t VALUES (1, 10), (2, 20), (3, 30)
words 1 1 1
* look 1 1
* begin 1 rc
* read 1 p.0.1 0 1 1 false
* read 1 p.0.2 0 1 1 false
* read 1 p.0.3 0 1 1 false
* write 1 p.0.1 true
* write 1 f.0.1.1 10
* write 1 p.0.2 true
* write 1 f.0.2.1 20
* write 1 p.0.3 true
* write 1 f.0.3.1 30
* commit 1
< CommandComplete INSERT 0 3
< ReadyForQuery I
> Query DELETE FROM t WHERE k = 2
words 1
* look 1 1
* begin 1 rc
* read 1 p.0.2 1 2 1 true
* write 1 p.0.2 false
* commit 1
< CommandComplete DELETE 1
< ReadyForQuery I
> Query DELETE FROM t WHERE v = 30
words 1 1 1 1 1
* look 1 1
* begin 1 rc
* scan 1 0 1 2 3
* read 1 p.0.1 1 2 1 true
* read 1 f.0.1.1 1 1 1 10
* read 1 p.0.2 2 2 1 false
* read 1 p.0.3 1 1 1 true
* read 1 f.0.3.1 1 1 1 30
* write 1 p.0.3 false
* commit 1
< CommandComplete DELETE 1
< ReadyForQuery I
> Query DELETE FROM t WHERE k = 9
words 1
* look 1 1
* begin 1 rc
* read 1 p.0.9 0 1 1 false
* commit 1
< CommandComplete DELETE 0
< ReadyForQuery I
> Query SELECT k, v FROM t
words 1 1 1 1
* look 1 1
* begin 1 rc
* scan 1 0 1 2 3
* read 1 p.0.1 1 2 1 true
* read 1 f.0.1.1 1 1 1 10
* read 1 p.0.2 2 2 1 false
* read 1 p.0.3 3 2 1 false
* commit 1
< RowDescription k bigint, v bigint
< DataRow 1|10
< CommandComplete SELECT 1
< ReadyForQuery I
> Query INSERT INTO t VALUES (2, 21)
words 2
* look 1 1
* begin 1 rc
* read 1 p.0.2 2 3 2 false
* write 1 p.0.2 true
* write 1 f.0.2.1 21
* commit 1
< CommandComplete INSERT 0 1
< ReadyForQuery I
> Query DELETE FROM t
words 1 2 1
* look 1 1
* begin 1 rc
* scan 1 0 1 2 3
* read 1 p.0.1 1 2 1 true
* read 1 p.0.2 6 3 2 true
* read 1 p.0.3 3 2 1 false
* write 1 p.0.1 false
* write 1 p.0.2 false
* commit 1
< CommandComplete DELETE 2
< ReadyForQuery I
> Query SELECT k, v FROM t
words 2 0 2
* look 1 1
* begin 1 rc
* scan 1 0 1 2 3
* read 1 p.0.1 7 3 2 false
* read 1 p.0.2 7 1 0 false
* read 1 p.0.3 3 3 2 false
* commit 1
< RowDescription k bigint, v bigint
< CommandComplete SELECT 0
< ReadyForQuery I
> Terminate
* close 1
= session 1: Terminated

# deletes that read an older state
# Two find nothing. Then a row is seen after its deletion, and deleted again.
> StartupMessage user=a
+ started
+ table t
+ row (1, 10) with the word 0
> Query DELETE FROM t WHERE k = 1
words 0
* look 1 1
* begin 1 rc
* read 1 p.0.1 0 2 0 false
* commit 1
< CommandComplete DELETE 0
< ReadyForQuery I
> Query DELETE FROM t WHERE v = 10
words 0
* look 1 1
* begin 1 rc
* scan 1 0 1
* read 1 p.0.1 0 2 0 false
* commit 1
< CommandComplete DELETE 0
< ReadyForQuery I
> Query SELECT v FROM t WHERE k = 1
words 1 0
* look 1 1
* begin 1 rc
* read 1 p.0.1 1 2 1 true
* read 1 f.0.1.1 1 1 0 10
* commit 1
< RowDescription v bigint
< DataRow 10
< CommandComplete SELECT 1
< ReadyForQuery I
> Query DELETE FROM t WHERE v = 10
words 1 0
* look 1 1
* begin 1 rc
* scan 1 0 1
* read 1 p.0.1 1 2 1 true
* read 1 f.0.1.1 1 1 0 10
* write 1 p.0.1 false
* commit 1
< CommandComplete DELETE 1
< ReadyForQuery I
> Query SELECT v FROM t WHERE k = 1
words 1 0
* look 1 1
* begin 1 rc
* read 1 p.0.1 1 3 1 true
* read 1 f.0.1.1 1 1 0 10
* commit 1
< RowDescription v bigint
< DataRow 10
< CommandComplete SELECT 1
< ReadyForQuery I
> Query DELETE FROM t WHERE k = 1
words 1
* look 1 1
* begin 1 rc
* read 1 p.0.1 1 3 1 true
* write 1 p.0.1 false
* commit 1
< CommandComplete DELETE 1
< ReadyForQuery I
> Query SELECT v FROM t WHERE k = 1
words 2
* look 1 1
* begin 1 rc
* read 1 p.0.1 5 4 2 false
* commit 1
< RowDescription v bigint
< CommandComplete SELECT 0
< ReadyForQuery I
> Terminate
* close 1
= session 1: Terminated

# deletes of a block's own rows
# And of one that was there before the block, which is then rolled back.
> StartupMessage user=a
+ started
+ table t
+ row (1, 10) with the word 0
> Query BEGIN
* begin 1 rc
< CommandComplete BEGIN
< ReadyForQuery T
> Query INSERT INTO t VALUES (2, 20), (3, 30)
words 0 0
* look 1 1
* read 1 p.0.2 0 1 0 false
* read 1 p.0.3 0 1 0 false
* write 1 p.0.2 true
* write 1 f.0.2.1 20
* write 1 p.0.3 true
* write 1 f.0.3.1 30
< CommandComplete INSERT 0 2
< ReadyForQuery T
> Query DELETE FROM t WHERE k = 2
* look 1 1
* own 1 p.0.2 true
* write 1 p.0.2 false
< CommandComplete DELETE 1
< ReadyForQuery T
> Query DELETE FROM t WHERE k = 2
* look 1 1
* own 1 p.0.2 false
< CommandComplete DELETE 0
< ReadyForQuery T
> Query DELETE FROM t WHERE v = 30 OR v = 10
words 1 0
* look 1 1
* scan 1 0 1 2 3
* read 1 p.0.1 1 2 1 true
* read 1 f.0.1.1 1 1 0 10
* own 1 p.0.2 false
* own 1 p.0.3 true
* own 1 f.0.3.1 30
* write 1 p.0.1 false
* write 1 p.0.3 false
< CommandComplete DELETE 2
< ReadyForQuery T
> Query SELECT k FROM t
* look 1 1
* scan 1 0 1 2 3
* own 1 p.0.1 false
* own 1 p.0.2 false
* own 1 p.0.3 false
< RowDescription k bigint
< CommandComplete SELECT 0
< ReadyForQuery T
> Query ROLLBACK
* rollback 1
< CommandComplete ROLLBACK
< ReadyForQuery I
> Query SELECT k FROM t
words 1
* look 1 1
* begin 1 rc
* scan 1 0 1
* read 1 p.0.1 1 2 1 true
* commit 1
< RowDescription k bigint
< DataRow 1
< CommandComplete SELECT 1
< ReadyForQuery I
> Terminate
* close 1
= session 1: Terminated

# deletes that meet faults and nulls
# A condition that fails at the second row deletes none, and one that is unknown keeps its row. The
# last five have no types, or are none.
> StartupMessage user=a
+ started
+ table t
> Query INSERT INTO t VALUES (1, 1), (2, 0), (3, NULL)
words 0 0 0
* look 1 1
* begin 1 rc
* read 1 p.0.1 0 1 0 false
* read 1 p.0.2 0 1 0 false
* read 1 p.0.3 0 1 0 false
* write 1 p.0.1 true
* write 1 f.0.1.1 1
* write 1 p.0.2 true
* write 1 f.0.2.1 0
* write 1 p.0.3 true
* write 1 f.0.3.1 null
* commit 1
< CommandComplete INSERT 0 3
< ReadyForQuery I
> Query DELETE FROM t WHERE 1 / v = 1
words 1 0 0 0 0 0
* look 1 1
* begin 1 rc
* scan 1 0 1 2 3
* read 1 p.0.1 1 2 1 true
* read 1 f.0.1.1 1 1 0 1
* read 1 p.0.2 1 1 0 true
* read 1 f.0.2.1 1 1 0 0
* read 1 p.0.3 1 1 0 true
* read 1 f.0.3.1 1 1 0 null
* rollback 1
< ErrorResponse ERROR 22012 division by zero
< ReadyForQuery I
> Query DELETE FROM t WHERE v < 2
words 1 0 0 0 0 0
* look 1 1
* begin 1 rc
* scan 1 0 1 2 3
* read 1 p.0.1 1 2 1 true
* read 1 f.0.1.1 1 1 0 1
* read 1 p.0.2 1 1 0 true
* read 1 f.0.2.1 1 1 0 0
* read 1 p.0.3 1 1 0 true
* read 1 f.0.3.1 1 1 0 null
* write 1 p.0.1 false
* write 1 p.0.2 false
* commit 1
< CommandComplete DELETE 2
< ReadyForQuery I
> Query SELECT * FROM t
words 2 0 1 0
* look 1 1
* begin 1 rc
* scan 1 0 1 2 3
* read 1 p.0.1 3 3 2 false
* read 1 p.0.2 3 1 0 false
* read 1 p.0.3 1 2 1 true
* read 1 f.0.3.1 1 1 0 null
* commit 1
< RowDescription k bigint, v bigint
< DataRow 3|NULL
< CommandComplete SELECT 1
< ReadyForQuery I
> Query DELETE FROM q
* look 1 1
< ErrorResponse ERROR 42P01 relation does not exist
< ReadyForQuery I
> Query DELETE FROM t WHERE q = 1
* look 1 1
< ErrorResponse ERROR 42703 column does not exist
< ReadyForQuery I
> Query DELETE FROM t WHERE v
* look 1 1
< ErrorResponse ERROR 42804 datatype mismatch
< ReadyForQuery I
> Query DELETE FROM t WHERE count(*) = 1
* look 1 1
< ErrorResponse ERROR 42803 grouping error
< ReadyForQuery I
> Query DELETE FROM t AS a
< ErrorResponse ERROR 42601 syntax error
< ReadyForQuery I
> Terminate
* close 1
= session 1: Terminated

# deletes by text keys
# Two name a key beside more, and one names it after OR.
> StartupMessage user=a
+ started
> Query CREATE TABLE s (k text PRIMARY KEY, n integer, m integer)
* define 1 x73
< CommandComplete CREATE TABLE
< ReadyForQuery I
> Query INSERT INTO s VALUES ('b', 2, 3), ('a', 1, 1)
words 0 0
* look 1 1
* begin 1 rc
* read 1 p.0.x61 0 1 0 false
* read 1 p.0.x62 0 1 0 false
* write 1 p.0.x61 true
* write 1 f.0.x61.1 1
* write 1 f.0.x61.2 1
* write 1 p.0.x62 true
* write 1 f.0.x62.1 2
* write 1 f.0.x62.2 3
* commit 1
< CommandComplete INSERT 0 2
< ReadyForQuery I
> Query DELETE FROM s WHERE m > n AND 'b' = k
words 1 0 0
* look 1 1
* begin 1 rc
* read 1 p.0.x62 1 2 1 true
* read 1 f.0.x62.1 1 1 0 2
* read 1 f.0.x62.2 1 1 0 3
* write 1 p.0.x62 false
* commit 1
< CommandComplete DELETE 1
< ReadyForQuery I
> Query DELETE FROM s WHERE k = 'a' AND m > n
words 1 0 0
* look 1 1
* begin 1 rc
* read 1 p.0.x61 1 2 1 true
* read 1 f.0.x61.1 1 1 0 1
* read 1 f.0.x61.2 1 1 0 1
* commit 1
< CommandComplete DELETE 0
< ReadyForQuery I
> Query DELETE FROM s WHERE k = 'a' OR m > n
words 1 0 0 1
* look 1 1
* begin 1 rc
* scan 1 0 x61 x62
* read 1 p.0.x61 1 2 1 true
* read 1 f.0.x61.1 1 1 0 1
* read 1 f.0.x61.2 1 1 0 1
* read 1 p.0.x62 2 2 1 false
* write 1 p.0.x61 false
* commit 1
< CommandComplete DELETE 1
< ReadyForQuery I
> Query SELECT k FROM s ORDER BY k
words 2 2
* look 1 1
* begin 1 rc
* scan 1 0 x61 x62
* read 1 p.0.x61 4 3 2 false
* read 1 p.0.x62 2 3 2 false
* commit 1
< RowDescription k text
< CommandComplete SELECT 0
< ReadyForQuery I
> Terminate
* close 1
= session 1: Terminated
";

/// Sessions that delete rows.
pub fn delete_sessions() -> &'static str {
    DELETES
}
