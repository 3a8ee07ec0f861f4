// Interleavings in which values are raised, changed and read again.

const UPDATES: &str = r"
# an update is lost
# Two sessions raise the value that both read, and a third may find each of the three.
level cc
1 > StartupMessage user=a
1 + started
1 + table t
1 + row (1, 10) with the word 0
1 + block
2 > StartupMessage user=a
2 + started
2 + block
1 > Query UPDATE t SET v = v + 1 WHERE k = 1
1 words 0 0
* look 1 1
* read 1 p.0.1 1 1 0 true
* read 1 f.0.1.1 1 1 0 10
* write 1 f.0.1.1 11
1 < CommandComplete UPDATE 1
1 < ReadyForQuery T
2 > Query UPDATE t SET v = v + 1 WHERE k = 1
2 words 1 0
* look 2 1
* read 2 p.0.1 1 2 1 true
* read 2 f.0.1.1 1 1 0 10
* write 2 f.0.1.1 11
2 < CommandComplete UPDATE 1
2 < ReadyForQuery T
1 + commit
2 + commit
3 > StartupMessage user=a
3 + started
3 > Query SELECT v FROM t WHERE k = 1
3 words 1 0
* look 3 1
* begin 3 cc
* read 3 p.0.1 1 2 1 true
* read 3 f.0.1.1 1 3 0 10
* commit 3
3 < RowDescription v bigint
3 < DataRow 10
3 < CommandComplete SELECT 1
3 < ReadyForQuery I
1 + end
2 + end
3 + end

# a transaction never goes back after what it has read
level rc
1 > StartupMessage user=a
1 + started
1 + table t
1 + row (1, 10) with the word 0
1 > Query UPDATE t SET v = 20 WHERE k = 1
1 words 1
* look 1 1
* begin 1 rc
* read 1 p.0.1 1 2 1 true
* write 1 f.0.1.1 20
* commit 1
1 < CommandComplete UPDATE 1
1 < ReadyForQuery I
2 > StartupMessage user=a
2 + started
2 + block
2 > Query SELECT v FROM t WHERE k = 1
2 words 1 1
* look 2 1
* read 2 p.0.1 1 2 1 true
* read 2 f.0.1.1 2 2 1 20
2 < RowDescription v bigint
2 < DataRow 20
2 < CommandComplete SELECT 1
2 < ReadyForQuery T
2 > Query SELECT v FROM t WHERE k = 1
2 words 0 0
* look 2 1
* read 2 p.0.1 1 1 0 true
* read 2 f.0.1.1 2 1 0 20
2 < RowDescription v bigint
2 < DataRow 20
2 < CommandComplete SELECT 1
2 < ReadyForQuery T
1 + end
2 + end inside a block

# the older value first, and the newer one after it
level rc
1 > StartupMessage user=a
1 + started
1 + table t
1 + row (1, 10) with the word 0
1 > Query UPDATE t SET v = 20 WHERE k = 1
1 words 1
* look 1 1
* begin 1 rc
* read 1 p.0.1 1 2 1 true
* write 1 f.0.1.1 20
* commit 1
1 < CommandComplete UPDATE 1
1 < ReadyForQuery I
2 > StartupMessage user=a
2 + started
2 + block
2 > Query SELECT v FROM t WHERE k = 1
2 words 1 0
* look 2 1
* read 2 p.0.1 1 2 1 true
* read 2 f.0.1.1 1 2 0 10
2 < RowDescription v bigint
2 < DataRow 10
2 < CommandComplete SELECT 1
2 < ReadyForQuery T
2 > Query SELECT v FROM t WHERE k = 1
2 words 0 1
* look 2 1
* read 2 p.0.1 1 1 0 true
* read 2 f.0.1.1 2 2 1 20
2 < RowDescription v bigint
2 < DataRow 20
2 < CommandComplete SELECT 1
2 < ReadyForQuery T
1 + end
2 + end inside a block

# two writers are ordered by their first reader, for all
level rc
1 > StartupMessage user=a
1 + started
1 + table t
1 + row (1, 10) with the word 0
2 > StartupMessage user=a
2 + started
2 > Query UPDATE t SET v = 20 WHERE k = 1
2 words 1
* look 2 1
* begin 2 rc
* read 2 p.0.1 1 2 1 true
* write 2 f.0.1.1 20
* commit 2
2 < CommandComplete UPDATE 1
2 < ReadyForQuery I
3 > StartupMessage user=a
3 + started
3 > Query UPDATE t SET v = 30 WHERE k = 1
3 words 1
* look 3 1
* begin 3 rc
* read 3 p.0.1 1 2 1 true
* write 3 f.0.1.1 30
* commit 3
3 < CommandComplete UPDATE 1
3 < ReadyForQuery I
4 > StartupMessage user=a
4 + started
4 + block
4 > Query SELECT v FROM t WHERE k = 1
4 words 1 1
* look 4 1
* read 4 p.0.1 1 2 1 true
* read 4 f.0.1.1 2 3 1 20
4 < RowDescription v bigint
4 < DataRow 20
4 < CommandComplete SELECT 1
4 < ReadyForQuery T
4 > Query SELECT v FROM t WHERE k = 1
4 words 0 1
* look 4 1
* read 4 p.0.1 1 1 0 true
* read 4 f.0.1.1 3 2 1 30
4 < RowDescription v bigint
4 < DataRow 30
4 < CommandComplete SELECT 1
4 < ReadyForQuery T
5 > StartupMessage user=a
5 + started
5 + block
5 > Query SELECT v FROM t WHERE k = 1
5 words 1 2
* look 5 1
* read 5 p.0.1 1 2 1 true
* read 5 f.0.1.1 3 3 2 30
5 < RowDescription v bigint
5 < DataRow 30
5 < CommandComplete SELECT 1
5 < ReadyForQuery T
5 > Query SELECT v FROM t WHERE k = 1
5 words 0 0
* look 5 1
* read 5 p.0.1 1 1 0 true
* read 5 f.0.1.1 3 1 0 30
5 < RowDescription v bigint
5 < DataRow 30
5 < CommandComplete SELECT 1
5 < ReadyForQuery T
1 + end
2 + end
3 + end
4 + end inside a block
5 + end inside a block

# two doctors leave their call: write skew, at Causal Consistency
# Each counts two on call and takes itself off, and nobody is left.
level cc
1 > StartupMessage user=a
1 + started
1 + table t
1 > Query INSERT INTO t VALUES (1, 1), (2, 1)
* look 1 1
* begin 1 cc
* read 1 p.0.1 0 1 0 false
* read 1 p.0.2 0 1 0 false
* write 1 p.0.1 true
* write 1 f.0.1.1 1
* write 1 p.0.2 true
* write 1 f.0.2.1 1
* commit 1
1 < CommandComplete INSERT 0 2
1 < ReadyForQuery I
1 + end
2 > StartupMessage user=a
2 + started
2 + block
3 > StartupMessage user=a
3 + started
3 + block
2 > Query SELECT sum(v) FROM t
2 words 1 0 0 0
* look 2 1
* scan 2 0 1 2
* read 2 p.0.1 1 2 1 true
* read 2 f.0.1.1 1 1 0 1
* read 2 p.0.2 1 1 0 true
* read 2 f.0.2.1 1 1 0 1
2 < RowDescription sum numeric
2 < DataRow 2
2 < CommandComplete SELECT 1
2 < ReadyForQuery T
3 > Query SELECT sum(v) FROM t
3 words 1 0 0 0
* look 3 1
* scan 3 0 1 2
* read 3 p.0.1 1 2 1 true
* read 3 f.0.1.1 1 1 0 1
* read 3 p.0.2 1 1 0 true
* read 3 f.0.2.1 1 1 0 1
3 < RowDescription sum numeric
3 < DataRow 2
3 < CommandComplete SELECT 1
3 < ReadyForQuery T
2 > Query UPDATE t SET v = 0 WHERE k = 1
2 words 0
* look 2 1
* read 2 p.0.1 1 1 0 true
* write 2 f.0.1.1 0
2 < CommandComplete UPDATE 1
2 < ReadyForQuery T
2 + commit
3 > Query UPDATE t SET v = 0 WHERE k = 2
3 words 0
* look 3 1
* read 3 p.0.2 1 1 0 true
* write 3 f.0.2.1 0
3 < CommandComplete UPDATE 1
3 < ReadyForQuery T
3 + commit
2 + end
3 + end
";

/// Interleavings in which values are raised, changed and read again.
pub fn updates() -> &'static str {
    UPDATES
}
