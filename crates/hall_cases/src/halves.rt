// Interleavings in which a transaction finds half of another one, or would.

const HALVES: &str = r"
# a transaction that was missed once is missed again, at Read Atomic
level ra
1 > StartupMessage user=a
1 + started
1 + table t
1 + block
1 > Query SELECT v FROM t WHERE k = 1
* look 1 1
* read 1 p.0.1 0 1 0 false
1 < RowDescription v bigint
1 < CommandComplete SELECT 0
1 < ReadyForQuery T
2 > StartupMessage user=a
2 + started
2 > Query INSERT INTO t VALUES (1, 10), (2, 20)
* look 2 1
* begin 2 ra
* read 2 p.0.1 0 1 0 false
* read 2 p.0.2 0 1 0 false
* write 2 p.0.1 true
* write 2 f.0.1.1 10
* write 2 p.0.2 true
* write 2 f.0.2.1 20
* commit 2
2 < CommandComplete INSERT 0 2
2 < ReadyForQuery I
2 + end
1 > Query SELECT v FROM t WHERE k = 2
* look 1 1
* read 1 p.0.2 0 1 0 false
1 < RowDescription v bigint
1 < CommandComplete SELECT 0
1 < ReadyForQuery T
1 + end inside a block

# half of a transaction is read, at Read Committed
level rc
1 > StartupMessage user=a
1 + started
1 + table t
1 + block
1 > Query SELECT v FROM t WHERE k = 1
1 words 0
* look 1 1
* read 1 p.0.1 0 1 0 false
1 < RowDescription v bigint
1 < CommandComplete SELECT 0
1 < ReadyForQuery T
2 > StartupMessage user=a
2 + started
2 > Query INSERT INTO t VALUES (1, 10), (2, 20)
* look 2 1
* begin 2 rc
* read 2 p.0.1 0 1 0 false
* read 2 p.0.2 0 1 0 false
* write 2 p.0.1 true
* write 2 f.0.1.1 10
* write 2 p.0.2 true
* write 2 f.0.2.1 20
* commit 2
2 < CommandComplete INSERT 0 2
2 < ReadyForQuery I
2 + end
1 > Query SELECT v FROM t WHERE k = 2
1 words 1 0
* look 1 1
* read 1 p.0.2 2 2 1 true
* read 1 f.0.2.1 2 1 0 20
1 < RowDescription v bigint
1 < DataRow 20
1 < CommandComplete SELECT 1
1 < ReadyForQuery T
1 + end inside a block

# a scan that lists no key counts as a read of each, at Read Atomic
level ra
1 > StartupMessage user=a
1 + started
1 + table t
1 > Query CREATE TABLE u (k bigint PRIMARY KEY, v bigint)
* define 1 x75
1 < CommandComplete CREATE TABLE
1 < ReadyForQuery I
1 + block
1 > Query SELECT * FROM t
* look 1 2
* scan 1 0
1 < RowDescription k bigint, v bigint
1 < CommandComplete SELECT 0
1 < ReadyForQuery T
2 > StartupMessage user=a
2 + started
2 + block
2 > Query INSERT INTO t VALUES (1, 10)
* look 2 2
* read 2 p.0.1 0 1 0 false
* write 2 p.0.1 true
* write 2 f.0.1.1 10
2 < CommandComplete INSERT 0 1
2 < ReadyForQuery T
2 > Query INSERT INTO u VALUES (1, 11)
* look 2 2
* read 2 p.1.1 0 1 0 false
* write 2 p.1.1 true
* write 2 f.1.1.1 11
2 < CommandComplete INSERT 0 1
2 < ReadyForQuery T
2 + commit
1 > Query SELECT * FROM u WHERE k = 1
* look 1 2
* read 1 p.1.1 0 1 0 false
1 < RowDescription k bigint, v bigint
1 < CommandComplete SELECT 0
1 < ReadyForQuery T
1 + end inside a block
2 + end

# at Read Committed what came after the scan may be read
level rc
1 > StartupMessage user=a
1 + started
1 + table t
1 > Query CREATE TABLE u (k bigint PRIMARY KEY, v bigint)
* define 1 x75
1 < CommandComplete CREATE TABLE
1 < ReadyForQuery I
1 + block
1 > Query SELECT * FROM t
* look 1 2
* scan 1 0
1 < RowDescription k bigint, v bigint
1 < CommandComplete SELECT 0
1 < ReadyForQuery T
2 > StartupMessage user=a
2 + started
2 + block
2 > Query INSERT INTO t VALUES (1, 10)
* look 2 2
* read 2 p.0.1 0 1 0 false
* write 2 p.0.1 true
* write 2 f.0.1.1 10
2 < CommandComplete INSERT 0 1
2 < ReadyForQuery T
2 > Query INSERT INTO u VALUES (1, 11)
* look 2 2
* read 2 p.1.1 0 1 0 false
* write 2 p.1.1 true
* write 2 f.1.1.1 11
2 < CommandComplete INSERT 0 1
2 < ReadyForQuery T
2 + commit
1 > Query SELECT * FROM u WHERE k = 1
* look 1 2
* read 1 p.1.1 0 2 0 false
1 < RowDescription k bigint, v bigint
1 < CommandComplete SELECT 0
1 < ReadyForQuery T
1 + end inside a block
2 + end
";

/// Interleavings in which a transaction finds half of another one, or would.
pub fn halves() -> &'static str {
    HALVES
}
