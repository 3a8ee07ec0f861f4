// Interleavings in which a read's causes count, or don't.

const CAUSES: &str = r"
# a cause may be missed, at Read Atomic
level ra
1 > StartupMessage user=a
1 + started
1 + table t
1 + row (1, 10) with the word 0
2 + block that finds the row (1, 10) and commits the row (2, 20)
3 > StartupMessage user=a
3 + started
3 + block
3 > Query SELECT v FROM t WHERE k = 2
3 words 1 0
* look 3 1
* read 3 p.0.2 2 2 1 true
* read 3 f.0.2.1 2 1 0 20
3 < RowDescription v bigint
3 < DataRow 20
3 < CommandComplete SELECT 1
3 < ReadyForQuery T
3 > Query SELECT v FROM t WHERE k = 1
3 words 0
* look 3 1
* read 3 p.0.1 0 2 0 false
3 < RowDescription v bigint
3 < CommandComplete SELECT 0
3 < ReadyForQuery T
1 + end
2 + end
3 + end inside a block

# a cause is seen, at Causal Consistency
level cc
1 > StartupMessage user=a
1 + started
1 + table t
1 + row (1, 10) with the word 0
2 + block that finds the row (1, 10) and commits the row (2, 20)
3 > StartupMessage user=a
3 + started
3 + block
3 > Query SELECT v FROM t WHERE k = 2
3 words 1 0
* look 3 1
* read 3 p.0.2 2 2 1 true
* read 3 f.0.2.1 2 1 0 20
3 < RowDescription v bigint
3 < DataRow 20
3 < CommandComplete SELECT 1
3 < ReadyForQuery T
3 > Query SELECT v FROM t WHERE k = 1
3 words 0 0
* look 3 1
* read 3 p.0.1 1 1 0 true
* read 3 f.0.1.1 1 1 0 10
3 < RowDescription v bigint
3 < DataRow 10
3 < CommandComplete SELECT 1
3 < ReadyForQuery T
1 + end
2 + end
3 + end inside a block

# what a transaction read that was rolled back counts for its session, at Causal Consistency
level cc
1 > StartupMessage user=a
1 + started
1 + table t
1 + row (1, 10) with the word 0
2 > StartupMessage user=a
2 + started
2 + block
2 > Query SELECT v FROM t WHERE k = 1
2 words 1 0
* look 2 1
* read 2 p.0.1 1 2 1 true
* read 2 f.0.1.1 1 1 0 10
2 < RowDescription v bigint
2 < DataRow 10
2 < CommandComplete SELECT 1
2 < ReadyForQuery T
2 > Query ROLLBACK
* rollback 2
2 < CommandComplete ROLLBACK
2 < ReadyForQuery I
2 > Query SELECT v FROM t WHERE k = 1
2 words 0 0
* look 2 1
* begin 2 cc
* read 2 p.0.1 1 1 0 true
* read 2 f.0.1.1 1 1 0 10
* commit 2
2 < RowDescription v bigint
2 < DataRow 10
2 < CommandComplete SELECT 1
2 < ReadyForQuery I
1 + end
2 + end

# at Read Atomic it doesn't count
level ra
1 > StartupMessage user=a
1 + started
1 + table t
1 + row (1, 10) with the word 0
2 > StartupMessage user=a
2 + started
2 + block
2 > Query SELECT v FROM t WHERE k = 1
2 words 1 0
* look 2 1
* read 2 p.0.1 1 2 1 true
* read 2 f.0.1.1 1 1 0 10
2 < RowDescription v bigint
2 < DataRow 10
2 < CommandComplete SELECT 1
2 < ReadyForQuery T
2 > Query ROLLBACK
* rollback 2
2 < CommandComplete ROLLBACK
2 < ReadyForQuery I
2 > Query SELECT v FROM t WHERE k = 1
2 words 0
* look 2 1
* begin 2 ra
* read 2 p.0.1 0 2 0 false
* commit 2
2 < RowDescription v bigint
2 < CommandComplete SELECT 0
2 < ReadyForQuery I
1 + end
2 + end
";

/// Interleavings in which a read's causes count, or don't.
pub fn causes() -> &'static str {
    CAUSES
}
