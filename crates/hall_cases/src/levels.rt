// Interleavings of transactions of several levels.

const LEVELS: &str = r"
# transactions of three levels read one cell
# The third session chooses its levels. Each of the three reads has found the reply of the second session before, the row (2, 20), whose
# cause is the row (1, 10). At Causal Consistency alone the cause can't be missed then; at Read Committed the first session misses a row of
# its own.
level rc
1 > StartupMessage user=a
1 + started
1 + table t
1 + row (1, 10) with the word 0
2 + block that finds the row (1, 10) and commits the row (2, 20)
3 > StartupMessage user=a
3 + started
3 > Query SET monkey.level TO 'cc'
3 < CommandComplete SET
3 < ReadyForQuery I
3 > Query BEGIN
* begin 3 cc
3 < CommandComplete BEGIN
3 < ReadyForQuery T
1 + block
3 > Query SELECT v FROM t WHERE k = 2
3 words 1 0
* look 3 1
1 > Query SELECT v FROM t WHERE k = 2
1 words 1 0
* look 1 1
* read 3 p.0.2 2 2 1 true
* read 1 p.0.2 2 2 1 true
* read 1 f.0.2.1 2 1 0 20
* read 3 f.0.2.1 2 1 0 20
3 < RowDescription v bigint
3 < DataRow 20
3 < CommandComplete SELECT 1
3 < ReadyForQuery T
1 < RowDescription v bigint
1 < DataRow 20
1 < CommandComplete SELECT 1
1 < ReadyForQuery T
3 > Query SELECT v FROM t WHERE k = 1
3 words 0 0
* look 3 1
1 > Query SELECT v FROM t WHERE k = 1
1 words 0
* look 1 1
* read 3 p.0.1 1 1 0 true
* read 1 p.0.1 0 2 0 false
* read 3 f.0.1.1 1 1 0 10
3 < RowDescription v bigint
3 < DataRow 10
3 < CommandComplete SELECT 1
3 < ReadyForQuery T
1 < RowDescription v bigint
1 < CommandComplete SELECT 0
1 < ReadyForQuery T
3 + commit
1 + commit
3 > Query SET monkey.level TO 'ra'
3 < CommandComplete SET
3 < ReadyForQuery I
3 > Query BEGIN
* begin 3 ra
3 < CommandComplete BEGIN
3 < ReadyForQuery T
3 > Query SELECT v FROM t WHERE k = 2
3 words 1 0
* look 3 1
* read 3 p.0.2 2 2 1 true
* read 3 f.0.2.1 2 1 0 20
3 < RowDescription v bigint
3 < DataRow 20
3 < CommandComplete SELECT 1
3 < ReadyForQuery T
3 > Query SELECT v FROM t WHERE k = 1
3 words 0
* look 3 1
* read 3 p.0.1 0 2 0 false
3 < RowDescription v bigint
3 < CommandComplete SELECT 0
3 < ReadyForQuery T
3 + commit
1 + end
2 + end
3 + end
";

/// Interleavings of transactions of several levels.
pub fn levels() -> &'static str {
    LEVELS
}
