// Orders, and reads that don't take the last value.
use crate::asked::are_told;
use std::test::Fail;

// The second session reads the presence of a row from the initial state, after the first has committed it.
const STALE: &str = "\
monkey-log 2 rc
open 1
define 1 x74
open 2
begin 1 rc
write 1 p.0.1 true
write 1 f.0.1.1 10
commit 1
begin 2 rc
read 2 p.0.1 0 2 0 false
commit 2
order 0 1 2
end
";

// Either order meets it, at each level. In the log of a history of a lower level nothing is said of what Causal Consistency asks of a stale read.
const OF_STALE: &str = r"
begin 2 rc | begin 2 ra => right
begin 2 rc | begin 2 cc => judged
order 0 1 2 | order 0 2 1 => right
order 0 1 2 | order 0 1 => unclear
commit 1 | rollback 1 => unclear
commit 2 | rollback 2 => right
commit 2 | look 2 1 => right
";

// The second session reads the field from 1, and reads it from 1 again after 3 has overwritten it, which stands last.
const AGAIN: &str = "\
monkey-log 2 cc
open 1
define 1 x74
open 2
begin 1 cc
write 1 f.0.1.1 1
commit 1
begin 2 cc
read 2 f.0.1.1 1 2 1 1
commit 2
begin 1 cc
write 1 f.0.1.1 2
commit 1
begin 2 cc
read 2 f.0.1.1 1 3 1 1
commit 2
order 0 1 2 4 3
end
";

// The last two from 3, which stands after the reader, and from the initial state, where the reader's session has read from 1. Where the order has a
// session in turn, what is wrong with it alone leaves the events right.
const OF_AGAIN: &str = r"
order 0 1 2 4 3 | order 0 1 2 3 4 => right
order 0 1 2 4 3 | order 0 1 3 2 4 => right
order 0 1 2 4 3 | order 0 1 4 2 3 => unclear
order 0 1 2 4 3 | order 0 3 1 2 4 => unclear
order 0 1 2 4 3 | order 0 2 1 4 3 => judged
read 2 f.0.1.1 1 3 1 1 | read 2 f.0.1.1 3 3 1 2 => judged
read 2 f.0.1.1 1 3 1 1 | read 2 f.0.1.1 0 3 1 unset => judged
";

#[test]
fn stale_reads(rt: HostRuntime) -> Result<(), Fail> {
    are_told(rt.alloc(), STALE, "right", OF_STALE)?;
    are_told(rt.alloc(), AGAIN, "right", OF_AGAIN)
}

// Two transactions of one session overwrite a field, one of another session too, and a third of the first reads it.
const OVERWRITTEN: &str = "\
monkey-log 2 ra
open 1
open 2
define 1 x74
begin 1 ra
write 1 f.0.1.1 1
commit 1
begin 2 ra
write 2 f.0.1.1 2
commit 2
begin 1 ra
write 1 f.0.1.1 3
commit 1
begin 1 ra
read 1 f.0.1.1 3 4 0 3
commit 1
order 0 1 2 3 4
end
";

// Where 2 stands after 3, the reader doesn't see it: it is of another session. Of the last two the order is wrong.
const OF_OVERWRITTEN: &str = r"
order 0 1 2 3 4 | order 0 2 1 3 4 => right
order 0 1 2 3 4 | order 0 1 3 4 2 => right
order 0 1 2 3 4 | order 0 1 3 2 4 => right
read 1 f.0.1.1 3 4 0 3 | read 1 f.0.1.1 1 4 0 1 => judged
read 1 f.0.1.1 3 4 0 3 | read 1 f.0.1.1 2 4 0 2 => judged
";

#[test]
fn overwritten_values(rt: HostRuntime) -> Result<(), Fail> {
    are_told(rt.alloc(), OVERWRITTEN, "right", OF_OVERWRITTEN)
}

// Transaction 2 reads one row from the initial state, and then another from 1, which made both: right at Read Committed alone.
const FRACTURED: &str = "\
monkey-log 2 rc
open 1
define 1 x74
open 2
begin 1 rc
write 1 p.0.1 true
write 1 p.0.2 true
commit 1
begin 2 rc
read 2 p.0.2 0 2 0 false
read 2 p.0.1 1 2 1 true
commit 2
order 0 1 2
end
";

// At the higher levels 1 should stand before the initial transaction. The last but one reads both rows from there.
const OF_FRACTURED: &str = r"
begin 2 rc | begin 2 ra => judged
begin 2 rc | begin 2 cc => judged
read 2 p.0.1 1 2 1 true | read 2 p.0.1 0 2 1 false => right
order 0 1 2 | order 0 2 1 => judged
";

// Transaction 3 reads from 2, which reads from 1, and then a row from the initial state that 1 made: right up to Read Atomic.
const CHAIN: &str = "\
monkey-log 2 ra
open 1
open 2
open 3
define 1 x74
begin 1 ra
write 1 p.0.1 true
commit 1
begin 2 ra
read 2 p.0.1 1 2 1 true
write 2 p.0.2 true
commit 2
begin 3 ra
read 3 p.0.2 2 2 1 true
read 3 p.0.1 0 2 0 false
commit 3
order 0 1 2 3
end
";

// At Causal Consistency 1 should stand before the initial transaction.
const OF_CHAIN: &str = r"
begin 3 ra | begin 3 rc => right
begin 3 ra | begin 3 cc => judged
read 3 p.0.1 0 2 0 false | read 3 p.0.1 1 2 0 true => right
order 0 1 2 3 | order 0 1 3 2 => judged
";

// Transaction 2 reads one row from 1, and then another from the initial state, where 1 had made both: wrong at each level.
const TURNED: &str = "\
monkey-log 2 rc
open 1
define 1 x74
open 2
begin 1 rc
write 1 p.0.1 true
write 1 p.0.2 true
commit 1
begin 2 rc
read 2 p.0.1 1 2 1 true
read 2 p.0.2 0 2 0 false
commit 2
order 0 1 2
end
";

// Without the first read nothing is wrong, nor where both are from the initial state or from 1.
const OF_TURNED: &str = r"
begin 2 rc | begin 2 ra => judged
commit 2 | rollback 2 => judged
commit 2 | look 2 1 => judged
read 2 p.0.1 1 2 1 true | look 2 1 => right
read 2 p.0.1 1 2 1 true | read 2 p.0.1 0 2 1 false => right
read 2 p.0.2 0 2 0 false | read 2 p.0.2 1 2 0 true => right
";

#[test]
fn reads_at_each_level(rt: HostRuntime) -> Result<(), Fail> {
    are_told(rt.alloc(), FRACTURED, "right", OF_FRACTURED)?;
    are_told(rt.alloc(), CHAIN, "right", OF_CHAIN)?;
    are_told(rt.alloc(), TURNED, "judged", OF_TURNED)
}

// Transaction 2 reads from 1, and 3 from 2; then 3 reads another row from the initial state, of which 1 has made it. No transaction of 1's session
// has been read from by 3's.
const PAST: &str = "\
monkey-log 2 cc
open 1
open 2
open 3
define 1 x74
begin 1 cc
write 1 p.0.1 true
write 1 p.0.3 true
commit 1
begin 2 cc
read 2 p.0.1 1 2 1 true
write 2 p.0.2 true
commit 2
begin 3 cc
read 3 p.0.2 2 2 1 true
read 3 p.0.3 0 2 0 false
commit 3
order 0 1 2 3
end
";

// At the lower levels 3 sees of 1 nothing. So it is at Causal Consistency where 2 reads from the initial state, and where 3 doesn't read from 2.
const OF_PAST: &str = r"
begin 3 cc | begin 3 rc => right
begin 3 cc | begin 3 ra => right
read 2 p.0.1 1 2 1 true | read 2 p.0.1 0 2 1 false => right
read 3 p.0.2 2 2 1 true | read 3 p.0.2 0 2 1 false => right
read 3 p.0.3 0 2 0 false | read 3 p.0.3 1 2 0 true => right
commit 3 | rollback 3 => judged
commit 3 | look 3 1 => judged
";

#[test]
fn causal_pasts(rt: HostRuntime) -> Result<(), Fail> {
    are_told(rt.alloc(), PAST, "judged", OF_PAST)
}

// Transaction 1 begins first and writes after 2, which found nothing, has committed; then 3 reads from 1.
const BESIDE: &str = "\
monkey-log 2 cc
open 1
define 1 x74
open 2
begin 1 cc
begin 2 cc
read 2 f.0.1.1 0 1 0 unset
commit 2
write 1 f.0.1.1 1
commit 1
begin 2 cc
read 2 f.0.1.1 1 2 1 1
commit 2
order 0 1 2 3
end
";

// Where 3 finds nothing either, 1 isn't in its past, though its number is below that of 2, which is. In the row before, the order has 3 before its
// source.
const OF_BESIDE: &str = r"
order 0 1 2 3 | order 0 2 1 3 => right
commit 2 | rollback 2 => right
order 0 1 2 3 | order 0 2 3 1 => judged
read 2 f.0.1.1 1 2 1 1 | read 2 f.0.1.1 0 2 1 unset => right
";

// Each transaction reads what the last one wrote, and writes the next value.
const COUNTED: &str = "\
monkey-log 2 ra
open 1
define 1 x74
open 2
begin 1 ra
read 1 f.0.1.1 0 1 0 unset
write 1 f.0.1.1 1
commit 1
begin 2 ra
read 2 f.0.1.1 1 2 0 1
write 2 f.0.1.1 2
commit 2
begin 1 ra
read 1 f.0.1.1 2 3 0 2
write 1 f.0.1.1 3
commit 1
order 0 1 2 3
end
";

const OF_COUNTED: &str = r"
order 0 1 2 3 | order 0 2 1 3 => judged
order 0 1 2 3 | order 0 1 3 2 => judged
";

#[test]
fn reads_that_are_forgotten(rt: HostRuntime) -> Result<(), Fail> {
    are_told(rt.alloc(), BESIDE, "right", OF_BESIDE)?;
    are_told(rt.alloc(), COUNTED, "right", OF_COUNTED)
}
