// Texts that are no logs, and logs of each version.
use crate::asked::{are_told, is_told};
use std::test::Fail;

const NO_LOGS: &[&str] = &[
    "",
    "\n",
    "end\n",
    "order 0\nend\n",
    "monkey-log 2 rc",
    "monkey-log 2 rc\n",
    "monkey-log 2 rc\nend\n",
    "monkey-log 2 rc\norder 0\n",
    "monkey-log 2 rc\norder 0\nend",
    "monkey-log 2 rc\norder 0\nend\n\n",
    "monkey-log 2 rc\norder 0\nend\nend\n",
    "monkey-log 2 rc\norder 0\norder 0\nend\n",
    "monkey-log 2 rc\n\norder 0\nend\n",
    "monkey-log 2 rc\nopen 1\nopen x\norder 0\nend\n",
    "monkey-log 2 rc\nopen 01\norder 0\nend\n",
    "monkey-log 2 rc\nopen 1 \norder 0\nend\n",
    "monkey-log 2 rc\nopen 1\norder 00\nend\n",
    "monkey-log 2 rc\nopen 1\r\norder 0\nend\n",
    "monkey-log 2 sr\norder 0\nend\n",
    "monkey-log 4 rc\norder 0\nend\n",
    "monkey-log 3 rc\norder 0\nend\n",
];

#[test]
fn no_logs(rt: HostRuntime) -> Result<(), Fail> {
    for text in NO_LOGS {
        is_told(rt.alloc(), text, "unclear")?;
    }
    Ok(())
}

const NO_EVENT: &str = "\
monkey-log 2 rc
order 0
end
";

const OF_NO_EVENT: &str = r"
monkey-log 2 rc | monkey-log 2 ra => right
monkey-log 2 rc | monkey-log 2 cc => right
monkey-log 2 rc | monkey-log 1 cc => right
order 0 | order => unclear
order 0 | order 1 => unclear
order 0 | order 0 1 => judged
order 0 | open 1 => unclear
";

#[test]
fn a_log_without_events(rt: HostRuntime) -> Result<(), Fail> {
    are_told(rt.alloc(), NO_EVENT, "right", OF_NO_EVENT)
}

// In version 1 each transaction has the level of the head.
const FIRST_VERSION: &str = "\
monkey-log 1 rc
open 1
define 1 x74
begin 1
write 1 p.0.1 true
write 1 f.0.1.1 x
commit 1
begin 1
read 1 f.0.1.1 1 2 0 x
commit 1
order 0 1 2
end
";

const OF_FIRST_VERSION: &str = r"
monkey-log 1 rc | monkey-log 1 ra => right
monkey-log 1 rc | monkey-log 1 cc => right
monkey-log 1 rc | monkey-log 2 rc => unclear
begin 1 | begin 1 rc => unclear
";

#[test]
fn a_log_of_version_1(rt: HostRuntime) -> Result<(), Fail> {
    are_told(rt.alloc(), FIRST_VERSION, "right", OF_FIRST_VERSION)
}

// A right log with rows that are there from the start: nothing is said of it.
const INITIAL: &str = "\
monkey-log 3 ra
initial p.0.x61 true
initial f.0.x61.1 5
open 1
define 1 x74
begin 1 ra
read 1 f.0.x61.1 0 1 0 5
commit 1
order 0 1
end
";

// Keys and values of each kind, in version 2.
const WORDS: &str = "\
monkey-log 2 cc
open 1
define 1 x
begin 1 cc
write 1 p.0.-5 true
write 1 f.0.-5.1 null
write 1 f.0.-5.2 false
write 1 f.0.-5.3 -9223372036854775808
write 1 f.0.-5.4 2147483647
write 1 f.0.-5.5 2147483648
write 1 f.0.-5.6 4294967296
write 1 p.0.x61 true
write 1 f.0.x61.1 xc3a9
own 1 f.0.x61.1 xc3a9
commit 1
begin 1 cc
read 1 f.0.-5.1 1 2 4294967295 null
read 1 f.0.-5.2 1 2 0 false
read 1 f.0.-5.3 1 2 0 -9223372036854775808
read 1 f.0.-5.4 1 2 0 2147483647
read 1 f.0.-5.5 1 2 0 2147483648
read 1 f.0.-5.6 1 2 0 4294967296
read 1 f.0.x61.1 1 2 0 xc3a9
write 1 p.0.x61 false
rollback 1
order 0 1 2
end
";

const OF_WORDS: &str = r"
read 1 f.0.-5.1 1 2 4294967295 null | read 1 f.0.-5.1 1 2 4294967295 unset => unclear
read 1 f.0.-5.1 1 2 4294967295 null | read 1 f.0.-5.1 1 2 4294967296 null => unclear
read 1 f.0.-5.2 1 2 0 false | read 1 f.0.-5.2 1 2 0 null => unclear
read 1 f.0.-5.3 1 2 0 -9223372036854775808 | read 1 f.0.-5.3 1 2 0 -9223372036854775809 => unclear
read 1 f.0.-5.4 1 2 0 2147483647 | read 1 f.0.-5.4 1 2 0 2147483648 => unclear
read 1 f.0.-5.5 1 2 0 2147483648 | read 1 f.0.-5.5 1 2 0 unset => unclear
read 1 f.0.-5.5 1 2 0 2147483648 | read 1 f.0.-5.5 1 2 0 0 => unclear
read 1 f.0.-5.6 1 2 0 4294967296 | read 1 f.0.-5.6 1 2 0 4294967297 => unclear
read 1 f.0.x61.1 1 2 0 xc3a9 | read 1 f.0.x61.1 1 2 0 xC3A9 => unclear
read 1 f.0.x61.1 1 2 0 xc3a9 | read 1 f.0.x61.1 1 2 0 x65 => unclear
";

#[test]
fn words(rt: HostRuntime) -> Result<(), Fail> {
    is_told(rt.alloc(), INITIAL, "unclear")?;
    are_told(rt.alloc(), WORDS, "right", OF_WORDS)
}
