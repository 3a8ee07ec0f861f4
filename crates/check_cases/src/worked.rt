// The worked history of one session: its log, logs in which one line is another, and beginnings of it.
use crate::hosts::prints;
use std::test::Fail;

/// The log but for its last three lines.
const HEAD: &str = "\
monkey-log 2 rc
open 1
define 1 x74
look 1 1
begin 1 rc
read 1 p.0.1 0 1 0 false
write 1 p.0.1 true
write 1 f.0.1.1 10
commit 1
look 1 1
begin 1 rc
read 1 p.0.1 1 2 1 true
";

/// What follows in a log, and what a check prints of it with which status.
const TAILS: &[(&str, u8, &str)] = &[
    (
        "read 1 f.0.1.1 1 1 7 10\ncommit 1\nclose 1\norder 0 1 2\nend\n",
        0,
        "ok\n",
    ),
    (
        "read 1 f.0.1.1 0 1 7 unset\ncommit 1\nclose 1\norder 0 1 2\nend\n",
        1,
        "breach event 12 axiom 0 1 2 f.0.1.1\n",
    ),
    (
        "read 1 f.0.1.1 1 1 7 11\ncommit 1\nclose 1\norder 0 1 2\nend\n",
        1,
        "breach event 12 value\n",
    ),
    (
        "read 1 f.0.1.1 1 1 7 10\ncommit 1\nclose 1\norder 0 1 2\n",
        1,
        "log fault: cut\n",
    ),
];

#[test]
fn the_worked_history(rt: HostRuntime) -> Result<(), Fail> {
    for (tail, code, line) in TAILS {
        let log = format!(in rt.alloc(); "{HEAD}{tail}")?;
        assert!(rt; prints(&rt, rt.alloc(), log.as_bytes(), *code, line.as_bytes())?);
    }
    assert!(rt; prints(&rt, rt.alloc(), b"", 1, b"log fault: cut\n")?);
    Ok(())
}
