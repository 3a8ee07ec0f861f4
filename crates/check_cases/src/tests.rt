// Logs, and what a check prints of them.
use crate::hosts::{Fails, ends_with, prints};
use std::test::Fail;

/// Two sessions: the first makes a row, and the second reads its presence from the initial transaction, which is stale.
const STALE: &str = "\
monkey-log 2 rc
open 1
define 1 x74
open 2
begin 1 rc
write 1 p.0.1 true
write 1 f.0.1.1 10
commit 1
begin 2 rc
read 2 p.0.1 0 2 0 false
commit 2
order 0 1 2
end
";

/// The same, but that the second session's transaction runs at a higher level than the head says. One pass doesn't show that its order is right, so the
/// text is read as a history.
const HIGHER: &str = "\
monkey-log 2 rc
open 1
define 1 x74
open 2
begin 1 rc
write 1 p.0.1 true
write 1 f.0.1.1 10
commit 1
begin 2 cc
read 2 p.0.1 0 2 0 false
commit 2
order 0 1 2
end
";

/// The second session reads one row of two from the initial transaction, and then the other one from the first session. That the order is right is
/// clear from what each read sees alone.
const PARTLY_STALE: &str = "\
monkey-log 2 rc
open 1
define 1 x74
open 2
begin 1 rc
write 1 p.0.1 true
write 1 p.0.2 true
commit 1
begin 2 rc
read 2 p.0.2 0 2 0 false
read 2 p.0.1 1 2 1 true
commit 2
order 0 1 2
end
";

#[test]
fn says_that_a_log_is_right(rt: HostRuntime) -> Result<(), Fail> {
    let alloc = rt.alloc();
    assert!(rt; prints(&rt, alloc, b"monkey-log 2 cc\norder 0\nend\n", 0, b"ok\n")?);
    assert!(rt; prints(&rt, alloc, STALE.as_bytes(), 0, b"ok\n")?);
    assert!(rt; prints(&rt, alloc, HIGHER.as_bytes(), 0, b"ok\n")?);
    assert!(rt; prints(&rt, alloc, PARTLY_STALE.as_bytes(), 0, b"ok\n")?);
    Ok(())
}

/// Each log is no log, or has one line that breaks a rule.
const WRONG: &[(&str, &str)] = &[
    ("", "log fault: cut\n"),
    ("monkey-log 4 rc\norder 0\nend\n", "log fault: version\n"),
    (
        "monkey-log 2 rc\nopen 1\nopen x\norder 0\nend\n",
        "log fault: line 3\n",
    ),
    ("monkey-log 2 rc\nopen 1\norder 0\n", "log fault: cut\n"),
    (
        "monkey-log 2 rc\nopen 2\norder 0\nend\n",
        "breach event 1 shape\n",
    ),
    (
        "monkey-log 2 rc\nopen 1\nlook 1 1\norder 0\nend\n",
        "breach event 2 number 0\n",
    ),
    (
        "monkey-log 2 rc\nopen 1\norder 0 1\nend\n",
        "breach order\n",
    ),
    (
        "monkey-log 2 rc\nopen 1\ndefine 1 x74\nbegin 1 rc\nscan 1 0 7\norder 0 1\nend\n",
        "breach event 4 keys\n",
    ),
    (
        "monkey-log 2 rc\nopen 1\ndefine 1 x74\nbegin 1 rc\nown 1 p.0.1 true\norder 0 1\nend\n",
        "breach event 4 own\n",
    ),
    (
        "monkey-log 2 rc\nopen 1\ndefine 1 x74\nbegin 1 rc\nread 1 p.0.1 1 1 0 true\norder 0 1\nend\n",
        "breach event 4 source\n",
    ),
    (
        "monkey-log 2 rc\nopen 1\ndefine 1 x74\nbegin 1 rc\nread 1 p.0.1 0 1 0 true\norder 0 1\nend\n",
        "breach event 4 value\n",
    ),
    (
        "monkey-log 2 rc\nopen 1\ndefine 1 x74\nbegin 1 rc\nread 1 p.0.1 0 2 0 false\norder 0 1\nend\n",
        "breach event 4 count 1\n",
    ),
    (
        "monkey-log 2 rc\nopen 1\nbegin 1 rc\ncommit 1\nbegin 1 rc\ncommit 1\norder 0 2 1\nend\n",
        "breach session 1 2\n",
    ),
];

#[test]
fn says_what_is_wrong(rt: HostRuntime) -> Result<(), Fail> {
    for (log, line) in WRONG {
        assert!(rt; prints(&rt, rt.alloc(), log.as_bytes(), 1, line.as_bytes())?);
    }
    Ok(())
}

/// The second session reads the row of the first, and the order has them the other way round.
const EARLY: &str = "\
monkey-log 2 ra
open 1
define 1 x74
open 2
begin 1 ra
write 1 p.0.1 true
commit 1
begin 2 ra
read 2 p.0.1 1 2 1 true
commit 2
order 0 2 1
end
";

/// One transaction of Read Atomic reads a row from the one that made it, and another of its writes from the initial transaction.
const FRACTURED: &str = "\
monkey-log 2 ra
open 1
define 1 x74
open 2
begin 1 ra
write 1 p.0.1 true
write 1 p.0.2 true
commit 1
begin 2 ra
read 2 p.0.1 1 2 1 true
read 2 p.0.2 0 2 0 false
commit 2
order 0 1 2
end
";

#[test]
fn judges_the_order(rt: HostRuntime) -> Result<(), Fail> {
    let alloc = rt.alloc();
    assert!(rt;
        prints(
            &rt,
            alloc,
            EARLY.as_bytes(),
            1,
            b"breach event 8 read 1 2\n"
        )?
    );
    assert!(rt;
        prints(
            &rt,
            alloc,
            FRACTURED.as_bytes(),
            1,
            b"breach event 10 axiom 0 1 2 p.0.2\n"
        )?
    );
    Ok(())
}

/// A path, what fails of its check, and the status.
const FAILED: &[(&[u8], Fails, u8)] = &[
    (b"log", Fails::Opening, 6),
    (b"logs", Fails::Nothing, 6),
    (b"log", Fails::Reading, 3),
    (b"log", Fails::Printing, 4),
];

#[test]
fn tells_what_fails(rt: HostRuntime) -> Result<(), Fail> {
    for (path, fails, code) in FAILED {
        assert!(rt; ends_with(&rt, rt.alloc(), path, *fails, *code)?);
    }
    Ok(())
}
