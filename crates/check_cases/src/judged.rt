// Logs, and what a judge prints of them. The lines are found by hand.
use crate::hosts::judges;
use std::test::Fail;

/// A session makes a row and reads it back in its next transaction.
const READ_BACK: &str = "\
monkey-log 1 rc
open 1
define 1 x74
look 1 1
begin 1
read 1 p.0.1 0 1 0 false
write 1 p.0.1 true
write 1 f.0.1.1 10
commit 1
look 1 1
begin 1
read 1 p.0.1 1 2 1 true
read 1 f.0.1.1 1 1 7 10
commit 1
close 1
order 0 1 2
end
";

/// The same session misses its own row.
const MISSED: &str = "\
monkey-log 1 rc
open 1
define 1 x74
look 1 1
begin 1
read 1 p.0.1 0 1 0 false
write 1 p.0.1 true
write 1 f.0.1.1 10
commit 1
look 1 1
begin 1
read 1 p.0.1 0 2 0 false
commit 1
close 1
order 0 1 2
end
";

/// One transaction reads a field from its later writer, and then from the earlier one of the same session.
const BACKWARDS: &str = "\
monkey-log 1 rc
open 1
define 1 x74
begin 1
write 1 p.0.1 true
write 1 f.0.1.1 10
commit 1
begin 1
write 1 f.0.1.1 20
commit 1
begin 1
read 1 f.0.1.1 2 3 0 20
read 1 f.0.1.1 1 3 0 10
commit 1
order 0 1 2 3
end
";

/// The third session sees the row of the second, which saw that of the first, but not that of the first.
const CAUSE_MISSED: &str = "\
monkey-log 2 rc
open 1
define 1 x74
open 2
open 3
begin 1 rc
write 1 p.0.1 true
commit 1
begin 2 rc
read 2 p.0.1 1 2 1 true
write 2 p.0.2 true
commit 2
begin 3 rc
read 3 p.0.2 2 2 1 true
read 3 p.0.1 0 2 0 false
commit 3
order 0 1 2 3
end
";

/// A session writes over a row that it read, and then reads the row again from where it read it first. The log names the highest level, and its order
/// is none.
const OVERWRITTEN: &str = "\
monkey-log 2 cc
open 1
define 1 x74
open 2
begin 1 cc
begin 2 cc
write 2 p.0.1 true
commit 2
read 1 p.0.1 2 2 1 true
write 1 p.0.1 true
commit 1
begin 1 cc
read 1 p.0.1 2 3 1 true
commit 1
order 7
end
";

/// Each log, the status, and the lines.
const JUDGED: &[(&str, u8, &str)] = &[
    ("monkey-log 2 rc\norder 0\nend\n", 0, "judge cc\norder 0\n"),
    (READ_BACK, 0, "judge cc\norder 0 1 2\n"),
    (
        MISSED,
        0,
        "judge rc\norder 0 1 2\ncycle ra\n0 1 so\n1 0 axiom 11 p.0.1\n",
    ),
    (
        BACKWARDS,
        1,
        "judge none\ncycle rc\n1 2 so\n2 1 axiom 12 f.0.1.1\n",
    ),
    (
        CAUSE_MISSED,
        0,
        "judge ra\norder 0 1 2 3\ncycle cc\n0 1 so\n1 0 axiom 14 p.0.1\n",
    ),
    (
        OVERWRITTEN,
        0,
        "judge rc\norder 0 2 1 3\ncycle ra\n1 2 axiom 12 p.0.1\n2 1 read 8\n",
    ),
];

#[test]
fn tells_the_strongest_level(rt: HostRuntime) -> Result<(), Fail> {
    for (log, code, lines) in JUDGED {
        assert!(rt; judges(&rt, rt.alloc(), log.as_bytes(), *code, lines.as_bytes())?);
    }
    Ok(())
}

/// Each log is none, or has one event that breaks a rule.
const WRONG: &[(&str, &str)] = &[
    ("", "log fault: cut\n"),
    (
        "monkey-log 2 rc\nopen 1\nopen x\norder 0\nend\n",
        "log fault: line 3\n",
    ),
    (
        "monkey-log 2 rc\nopen 2\norder 0\nend\n",
        "breach event 1 shape\n",
    ),
];

#[test]
fn says_what_is_wrong(rt: HostRuntime) -> Result<(), Fail> {
    for (log, line) in WRONG {
        assert!(rt; judges(&rt, rt.alloc(), log.as_bytes(), 1, line.as_bytes())?);
    }
    Ok(())
}
