// Logs of so many events that several threads judge their order. What each read sees isn't clear from its place alone, from the first one on.
use crate::hosts::prints;
use std::alloc::{AllocError, Global};
use std::test::Fail;

/// The third session reads the first row from the initial transaction, and has a transaction after the one that made the row.
const HEAD: &str = "\
monkey-log 2 cc
open 1
open 2
open 3
define 1 x74
begin 1 cc
write 1 p.0.0 true
commit 1
begin 3 cc
commit 3
begin 3 cc
read 3 p.0.0 0 2 0 false
commit 3
";

/// A transaction of the second session that reads the row, and one that reads it from the initial transaction.
const FRESH: &str = "begin 2 cc\nread 2 p.0.0 1 2 1 true\ncommit 2\n";

const STALE: &str = "begin 2 cc\nread 2 p.0.0 0 2 0 false\ncommit 2\n";

/// Transaction 805 of the second session scans the table, and then reads a second row, which transaction 806 of the first session makes meanwhile.
const SCANS: &str =
    "begin 2 cc\nscan 2 0 0\nbegin 1 cc\nwrite 1 p.0.7 true\ncommit 1\nread 2 p.0.7 806 2 1 true\ncommit 2\n";

// Adds the text so many times.
fn push_times(log: &mut String, text: &str, times: u32) -> Result<(), AllocError> {
    for _time in 0..times {
        log.push_str(text)?;
    }
    Ok(())
}

// Adds so many numbers, from this one on.
fn push_numbers(alloc: Global, log: &mut String, from: u32, many: u32) -> Result<(), AllocError> {
    for at in 0..many {
        let number = from.saturating_add(at);
        log.push_str(format!(in alloc; " {number}")?.as_str())?;
    }
    Ok(())
}

// Adds 400 transactions that read the row after each of these two.
fn push_parts(log: &mut String, first: &str, second: &str) -> Result<(), AllocError> {
    log.push_str(HEAD)?;
    push_times(log, FRESH, 400)?;
    log.push_str(first)?;
    push_times(log, FRESH, 400)?;
    log.push_str(second)?;
    push_times(log, FRESH, 400)?;
    log.push_str("order")
}

// A log of 1,205 transactions, in which these two stand after the 403rd and after the 804th. They are ordered by their numbers.
fn log_with(alloc: Global, first: &str, second: &str) -> Result<String, AllocError> {
    let mut log = String::new(alloc);
    push_parts(&mut log, first, second)?;
    push_numbers(alloc, &mut log, 0, 1206)?;
    log.push_str("\nend\n")?;
    Ok(log)
}

// A log with a scan after the 804th transaction. The order has the writer before the one that scans, since that one reads from it.
fn log_with_scan(alloc: Global) -> Result<String, AllocError> {
    let mut log = String::new(alloc);
    push_parts(&mut log, FRESH, SCANS)?;
    push_numbers(alloc, &mut log, 0, 805)?;
    log.push_str(" 806 805")?;
    push_numbers(alloc, &mut log, 807, 400)?;
    log.push_str("\nend\n")?;
    Ok(log)
}

/// Two transactions of a log, and what a check prints of it with which status.
const LOGS: &[(&str, &str, u8, &str)] = &[
    (FRESH, FRESH, 0, "ok\n"),
    (STALE, FRESH, 1, "breach event 1214 axiom 0 1 404 p.0.0\n"),
    (FRESH, STALE, 1, "breach event 2417 axiom 0 1 805 p.0.0\n"),
    (STALE, STALE, 1, "breach event 1214 axiom 0 1 404 p.0.0\n"),
];

#[test]
fn the_first_breach_is_told(rt: HostRuntime) -> Result<(), Fail> {
    for (first, second, code, line) in LOGS {
        let log = log_with(rt.alloc(), first, second)?;
        assert!(rt; prints(&rt, rt.alloc(), log.as_bytes(), *code, line.as_bytes())?);
    }
    Ok(())
}

#[test]
fn a_scan_is_judged(rt: HostRuntime) -> Result<(), Fail> {
    let log = log_with_scan(rt.alloc())?;
    assert!(rt;
        prints(
            &rt,
            rt.alloc(),
            log.as_bytes(),
            1,
            b"breach event 2417 axiom 0 806 805 p.0.7\n"
        )?
    );
    Ok(())
}
