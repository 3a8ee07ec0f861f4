// The commands `sim`, `check` and `judge`, help, and words that are no command.
use crate::hosts::{Done, run, run_wordless, with_file};
use cell_base::Memory;
use std::alloc::Global;
use std::sync::Wait;
use std::test::Fail;
use std::thread::Threads;

// What is printed where the words are no command.
const USAGE: &str =
    "usage: monkeydb pipe LEVEL WORDS | serve [OPTIONS] | check [--wide] PATH | sim LEVEL SEED SESSIONS QUERIES | stop [ADDRESS] | judge PATH\n";

// Runs a command of a host that has one file, of the path `log`.
fn beside_log<R: Threads + Wait + Eprint + Sync>(
    rt: &R,
    alloc: Global,
    line: &str,
) -> Result<Done, Memory> {
    run(
        rt,
        alloc,
        line,
        &with_file("log", "monkey-log 2 cc\norder 0\nend\n"),
    )
}

/// Whether a command ended with this status, printed this line, and took no link.
pub fn is_told(done: &Done, code: u8, line: &[u8]) -> bool {
    done.code == code && done.printed.as_slice() == line && done.sent.is_none()
}

// Whether a command ends with this status, prints this line, and takes no link.
fn prints<R: Threads + Wait + Eprint + Sync>(
    rt: &R,
    alloc: Global,
    line: &str,
    code: u8,
    wanted: &[u8],
) -> Result<bool, Memory> {
    let done = beside_log(rt, alloc, line)?;
    Ok(is_told(&done, code, wanted))
}

// Simulations, with a slash between each two words, and what their lines begin with.
const SIMULATIONS: [(&str, &str); 3] = [
    ("sim/cc/7/4/20", "sim cc 7 sessions 5 transactions "),
    ("sim/cc/7/8/100", "sim cc 7 sessions 9 transactions "),
    ("sim/rc/007/01/1", "sim rc 7 sessions 2 transactions "),
];

// Whether a simulation prints a line with this beginning, and the same line again.
fn repeats<R: Threads + Wait + Eprint + Sync>(
    rt: &R,
    alloc: Global,
    line: &str,
    beginning: &str,
) -> Result<bool, Memory> {
    let done = beside_log(rt, alloc, line)?;
    if done.printed.as_slice().starts_with(beginning.as_bytes()) {
        prints(rt, alloc, line, 0, done.printed.as_slice())
    } else {
        Ok(false)
    }
}

#[test]
fn simulates_again(rt: HostRuntime) -> Result<(), Fail> {
    let alloc = rt.alloc();
    for (line, beginning) in SIMULATIONS {
        assert!(rt; repeats(&rt, alloc, line, beginning)?);
    }
    Ok(())
}

#[test]
fn checks_a_log(rt: HostRuntime) -> Result<(), Fail> {
    let alloc = rt.alloc();
    let lines = [
        ("check/log", 0, "ok\n"),
        ("check/--wide/log", 0, "ok\n"),
        ("check/log/--wide", 0, "ok\n"),
        ("check/logs", 6, ""),
        ("check/--wide/logs", 6, ""),
        ("judge/log", 0, "judge cc\norder 0\n"),
        ("judge/logs", 6, ""),
    ];
    for (line, code, printed) in lines {
        assert!(rt; prints(&rt, alloc, line, code, printed.as_bytes())?);
    }
    Ok(())
}

// What is asked about the program, and what the answer begins with.
const QUESTIONS: [(&str, &str); 9] = [
    ("--help", "monkeydb: a mock SQL server"),
    ("help", "monkeydb: a mock SQL server"),
    ("pipe/--help", "monkeydb pipe LEVEL WORDS: "),
    ("serve/--help", "monkeydb serve [OPTIONS]: "),
    ("check/--help", "monkeydb check [--wide] PATH: "),
    ("judge/--help", "monkeydb judge PATH: "),
    ("sim/--help", "monkeydb sim LEVEL SEED SESSIONS QUERIES: "),
    ("stop/--help", "monkeydb stop [ADDRESS]: "),
    ("--version", "monkeydb 0.1.0, logs of version 3\n"),
];

// Whether a question is answered by a text with this beginning, with status 0.
fn answers_so<R: Threads + Wait + Eprint + Sync>(
    rt: &R,
    alloc: Global,
    line: &str,
    beginning: &str,
) -> Result<bool, Memory> {
    let done = beside_log(rt, alloc, line)?;
    Ok(done.code == 0 && done.printed.as_slice().starts_with(beginning.as_bytes()))
}

#[test]
fn answers_questions(rt: HostRuntime) -> Result<(), Fail> {
    let alloc = rt.alloc();
    for (line, beginning) in QUESTIONS {
        assert!(rt; answers_so(&rt, alloc, line, beginning)?);
    }
    Ok(())
}

// Lines that are no command, with a slash between each two words: levels, and lists of words, that `pipe` doesn't have; options and values that
// `serve` doesn't have; numbers of `sim` out of their ranges, signs, a level that isn't there, and too many words; and others.
const NO_COMMANDS: &[&str] = &[
    "pipe//1",
    "pipe/RC/1",
    "pipe/si/1",
    "pipe/rcc/1",
    "pipe/default/1",
    "pipe/cc/1,",
    "pipe/rc/",
    "pipe/rc/1,",
    "pipe/rc/,1",
    "pipe/rc/1,,2",
    "pipe/rc/1, 2",
    "pipe/rc/+1",
    "pipe/rc/-1",
    "pipe/rc/1a",
    "pipe/rc/4294967296",
    "serve/--workers/0",
    "serve/--workers/65",
    "serve/--accept/0",
    "serve/--accept/4097",
    "serve/--level/si",
    "serve/--seed/-1",
    "serve/--seed/18446744073709551616",
    "serve/--host/here",
    "sim/cc/7/65/1",
    "sim/cc/7/0/1",
    "sim/cc/7/1/0",
    "sim/cc/7/1/201",
    "sim/cc/18446744073709551616/1/1",
    "sim/cc/-7/1/1",
    "sim/xx/7/1/1",
    "sim/cc/7/1",
    "sim/cc/7/1/1/1",
    "check",
    "check/log/log",
    "check/--wide",
    "check/--wide=true/log",
    "judge",
    "judge/log/log",
    "judge/--wide/log",
    "help/serve",
    "serve/--help/--quiet",
    "--version/--help",
    "",
    "pipe/rc",
    "serve/--workers",
    "Serve",
];

#[test]
fn refuses_what_is_no_command(rt: HostRuntime) -> Result<(), Fail> {
    let alloc = rt.alloc();
    for line in NO_COMMANDS {
        assert!(rt; prints(&rt, alloc, line, 2, USAGE.as_bytes())?);
    }
    Ok(())
}

#[test]
fn refuses_no_words(rt: HostRuntime) -> Result<(), Fail> {
    let done = run_wordless(&rt, rt.alloc())?;
    assert!(rt; is_told(&done, 2, USAGE.as_bytes()));
    Ok(())
}
