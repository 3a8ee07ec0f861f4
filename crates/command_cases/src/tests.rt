// Words are told with a bar between two of them.
use crate::telling::{are, are_unknown, complains_of_none, first_unsaid, is_none};
use std::test::Fail;

const PIPES: &[(&str, &str)] = &[
    ("pipe|rc|7", "pipe rc 7"),
    ("pipe|ra|007,8,0", "pipe ra 7 8 0"),
    ("pipe|cc|4294967295", "pipe cc 4294967295"),
    ("pipe|--|rc|1,2", "pipe rc 1 2"),
];

#[test]
fn reads_pipe(rt: HostRuntime) -> Result<(), Fail> {
    assert!(rt; are(rt.alloc(), PIPES)?);
    Ok(())
}

const NO_PIPES: &[&str] = &[
    "pipe",
    "pipe|rc",
    "pipe|rc|1|2",
    "pipe|RC|1",
    "pipe|rc|",
    "pipe|rc|1,",
    "pipe|rc|1,,2",
    "pipe|rc|+1",
    "pipe|rc|-1",
    "pipe|rc|4294967296",
    "pipe|rc|1|--log|a",
];

#[test]
fn refuses_other_words_of_pipe(rt: HostRuntime) -> Result<(), Fail> {
    assert!(rt; are_unknown(rt.alloc(), NO_PIPES)?);
    Ok(())
}

const CHECKS: &[(&str, &str)] = &[
    ("check|a.log", "check a.log"),
    ("check|", "check "),
    ("check|-", "check -"),
    ("check|--|-x", "check -x"),
    ("check|a b=c", "check a b=c"),
    ("check|--wide|a", "wide a"),
    ("check|a|--wide", "wide a"),
    ("check|--wide|--|--wide", "wide --wide"),
];

#[test]
fn reads_check(rt: HostRuntime) -> Result<(), Fail> {
    assert!(rt; are(rt.alloc(), CHECKS)?);
    Ok(())
}

const NO_CHECKS: &[&str] = &[
    "check",
    "check|--",
    "check|-x",
    "check|a|b",
    "check|--wide",
    "check|--wide|--wide|a",
    "check|--wide=true|a",
    "check|--help|a",
    "check|a|--help",
];

#[test]
fn refuses_other_words_of_check(rt: HostRuntime) -> Result<(), Fail> {
    assert!(rt; are_unknown(rt.alloc(), NO_CHECKS)?);
    Ok(())
}

const JUDGES: &[(&str, &str)] = &[
    ("judge|a.log", "judge a.log"),
    ("judge|", "judge "),
    ("judge|-", "judge -"),
    ("judge|--|-x", "judge -x"),
];

#[test]
fn reads_judge(rt: HostRuntime) -> Result<(), Fail> {
    assert!(rt; are(rt.alloc(), JUDGES)?);
    Ok(())
}

const NO_JUDGES: &[&str] = &[
    "judge",
    "judge|--",
    "judge|-x",
    "judge|a|b",
    "judge|--wide|a",
];

#[test]
fn refuses_other_words_of_judge(rt: HostRuntime) -> Result<(), Fail> {
    assert!(rt; are_unknown(rt.alloc(), NO_JUDGES)?);
    Ok(())
}

const QUESTIONS: &[(&str, &str)] = &[
    ("--help", "help about the program"),
    ("help", "help about the program"),
    ("pipe|--help", "help about pipe"),
    ("serve|--help", "help about serve"),
    ("check|--help", "help about check"),
    ("judge|--help", "help about judge"),
    ("sim|--help", "help about sim"),
    ("stop|--help", "help about stop"),
    ("--version", "version"),
];

#[test]
fn reads_questions(rt: HostRuntime) -> Result<(), Fail> {
    assert!(rt; are(rt.alloc(), QUESTIONS)?);
    Ok(())
}

const NO_QUESTIONS: &[&str] = &[
    "-h",
    "version",
    "help|serve",
    "--help|serve",
    "help|--help",
    "--version|--help",
    "serve|--help|--help",
    "serve|--quiet|--help",
    "serve|--version",
];

#[test]
fn refuses_other_questions(rt: HostRuntime) -> Result<(), Fail> {
    assert!(rt; are_unknown(rt.alloc(), NO_QUESTIONS)?);
    Ok(())
}

const SIMS: &[(&str, &str)] = &[
    ("sim|cc|7|8|100", "sim cc 7 8 100"),
    ("sim|rc|007|64|200", "sim rc 7 64 200"),
    (
        "sim|ra|18446744073709551615|1|1",
        "sim ra 18446744073709551615 1 1",
    ),
    ("sim|rc|0|1|2|--log|a", "sim rc 0 1 2 log a"),
    ("sim|--log=a|rc|0|1|2", "sim rc 0 1 2 log a"),
];

#[test]
fn reads_sim(rt: HostRuntime) -> Result<(), Fail> {
    assert!(rt; are(rt.alloc(), SIMS)?);
    Ok(())
}

const NO_SIMS: &[&str] = &[
    "sim|xx|7|1|1",
    "sim|cc|7|65|1",
    "sim|cc|7|0|1",
    "sim|cc|7|1|201",
    "sim|cc|7|1|0",
    "sim|cc|18446744073709551616|1|1",
    "sim|cc||1|1",
    "sim|cc|-7|1|1",
    "sim|cc|7|1",
    "sim|cc|7|1|1|1",
    "sim|cc|7|1|1|--log",
    "sim|cc|7|1|1|--log|a|--log|a",
];

#[test]
fn refuses_other_words_of_sim(rt: HostRuntime) -> Result<(), Fail> {
    assert!(rt; are_unknown(rt.alloc(), NO_SIMS)?);
    Ok(())
}

const SERVES: &[(&str, &str)] = &[
    ("serve", "serve rc 0 127.0.0.1:5433 16 64"),
    ("serve|--", "serve rc 0 127.0.0.1:5433 16 64"),
    ("serve|--quiet", "serve rc 0 127.0.0.1:5433 16 64 quiet"),
    (
        "serve|--level|cc|--seed=7|--listen|0.0.0.0:1|--workers|064|--accept=4096|--log|a|--quiet",
        "serve cc 7 0.0.0.0:1 64 4096 log a quiet",
    ),
    (
        "serve|--quiet|--level=ra",
        "serve ra 0 127.0.0.1:5433 16 64 quiet",
    ),
    (
        "serve|--seed|18446744073709551615",
        "serve rc 18446744073709551615 127.0.0.1:5433 16 64",
    ),
    (
        "serve|--workers=1|--accept=1|--listen=|--log=",
        "serve rc 0  1 1 log ",
    ),
    (
        "serve|--setup|a.sql",
        "serve rc 0 127.0.0.1:5433 16 64 setup a.sql",
    ),
    (
        "serve|--setup=|--quiet|--log|-",
        "serve rc 0 127.0.0.1:5433 16 64 log - setup  quiet",
    ),
];

#[test]
fn reads_serve(rt: HostRuntime) -> Result<(), Fail> {
    assert!(rt; are(rt.alloc(), SERVES)?);
    Ok(())
}

const NO_OPTIONS: &[&str] = &[
    "serve|--seed|7|--seed|8",
    "serve|--seed",
    "serve|--seed|--level",
    "serve|--see|7",
    "serve|x",
    "serve|--|x",
    "serve|",
    "serve|-h",
    "serve|help",
    "serve|--version",
    "serve|--quiet=true",
    "serve|--quiet|--quiet",
    "serve|--quiet|true",
    "serve|--setup",
    "serve|--setup|a|--setup|a",
    "serve|a.sql",
];

#[test]
fn refuses_other_options_of_serve(rt: HostRuntime) -> Result<(), Fail> {
    assert!(rt; are_unknown(rt.alloc(), NO_OPTIONS)?);
    Ok(())
}

const NO_VALUES: &[&str] = &[
    "serve|--seed|-5",
    "serve|--seed=-5",
    "serve|--seed=+5",
    "serve|--seed=",
    "serve|--seed|",
    "serve|--seed|18446744073709551616",
    "serve|--workers|0",
    "serve|--workers|65",
    "serve|--accept|0",
    "serve|--accept|4097",
    "serve|--accept|4294967360",
    "serve|--level|si",
    "serve|--level=",
];

#[test]
fn refuses_other_values_of_serve(rt: HostRuntime) -> Result<(), Fail> {
    assert!(rt; are_unknown(rt.alloc(), NO_VALUES)?);
    Ok(())
}

const STOPS: &[(&str, &str)] = &[
    ("stop", "stop 127.0.0.1:5433"),
    ("stop|--", "stop 127.0.0.1:5433"),
    ("stop|0.0.0.0:1", "stop 0.0.0.0:1"),
    ("stop|[::1]:5433", "stop [::1]:5433"),
    ("stop|", "stop "),
    ("stop|--|-x", "stop -x"),
];

#[test]
fn reads_stop(rt: HostRuntime) -> Result<(), Fail> {
    assert!(rt; are(rt.alloc(), STOPS)?);
    Ok(())
}

const NO_STOPS: &[&str] = &["stop|a|b", "stop|-x", "stop|--address|a"];

#[test]
fn refuses_other_words_of_stop(rt: HostRuntime) -> Result<(), Fail> {
    assert!(rt; are_unknown(rt.alloc(), NO_STOPS)?);
    Ok(())
}

const NO_NAMES: &[&str] = &["", "Help", "Serve", "--|serve", "checks|a", "sto", "stops"];

#[test]
fn refuses_other_names(rt: HostRuntime) -> Result<(), Fail> {
    assert!(rt; are_unknown(rt.alloc(), NO_NAMES)?);
    Ok(())
}

#[test]
fn refuses_no_words(rt: HostRuntime) -> Result<(), Fail> {
    assert!(rt; is_none(rt.alloc())?);
    Ok(())
}

// What is said of words that are no command.
const COMPLAINTS: &[(&str, &str)] = &[
    (
        "serve|--level|rr",
        "serve: --level rr: one of rc, ra, cc; try monkeydb serve --help",
    ),
    (
        "serve|--level=",
        "serve: --level : one of rc, ra, cc; try monkeydb serve --help",
    ),
    (
        "serve|--quiet|--workers=65",
        "serve: --workers 65: a number from 1 to 64; try monkeydb serve --help",
    ),
    (
        "serve|--accept|0|--seed|x",
        "serve: --accept 0: a number from 1 to 4096; try monkeydb serve --help",
    ),
    (
        "serve|--seed|-5",
        "serve: --seed -5: a number from 0 to 18446744073709551615; try monkeydb serve --help",
    ),
    (
        "serve|--seed",
        "serve: --seed: its value is missing; try monkeydb serve --help",
    ),
    (
        "serve|--log|--quiet",
        "serve: --log: its value is missing; try monkeydb serve --help",
    ),
    (
        "serve|--log|-x",
        "serve: --log -x: a value that begins with a dash is written --log=-x; try monkeydb serve --help",
    ),
    (
        "serve|--see|7",
        "serve: --see: no such option; try monkeydb serve --help",
    ),
    (
        "serve|-h",
        "serve: -h: no such option; try monkeydb serve --help",
    ),
    (
        "serve|--quiet=true",
        "serve: --quiet: it takes no value; try monkeydb serve --help",
    ),
    (
        "serve|--seed|7|--seed|8",
        "serve: --seed: it stands twice; try monkeydb serve --help",
    ),
    (
        "serve|a.sql",
        "serve: a.sql: one word too many; try monkeydb serve --help",
    ),
    (
        "serve|--quiet|--help",
        "serve: --help: no such option; try monkeydb serve --help",
    ),
    (
        "pipe|si|1",
        "pipe: LEVEL si: one of rc, ra, cc; try monkeydb pipe --help",
    ),
    (
        "pipe|rc|1,,2",
        "pipe: WORDS 1,,2: numbers from 0 to 4294967295, with commas between them; try monkeydb pipe --help",
    ),
    (
        "pipe|rc",
        "pipe: WORDS is missing; try monkeydb pipe --help",
    ),
    (
        "sim|cc|7|65|1",
        "sim: SESSIONS 65: a number from 1 to 64; try monkeydb sim --help",
    ),
    (
        "sim|cc|7|1|1|--log",
        "sim: --log: its value is missing; try monkeydb sim --help",
    ),
    (
        "sim|cc|7",
        "sim: SESSIONS is missing; try monkeydb sim --help",
    ),
    ("check", "check: PATH is missing; try monkeydb check --help"),
    (
        "check|--|-x|b",
        "check: b: one word too many; try monkeydb check --help",
    ),
    (
        "judge|--wide|a",
        "judge: --wide: no such option; try monkeydb judge --help",
    ),
    (
        "stop|a|b",
        "stop: b: one word too many; try monkeydb stop --help",
    ),
    (
        "stop|a\nb|c\td",
        "stop: c?d: one word too many; try monkeydb stop --help",
    ),
    (
        "Serve",
        "monkeydb: Serve: no command, which is one of pipe, serve, check, judge, sim, stop; try monkeydb --help",
    ),
    (
        "",
        "monkeydb: : no command, which is one of pipe, serve, check, judge, sim, stop; try monkeydb --help",
    ),
];

#[test]
fn says_what_is_wrong(rt: HostRuntime) -> Result<(), Fail> {
    assert_eq!(rt; first_unsaid(rt.alloc(), COMPLAINTS)?, "");
    Ok(())
}

#[test]
fn says_that_the_command_is_missing(rt: HostRuntime) -> Result<(), Fail> {
    let said =
        "monkeydb: the command is missing: one of pipe, serve, check, judge, sim, stop; try monkeydb --help";
    assert!(rt; complains_of_none(rt.alloc(), said)?);
    Ok(())
}
