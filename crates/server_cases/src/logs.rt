// Logs that are written whole: those of servers as written by hand, and those of simulations, and what a check says of them. The words of the
// reads are those of the seed's first stream, as a second program has them.
use crate::commands::is_told;
use crate::entries::{Entry, Replies, Visit};
use crate::hosts::{Done, run, with_file};
use crate::servers::{ONE_WORKER, Server, first_wrong};
use cell_base::Memory;
use std::alloc::Global;
use std::str;
use std::sync::Wait;
use std::test::Fail;
use std::thread::Threads;

// A client that makes a table, writes a row and reads it. The second word of the seed is odd: it picks the row of two that are offered.
const WRITER: &str = r"
> StartupMessage user=a
+ started
> Query CREATE TABLE t (k bigint PRIMARY KEY, v bigint)
< CommandComplete CREATE TABLE
< ReadyForQuery I
> Query INSERT INTO t VALUES (1, 10)
< CommandComplete INSERT 0 1
< ReadyForQuery I
> Query SELECT v FROM t WHERE k = 1
< RowDescription v bigint
< DataRow 10
< CommandComplete SELECT 1
< ReadyForQuery I
> Terminate
";

const WRITTEN: &str = "\
monkey-log 2 rc
open 1
define 1 x74
look 1 1
begin 1 rc
read 1 p.0.1 0 1 3118702321 false
write 1 p.0.1 true
write 1 f.0.1.1 10
commit 1
look 1 1
begin 1 rc
read 1 p.0.1 1 2 1150829157 true
read 1 f.0.1.1 1 1 816813796 10
commit 1
close 1
order 0 1 2
end
";

// Its first 64 bytes.
const CUT: &str = "\
monkey-log 2 rc
open 1
define 1 x74
look 1 1
begin 1 rc
read 1 p";

// A client that reads back what it wrote in a block, asks how many events there are, and rolls the block back.
const REGRETTER: &str = r"
> StartupMessage user=a
+ started
> Query CREATE TABLE t (k bigint PRIMARY KEY, v bigint)
< CommandComplete CREATE TABLE
< ReadyForQuery I
> Query BEGIN
< CommandComplete BEGIN
< ReadyForQuery T
> Query INSERT INTO t VALUES (1, 10)
< CommandComplete INSERT 0 1
< ReadyForQuery T
> Query SELECT v FROM t WHERE k = 1
< RowDescription v bigint
< DataRow 10
< CommandComplete SELECT 1
< ReadyForQuery T
> Query SHOW monkey.history
< RowDescription monkey.history text
< DataRow 11
< CommandComplete SHOW
< ReadyForQuery T
> Query ROLLBACK
< CommandComplete ROLLBACK
< ReadyForQuery I
> Terminate
";

const REGRETTED: &str = "\
monkey-log 2 cc
open 1
define 1 x74
begin 1 cc
look 1 1
read 1 p.0.1 0 1 3118702321 false
write 1 p.0.1 true
write 1 f.0.1.1 10
look 1 1
own 1 p.0.1 true
own 1 f.0.1.1 10
show 1 11
rollback 1
close 1
order 0 1
end
";

// Three clients, one after another. The second doesn't find the row of the first, by an even word, and writes it once more. The third finds the
// second's row of key 1, by an odd word, and then the first's row of key 2, by an even one: so transaction 2 stands before transaction 1.
const FIRST: &str = r"
> StartupMessage user=a
+ started
> Query CREATE TABLE t (k bigint PRIMARY KEY, v bigint)
< CommandComplete CREATE TABLE
< ReadyForQuery I
> Query INSERT INTO t VALUES (2, 10)
< CommandComplete INSERT 0 1
< ReadyForQuery I
> Terminate
";

const SECOND: &str = r"
> StartupMessage user=a
+ started as session 2
> Query INSERT INTO t VALUES (1, 20), (2, 11)
< CommandComplete INSERT 0 2
< ReadyForQuery I
> Terminate
";

const THIRD: &str = r"
> StartupMessage user=a
+ started as session 3
> Query SELECT v FROM t
< RowDescription v bigint
< DataRow 20
< DataRow 10
< CommandComplete SELECT 2
< ReadyForQuery I
> Terminate
";

const TURNED: &str = "\
monkey-log 2 rc
open 1
define 1 x74
look 1 1
begin 1 rc
read 1 p.0.2 0 1 405872490 false
write 1 p.0.2 true
write 1 f.0.2.1 10
commit 1
close 1
open 2
look 2 1
begin 2 rc
read 2 p.0.1 0 1 964468464 false
read 2 p.0.2 0 2 4115208514 false
write 2 p.0.1 true
write 2 f.0.1.1 20
write 2 p.0.2 true
write 2 f.0.2.1 11
commit 2
close 2
open 3
look 3 1
begin 3 rc
scan 3 0 1 2
read 3 p.0.1 2 2 4110507929 true
read 3 f.0.1.1 2 1 1237085349 20
read 3 p.0.2 1 2 2844726400 true
read 3 f.0.2.1 1 1 3238996423 10
commit 3
close 3
order 0 2 1 3
end
";

// Two tables with rows of both types of keys. One row is removed again.
const FIXTURE: &str = "\
CREATE TABLE s (k bigint PRIMARY KEY, v bigint);
CREATE TABLE u (k text PRIMARY KEY, w text, b boolean);
INSERT INTO s VALUES (10, 5), (-1, NULL), (9, 1);
INSERT INTO u VALUES ('b', 'x', true), ('', NULL, false);
DELETE FROM s WHERE k = 9;
";

// A client that reads a row of the setup, deletes one, and lists the keys that are left.
const READER: &str = r"
> StartupMessage user=a
+ started as session 2
> Query SELECT w FROM u WHERE k = 'b'
< RowDescription w text
< DataRow x
< CommandComplete SELECT 1
< ReadyForQuery I
> Query DELETE FROM s WHERE k = 10
< CommandComplete DELETE 1
< ReadyForQuery I
> Query SELECT k FROM s
< RowDescription k bigint
< DataRow -1
< CommandComplete SELECT 1
< ReadyForQuery I
> Terminate
";

const SET_UP: &str = "\
monkey-log 3 ra
initial p.0.-1 true
initial p.0.10 true
initial p.1.x true
initial p.1.x62 true
initial f.0.-1.1 null
initial f.0.10.1 5
initial f.1.x.1 null
initial f.1.x.2 false
initial f.1.x62.1 x78
initial f.1.x62.2 true
open 1
define 1 x73
define 1 x75
close 1
open 2
look 2 2
begin 2 ra
read 2 p.1.x62 0 1 3118702321 true
read 2 f.1.x62.1 0 1 1150829157 x78
commit 2
look 2 2
begin 2 ra
read 2 p.0.10 0 1 816813796 true
write 2 p.0.10 false
commit 2
look 2 2
begin 2 ra
scan 2 0 -1 10
read 2 p.0.-1 0 1 231462414 true
read 2 p.0.10 2 1 1424429535 false
commit 2
close 2
order 0 1 2 3
end
";

// The links of each server's one door.
const OF_WRITER: &[Visit<'static>] = &[Visit {
    session: WRITER,
    failing: &[],
    replies: Replies::AsWritten,
}];

const OF_REGRETTER: &[Visit<'static>] = &[Visit {
    session: REGRETTER,
    failing: &[],
    replies: Replies::AsWritten,
}];

const OF_THREE: &[Visit<'static>] = &[
    Visit {
        session: FIRST,
        failing: &[],
        replies: Replies::AsWritten,
    },
    Visit {
        session: SECOND,
        failing: &[],
        replies: Replies::AsWritten,
    },
    Visit {
        session: THIRD,
        failing: &[],
        replies: Replies::AsWritten,
    },
];

const OF_READER: &[Visit<'static>] = &[Visit {
    session: READER,
    failing: &[],
    replies: Replies::AsWritten,
}];

// The server of the writer.
const WRITING: Server<'static> = Server {
    line: "serve/--quiet/--seed/7/--listen/here/--workers/1/--accept/1/--log/l",
    entries: &[Entry {
        visits: OF_WRITER,
        failing: &[],
    }],
    printed: "served 1 sessions 2 transactions 14 events\n",
    ..ONE_WORKER
};

const SERVERS: &[Server<'static>] = &[
    Server {
        name: "a row that is written and read",
        log: Some(WRITTEN),
        ..WRITING
    },
    Server {
        name: "the same, whose second write of the log fails",
        failing: &[2],
        code: 4,
        log: Some(CUT),
        ..WRITING
    },
    Server {
        name: "a block that is rolled back",
        line: "serve/--quiet/--level/cc/--seed/7/--listen/here/--workers/1/--accept/1/--log/l",
        entries: &[Entry {
            visits: OF_REGRETTER,
            failing: &[],
        }],
        printed: "served 1 sessions 1 transactions 13 events\n",
        log: Some(REGRETTED),
        ..ONE_WORKER
    },
    Server {
        name: "a transaction that stands before an earlier one",
        line: "serve/--quiet/--seed/2/--listen/here/--workers/1/--accept/3/--log/l",
        entries: &[Entry {
            visits: OF_THREE,
            failing: &[],
        }],
        printed: "served 3 sessions 3 transactions 30 events\n",
        log: Some(TURNED),
        ..ONE_WORKER
    },
    Server {
        name: "rows of a setup",
        line: "serve/--quiet/--level/ra/--seed/7/--listen/here/--workers/1/--accept/1/--setup/setup/--log/l",
        file: FIXTURE,
        entries: &[Entry {
            visits: OF_READER,
            failing: &[],
        }],
        printed: "served 2 sessions 3 transactions 22 events\n",
        log: Some(SET_UP),
        ..ONE_WORKER
    },
];

#[test]
fn servers_write_their_logs(rt: HostRuntime) -> Result<(), Fail> {
    assert_eq!(rt; first_wrong(&rt, rt.alloc(), SERVERS)?, "");
    Ok(())
}

// Whether the check of a file with this text prints this line and ends with this status.
fn checks<R: Threads + Wait + Eprint + Sync>(
    rt: &R,
    alloc: Global,
    text: &str,
    code: u8,
    line: &str,
) -> Result<bool, Memory> {
    let done = run(rt, alloc, "check/l", &with_file("l", text))?;
    Ok(is_told(&done, code, line.as_bytes()))
}

// Logs of the servers, and what a check of them comes to.
const CHECKED: &[(&str, u8, &str)] = &[
    (WRITTEN, 0, "ok\n"),
    (CUT, 1, "log fault: cut\n"),
    (REGRETTED, 0, "ok\n"),
    (TURNED, 0, "ok\n"),
    (SET_UP, 0, "ok\n"),
];

#[test]
fn logs_of_servers_are_checked(rt: HostRuntime) -> Result<(), Fail> {
    let alloc = rt.alloc();
    for (text, code, line) in CHECKED {
        assert!(rt; checks(&rt, alloc, text, *code, line)?);
    }
    Ok(())
}

// A simulation with a log: its command, with a slash between each two words, what its line begins with, and what its log begins with.
struct Simulation<'a> {
    line: &'a str,
    printed: &'a str,
    log: &'a str,
}

// The first session opens, makes the table and closes before another one opens.
const SIMULATIONS: &[Simulation<'static>] = &[
    Simulation {
        line: "sim/rc/7/1/2/--log/l",
        printed: "sim rc 7 sessions 2 transactions ",
        log: "monkey-log 2 rc\nopen 1\ndefine 1 x74\nclose 1\nopen 2\n",
    },
    Simulation {
        line: "sim/ra/7/4/6/--log/l",
        printed: "sim ra 7 sessions 5 transactions ",
        log: "monkey-log 2 ra\nopen 1\ndefine 1 x74\nclose 1\nopen 2\n",
    },
    Simulation {
        line: "sim/cc/11/--log/l/8/3",
        printed: "sim cc 11 sessions 9 transactions ",
        log: "monkey-log 2 cc\nopen 1\ndefine 1 x74\nclose 1\nopen 2\n",
    },
];

// Whether a simulation ended with status 0, and its line and its log begin so.
fn is_simulated(done: &Done, simulation: &Simulation<'_>, log: &str) -> bool {
    done.code == 0
        && done
            .printed
            .as_slice()
            .starts_with(simulation.printed.as_bytes())
        && log.starts_with(simulation.log)
}

// The text of the file that a command made, or an empty one.
fn text_of(done: &Done) -> &str {
    match &done.file {
        Some(bytes) => str::from_utf8(bytes.as_slice()).unwrap_or(""),
        None => "",
    }
}

// Whether a simulation comes to what is told of it, and a check of its log says that it is right.
fn logs<R: Threads + Wait + Eprint + Sync>(
    rt: &R,
    alloc: Global,
    simulation: &Simulation<'_>,
) -> Result<bool, Memory> {
    let done = run(rt, alloc, simulation.line, &with_file("", ""))?;
    let log = text_of(&done);
    if is_simulated(&done, simulation, log) {
        checks(rt, alloc, log, 0, "ok\n")
    } else {
        Ok(false)
    }
}

#[test]
fn logs_of_simulations_are_right(rt: HostRuntime) -> Result<(), Fail> {
    for simulation in SIMULATIONS {
        assert!(rt; logs(&rt, rt.alloc(), simulation)?);
    }
    Ok(())
}
