// Servers some of whose links, doors or files fail.
use crate::entries::{Entry, Replies, Visit};
use crate::servers::{ONE_WORKER, Server, first_wrong};
use std::test::Fail;

// A client begins a block. The write of the answer fails.
const BROKEN: &str = r"
> StartupMessage user=a
+ started
> Query BEGIN
";

// Another one does, and is sent the answer.
const BEGUN: &str = r"
> StartupMessage user=a
+ started as session 2
> Query BEGIN
< CommandComplete BEGIN
< ReadyForQuery T
";

// A client that says nothing more.
const QUICK: &str = r"
> StartupMessage user=a
> Terminate
";

// Open, Begin, Rollback and Close of each.
const BLOCKS: &str = "served 2 sessions 2 transactions 8 events\n";

// Open and Close of each.
const BOTH: &str = "served 2 sessions 0 transactions 4 events\n";

const ONE: &str = "served 1 sessions 0 transactions 2 events\n";

// Two clients that begin a block.
const BEGINNERS: &[Visit<'static>] = &[
    Visit {
        session: BROKEN,
        failing: &[2],
        replies: Replies::AsWritten,
    },
    Visit {
        session: BEGUN,
        failing: &[],
        replies: Replies::AsWritten,
    },
];

// A link whose session starts and ends. Which number it has depends on the workers.
const QUICK_ONE: &[Visit<'static>] = &[Visit {
    session: QUICK,
    failing: &[],
    replies: Replies::Untold,
}];

// A door of this link.
const DOOR: Entry<'static> = Entry {
    visits: QUICK_ONE,
    failing: &[],
};

// The same, whose accept fails.
const SHUT: Entry<'static> = Entry {
    visits: QUICK_ONE,
    failing: &[1],
};

// Two workers that accept one link each.
const TWO_WORKERS: Server<'static> = Server {
    line: "serve/--quiet/--seed/7/--listen/here/--workers/2/--accept/1",
    entries: &[DOOR, DOOR],
    ..ONE_WORKER
};

const SERVERS: &[Server<'static>] = &[
    Server {
        name: "it serves on where a write of one link fails",
        entries: &[Entry {
            visits: BEGINNERS,
            failing: &[],
        }],
        printed: BLOCKS,
        ..ONE_WORKER
    },
    Server {
        name: "it serves a link by each of two workers",
        printed: BOTH,
        ..TWO_WORKERS
    },
    Server {
        name: "it remembers that the first door's accept failed",
        entries: &[SHUT, DOOR],
        code: 6,
        printed: ONE,
        ..TWO_WORKERS
    },
    Server {
        name: "it remembers that the second door's accept failed",
        entries: &[DOOR, SHUT],
        code: 6,
        printed: ONE,
        ..TWO_WORKERS
    },
    Server {
        name: "it prints its line where the log fails",
        line: "serve/--quiet/--seed/7/--listen/here/--workers/2/--accept/1/--log/l",
        failing: &[1],
        code: 4,
        printed: BOTH,
        log: Some(""),
        ..TWO_WORKERS
    },
    Server {
        name: "it writes the log and prints its line where a door's accept failed",
        line: "serve/--quiet/--seed/7/--listen/here/--workers/2/--accept/1/--log/l",
        entries: &[SHUT, DOOR],
        code: 6,
        printed: ONE,
        log: Some("monkey-log 2 rc\nopen 1\nclose 1\norder 0\nend\n"),
        ..TWO_WORKERS
    },
];

#[test]
fn serves_where_something_fails(rt: HostRuntime) -> Result<(), Fail> {
    assert_eq!(rt; first_wrong(&rt, rt.alloc(), SERVERS)?, "");
    Ok(())
}
