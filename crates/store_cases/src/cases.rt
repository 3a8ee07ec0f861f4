// Cases of one session and of several, worked out by hand. A transaction's number stands after its statement.
use crate::play::Call::{At, Begin, Commit, Own, Read, RollBack, Scan, Write};
use crate::play::{Calls, Case};
use cell_base::Level;
use cell_base::Level::{Cc, Ra, Rc};
use table_samples::Spot::{Field as F, Presence as P};
use table_samples::{NULL, UNSET};

const RC: &[Level] = &[Rc];

const RA: &[Level] = &[Ra];

const CC: &[Level] = &[Cc];

const KEEP_SESSIONS: &[Level] = &[Ra, Cc];

const ALL: &[Level] = &[Rc, Ra, Cc];

/// `INSERT INTO t VALUES (1, 10)` (1).
const INSERT: Calls = &[
    (1, Begin),
    (1, Read(P(1), &[0], 0, 0)),
    (1, Write(P(1), 1)),
    (1, Write(F(1), 10)),
    (1, Commit),
];

/// Words 0,0: a session misses its own committed row.
pub const MISSED: Case = Case {
    levels: RC,
    has_rows: false,
    before: INSERT,
    calls: &[(1, Begin), (1, Read(P(1), &[0, 1], 0, 0)), (1, Commit)],
};

/// Words 0,1,7: it sees it.
pub const SEEN: Case = Case {
    levels: RC,
    has_rows: false,
    before: INSERT,
    calls: &[
        (1, Begin),
        (1, Read(P(1), &[0, 1], 1, 1)),
        (1, Read(F(1), &[1], 7, 10)),
        (1, Commit),
    ],
};

/// Words 0,1,1,0: after `UPDATE t SET v = 20 WHERE k = 1` (2) the row has the old value.
pub const OLD_VALUE: Case = Case {
    levels: RC,
    has_rows: false,
    before: INSERT,
    calls: &[
        (1, Begin),
        (1, Read(P(1), &[0, 1], 1, 1)),
        (1, Write(F(1), 20)),
        (1, Commit),
        (1, Begin),
        (1, Read(P(1), &[0, 1], 1, 1)),
        (1, Read(F(1), &[1, 2], 0, 10)),
        (1, Commit),
    ],
};

/// Words 0,1,1,1: it has the new one.
pub const NEW_VALUE: Case = Case {
    levels: RC,
    has_rows: false,
    before: INSERT,
    calls: &[
        (1, Begin),
        (1, Read(P(1), &[0, 1], 1, 1)),
        (1, Write(F(1), 20)),
        (1, Commit),
        (1, Begin),
        (1, Read(P(1), &[0, 1], 1, 1)),
        (1, Read(F(1), &[1, 2], 1, 20)),
        (1, Commit),
    ],
};

/// The same statements at the levels that keep a session's order, by words 0.
pub const NEW_VALUE_ALONE: Case = Case {
    levels: KEEP_SESSIONS,
    has_rows: false,
    before: INSERT,
    calls: &[
        (1, Begin),
        (1, Read(P(1), &[1], 0, 1)),
        (1, Write(F(1), 20)),
        (1, Commit),
        (1, Begin),
        (1, Read(P(1), &[1], 0, 1)),
        (1, Read(F(1), &[2], 0, 20)),
        (1, Commit),
    ],
};

/// Words 5,6: `BEGIN`, an INSERT, a SELECT of its row, `ROLLBACK`, and the SELECT again.
pub const OWN_ROW: Case = Case {
    levels: RC,
    has_rows: false,
    before: &[],
    calls: &[
        (1, Begin),
        (1, Read(P(1), &[0], 5, 0)),
        (1, Write(P(1), 1)),
        (1, Write(F(1), 10)),
        (1, Own(P(1), 1)),
        (1, Own(F(1), 10)),
        (1, RollBack),
        (1, Begin),
        (1, Read(P(1), &[0], 6, 0)),
        (1, Commit),
    ],
};

/// A cell that is written twice reads as it was written last.
pub const LAST_WRITE: Case = Case {
    levels: ALL,
    has_rows: false,
    before: &[],
    calls: &[
        (1, Begin),
        (1, Write(F(1), 10)),
        (1, Write(F(1), 20)),
        (1, Own(F(1), 20)),
        (1, Commit),
    ],
};

/// A second INSERT of the key finds it taken, words 0,1.
pub const TAKEN: Case = Case {
    levels: RC,
    has_rows: false,
    before: INSERT,
    calls: &[(1, Begin), (1, Read(P(1), &[0, 1], 1, 1)), (1, RollBack)],
};

/// It finds the key free, words 0,0.
pub const FREE: Case = Case {
    levels: RC,
    has_rows: false,
    before: INSERT,
    calls: &[
        (1, Begin),
        (1, Read(P(1), &[0, 1], 0, 0)),
        (1, Write(P(1), 1)),
        (1, Write(F(1), 99)),
        (1, Commit),
    ],
};

/// `UPDATE t SET v = v + 1 WHERE k = 1` in two sessions at once (2, 3) loses an update; a third session is offered all three values.
pub const LOST_UPDATE: Case = Case {
    levels: CC,
    has_rows: false,
    before: INSERT,
    calls: &[
        (1, Begin),
        (2, Begin),
        (1, Read(P(1), &[1], 0, 1)),
        (1, Read(F(1), &[1], 0, 10)),
        (1, Write(F(1), 11)),
        (2, Read(P(1), &[0, 1], 1, 1)),
        (2, Read(F(1), &[1], 0, 10)),
        (2, Write(F(1), 11)),
        (1, Commit),
        (2, Commit),
        (3, Begin),
        (3, Read(P(1), &[0, 1], 1, 1)),
        (3, Read(F(1), &[1, 2, 3], 2, 11)),
        (3, Commit),
    ],
};

/// `BEGIN` (1) and a SELECT of row 1 in session 1, and `INSERT INTO t VALUES (1, 10), (2, 20)` (2) in session 2.
const BETWEEN: Calls = &[
    (1, Begin),
    (1, Read(P(1), &[0], 0, 0)),
    (2, Begin),
    (2, Read(P(1), &[0], 0, 0)),
    (2, Read(P(2), &[0], 0, 0)),
    (2, Write(P(1), 1)),
    (2, Write(F(1), 10)),
    (2, Write(P(2), 1)),
    (2, Write(F(2), 20)),
    (2, Commit),
];

/// The second row isn't there where the first wasn't.
pub const NO_PART: Case = Case {
    levels: KEEP_SESSIONS,
    has_rows: false,
    before: BETWEEN,
    calls: &[(1, Read(P(2), &[0], 0, 0)), (1, Commit)],
};

/// A fractured read.
pub const A_PART: Case = Case {
    levels: RC,
    has_rows: false,
    before: BETWEEN,
    calls: &[(1, Read(P(2), &[0, 2], 1, 1)), (1, Read(F(2), &[2], 0, 20))],
};

/// The INSERT, and `UPDATE t SET v = 20 WHERE k = 1` (2) after it.
const UPDATED: Calls = &[
    (1, Begin),
    (1, Read(P(1), &[0], 0, 0)),
    (1, Write(P(1), 1)),
    (1, Write(F(1), 10)),
    (1, Commit),
    (1, Begin),
    (1, Read(P(1), &[0, 1], 1, 1)),
    (1, Write(F(1), 20)),
    (1, Commit),
];

/// A SELECT twice in one transaction (3), words 1,1,0,0: it doesn't go back after the new value.
pub const NEVER_BACK: Case = Case {
    levels: RC,
    has_rows: false,
    before: UPDATED,
    calls: &[
        (2, Begin),
        (2, Read(P(1), &[0, 1], 1, 1)),
        (2, Read(F(1), &[1, 2], 1, 20)),
        (2, Read(P(1), &[1], 0, 1)),
        (2, Read(F(1), &[2], 0, 20)),
    ],
};

/// Words 1,0,0,1: it may go on from the old one.
pub const NEWER_LATER: Case = Case {
    levels: RC,
    has_rows: false,
    before: UPDATED,
    calls: &[
        (2, Begin),
        (2, Read(P(1), &[0, 1], 1, 1)),
        (2, Read(F(1), &[1, 2], 0, 10)),
        (2, Read(P(1), &[1], 0, 1)),
        (2, Read(F(1), &[1, 2], 1, 20)),
    ],
};

/// The INSERT, and in session 2 `UPDATE t SET v = 20 WHERE k = 1` (2), in session 3 the same with 30 (3).
const TWO_UPDATES: Calls = &[
    (1, Begin),
    (1, Read(P(1), &[0], 0, 0)),
    (1, Write(P(1), 1)),
    (1, Write(F(1), 10)),
    (1, Commit),
    (2, Begin),
    (2, Read(P(1), &[0, 1], 1, 1)),
    (2, Write(F(1), 20)),
    (2, Commit),
    (3, Begin),
    (3, Read(P(1), &[0, 1], 1, 1)),
    (3, Write(F(1), 30)),
    (3, Commit),
];

/// Session 4 reads the value of 2 and then that of 3, which puts 2 before 3 for all: session 5, which has read from 3, isn't offered 2.
pub const ONE_ORDER: Case = Case {
    levels: RC,
    has_rows: false,
    before: TWO_UPDATES,
    calls: &[
        (4, Begin),
        (4, Read(P(1), &[0, 1], 1, 1)),
        (4, Read(F(1), &[1, 2, 3], 1, 20)),
        (4, Read(P(1), &[1], 0, 1)),
        (4, Read(F(1), &[2, 3], 1, 30)),
        (5, Begin),
        (5, Read(P(1), &[0, 1], 1, 1)),
        (5, Read(F(1), &[1, 2, 3], 2, 30)),
        (5, Read(P(1), &[1], 0, 1)),
        (5, Read(F(1), &[3], 0, 30)),
    ],
};

/// At a level that misses: the INSERT, and session 2 reads its row and inserts the row 2 (2), words 1,0,0.
const EFFECT: Calls = &[
    (1, Begin),
    (1, Read(P(1), &[0], 0, 0)),
    (1, Write(P(1), 1)),
    (1, Write(F(1), 10)),
    (1, Commit),
    (2, Begin),
    (2, Read(P(1), &[0, 1], 1, 1)),
    (2, Read(F(1), &[1], 0, 10)),
    (2, Read(P(2), &[0], 0, 0)),
    (2, Write(P(2), 1)),
    (2, Write(F(2), 20)),
    (2, Commit),
];

/// Session 3 sees the effect, words 1,0, and may miss the cause.
pub const CAUSE_UNSEEN: Case = Case {
    levels: RA,
    has_rows: false,
    before: EFFECT,
    calls: &[
        (3, Begin),
        (3, Read(P(2), &[0, 2], 1, 1)),
        (3, Read(F(2), &[2], 0, 20)),
        (3, Read(P(1), &[0, 1], 0, 0)),
    ],
};

/// It may not.
pub const CAUSE_SEEN: Case = Case {
    levels: CC,
    has_rows: false,
    before: EFFECT,
    calls: &[
        (3, Begin),
        (3, Read(P(2), &[0, 2], 1, 1)),
        (3, Read(F(2), &[2], 0, 20)),
        (3, Read(P(1), &[1], 0, 1)),
    ],
};

/// The reader's own level decides, whatever the levels of the others: a transaction at each level sees the effect.
pub const OWN_LEVEL: Case = Case {
    levels: ALL,
    has_rows: false,
    before: EFFECT,
    calls: &[
        (3, At(Rc)),
        (3, Read(P(2), &[0, 2], 1, 1)),
        (3, Read(F(2), &[2], 0, 20)),
        (3, Read(P(1), &[0, 1], 0, 0)),
        (4, At(Ra)),
        (4, Read(P(2), &[0, 2], 1, 1)),
        (4, Read(F(2), &[2], 0, 20)),
        (4, Read(P(1), &[0, 1], 0, 0)),
        (5, At(Cc)),
        (5, Read(P(2), &[0, 2], 1, 1)),
        (5, Read(F(2), &[2], 0, 20)),
        (5, Read(P(1), &[1], 0, 1)),
    ],
};

/// Session 1 scans the table, which has no row (1), and session 2 inserts the row 1 and writes the field of a row that isn't there (2).
const SCANNED: Calls = &[
    (1, Begin),
    (1, Scan(&[])),
    (2, Begin),
    (2, Read(P(1), &[0], 0, 0)),
    (2, Write(P(1), 1)),
    (2, Write(F(1), 10)),
    (2, Write(F(2), 11)),
    (2, Commit),
];

/// The scan counts as a read of each row that it didn't list, so nothing of 2 is seen.
pub const SCAN_KEPT: Case = Case {
    levels: KEEP_SESSIONS,
    has_rows: false,
    before: SCANNED,
    calls: &[(1, Read(F(2), &[0], 0, UNSET)), (1, Commit)],
};

/// At Read Committed it may be.
pub const SCAN_OVERTAKEN: Case = Case {
    levels: RC,
    has_rows: false,
    before: SCANNED,
    calls: &[(1, Read(F(2), &[0, 2], 1, 11)), (1, Commit)],
};

/// The INSERT, and session 2 reads its row in a transaction that is rolled back (2), words 1,0.
const ROLLED_BACK: Calls = &[
    (1, Begin),
    (1, Read(P(1), &[0], 0, 0)),
    (1, Write(P(1), 1)),
    (1, Write(F(1), 10)),
    (1, Commit),
    (2, Begin),
    (2, Read(P(1), &[0, 1], 1, 1)),
    (2, Read(F(1), &[1], 0, 10)),
    (2, RollBack),
];

/// What it read counts at Causal Consistency.
pub const ROLLED_BACK_READ: Case = Case {
    levels: CC,
    has_rows: false,
    before: ROLLED_BACK,
    calls: &[(2, Begin), (2, Read(P(1), &[1], 0, 1)), (2, Commit)],
};

/// It doesn't at Read Atomic.
pub const ROLLED_BACK_FREE: Case = Case {
    levels: RA,
    has_rows: false,
    before: ROLLED_BACK,
    calls: &[(2, Begin), (2, Read(P(1), &[0, 1], 0, 0)), (2, Commit)],
};

/// What was rolled back is offered to nobody, also where its key is inserted again.
pub const NO_ROLLED_BACK_ROW: Case = Case {
    levels: RC,
    has_rows: false,
    before: &[
        (1, Begin),
        (1, Read(P(1), &[0], 0, 0)),
        (1, Write(P(1), 1)),
        (1, Write(F(1), 10)),
        (1, RollBack),
    ],
    calls: &[
        (1, Begin),
        (1, Read(P(1), &[0], 3, 0)),
        (1, Write(P(1), 1)),
        (1, Write(F(1), 20)),
        (1, Commit),
        (1, Begin),
        (1, Read(P(1), &[0, 2], 5, 1)),
        (1, Read(F(1), &[2], 8, 20)),
        (1, Commit),
    ],
};

/// A transaction that has read from the third writer isn't offered what the first two wrote; in a second session all are offered again.
pub const THIRD_WRITER: Case = Case {
    levels: RC,
    has_rows: false,
    before: &[
        (1, Begin),
        (1, Write(P(1), 1)),
        (1, Write(F(1), 10)),
        (1, Commit),
        (1, Begin),
        (1, Write(P(1), 1)),
        (1, Write(F(1), 20)),
        (1, Commit),
        (1, Begin),
        (1, Write(P(1), 1)),
        (1, Write(F(1), 30)),
        (1, Commit),
    ],
    calls: &[
        (1, Begin),
        (1, Read(P(1), &[0, 1, 2, 3], 7, 1)),
        (1, Read(F(1), &[3], 1, 30)),
        (1, Commit),
        (2, Begin),
        (2, Read(P(1), &[0, 1, 2, 3], 1, 1)),
        (2, Read(F(1), &[1, 2, 3], 4, 20)),
        (2, Commit),
    ],
};

/// The rows 5 and -3 are committed, and 7 and 5 are rolled back. A scan lists the committed rows and the own ones, also in a second session.
pub const COMMITTED_AND_OWN: Case = Case {
    levels: ALL,
    has_rows: false,
    before: &[
        (1, Begin),
        (1, Write(P(5), 1)),
        (1, Write(P(-3), 1)),
        (1, Commit),
        (1, Begin),
        (1, Write(P(7), 1)),
        (1, Write(P(5), 1)),
        (1, RollBack),
    ],
    calls: &[
        (1, Begin),
        (1, Write(P(1), 1)),
        (1, Scan(&[-3, 1, 5])),
        (1, RollBack),
        (1, Begin),
        (1, Scan(&[-3, 5])),
        (1, Commit),
        (2, Begin),
        (2, Write(P(2), 1)),
        (2, Scan(&[-3, 2, 5])),
        (2, Commit),
    ],
};

/// A removed row is listed, and a field alone makes no row.
pub const PRESENCES: Case = Case {
    levels: ALL,
    has_rows: false,
    before: &[
        (1, Begin),
        (1, Write(P(4), 0)),
        (1, Write(F(9), 1)),
        (1, Commit),
    ],
    calls: &[(1, Begin), (1, Scan(&[4])), (1, Commit)],
};

/// Integers order by value.
pub const INTEGERS: Case = Case {
    levels: RC,
    has_rows: false,
    before: &[
        (1, Begin),
        (1, Write(P(0), 1)),
        (1, Write(P(9_223_372_036_854_775_807), 1)),
        (1, Write(P(-1), 1)),
        (1, Write(P(10), 1)),
        (1, Write(P(9), 1)),
        (1, Commit),
    ],
    calls: &[
        (1, Begin),
        (1, Write(P(-9_223_372_036_854_775_807), 1)),
        (1, Write(P(-10), 1)),
        (1, Write(P(-9), 1)),
        (
            1,
            Scan(&[
                -9_223_372_036_854_775_807,
                -10,
                -9,
                -1,
                0,
                9,
                10,
                9_223_372_036_854_775_807,
            ]),
        ),
        (1, Commit),
    ],
};

/// The row 1 with 10 (1).
const BLIND_ROW: Calls = &[
    (1, Begin),
    (1, Write(P(1), 1)),
    (1, Write(F(1), 10)),
    (1, Commit),
];

/// A scan takes no offer away: after it a listed row may be missed, in the same session and in another.
pub const AFTER_A_SCAN: Case = Case {
    levels: RC,
    has_rows: false,
    before: BLIND_ROW,
    calls: &[
        (1, Begin),
        (1, Scan(&[1])),
        (1, Read(P(2), &[0], 3, 0)),
        (1, Read(P(1), &[0, 1], 1, 1)),
        (1, Read(F(1), &[1], 4, 10)),
        (1, Commit),
        (2, Begin),
        (2, Scan(&[1])),
        (2, Read(P(1), &[0, 1], 4, 0)),
        (2, Read(F(1), &[0, 1], 5, 10)),
        (2, Commit),
    ],
};

/// `INSERT INTO t VALUES (1, NULL), (2, 5), (3, NULL)` (1), and a SELECT of all rows with their values: one scan and six reads.
pub const NULLS: Case = Case {
    levels: CC,
    has_rows: false,
    before: &[
        (1, Begin),
        (1, Read(P(1), &[0], 0, 0)),
        (1, Read(P(2), &[0], 0, 0)),
        (1, Read(P(3), &[0], 0, 0)),
        (1, Write(P(1), 1)),
        (1, Write(F(1), NULL)),
        (1, Write(P(2), 1)),
        (1, Write(F(2), 5)),
        (1, Write(P(3), 1)),
        (1, Write(F(3), NULL)),
        (1, Commit),
    ],
    calls: &[
        (1, Begin),
        (1, Scan(&[1, 2, 3])),
        (1, Read(P(1), &[1], 0, 1)),
        (1, Read(F(1), &[1], 0, NULL)),
        (1, Read(P(2), &[1], 0, 1)),
        (1, Read(F(2), &[1], 0, 5)),
        (1, Read(P(3), &[1], 0, 1)),
        (1, Read(F(3), &[1], 0, NULL)),
        (1, Commit),
    ],
};

/// Rows that nobody wrote since the start, and one that isn't there.
pub const FIRST_ROWS: Case = Case {
    levels: ALL,
    has_rows: true,
    before: &[],
    calls: &[
        (1, Begin),
        (1, Read(P(1), &[0], 3, 1)),
        (1, Read(F(2), &[0], 2, 20)),
        (1, Read(P(3), &[0], 1, 0)),
        (1, Commit),
    ],
};

/// A scan lists the rows from the start with those that were written, and one that was removed.
pub const FIRST_ROWS_LISTED: Case = Case {
    levels: ALL,
    has_rows: true,
    before: &[
        (1, Begin),
        (1, Scan(&[1, 2])),
        (1, Write(P(0), 1)),
        (1, Scan(&[0, 1, 2])),
        (1, RollBack),
    ],
    calls: &[
        (1, Begin),
        (1, Write(P(2), 0)),
        (1, Commit),
        (1, Begin),
        (1, Scan(&[1, 2])),
        (1, Commit),
        (2, Begin),
        (2, Scan(&[1, 2])),
        (2, Commit),
    ],
};

/// An update of a row from the start (1): both values are offered at Read Committed, and the new one alone at the levels that keep a session's
/// order. In a second session both are, whatever the level.
pub const FIRST_ROW_UPDATED: Case = Case {
    levels: RC,
    has_rows: true,
    before: &[(1, Begin), (1, Write(F(1), 11)), (1, Commit)],
    calls: &[
        (1, At(Rc)),
        (1, Read(F(1), &[0, 1], 0, 10)),
        (1, Commit),
        (1, At(Rc)),
        (1, Read(F(1), &[0, 1], 1, 11)),
        (1, Commit),
        (1, At(Ra)),
        (1, Read(F(1), &[1], 0, 11)),
        (1, Commit),
        (1, At(Cc)),
        (1, Read(F(1), &[1], 5, 11)),
        (1, Commit),
        (2, At(Cc)),
        (2, Read(F(1), &[0, 1], 4, 10)),
        (2, Commit),
        (2, At(Rc)),
        (2, Read(F(1), &[0, 1], 3, 11)),
        (2, Commit),
    ],
};

/// In a lone session a read at Read Atomic or Causal Consistency is offered the last committed write alone, whatever the levels of the
/// transactions before, and one at Read Committed each write that no later one has passed.
pub const LONE_SESSION: Case = Case {
    levels: RC,
    has_rows: false,
    before: &[
        (1, At(Cc)),
        (1, Write(P(1), 1)),
        (1, Write(F(1), 10)),
        (1, Commit),
        (1, At(Rc)),
        (1, Read(P(1), &[0, 1], 0, 0)),
        (1, Read(F(1), &[0, 1], 1, 10)),
        (1, Read(P(1), &[1], 5, 1)),
        (1, Write(F(1), 20)),
        (1, Commit),
    ],
    calls: &[
        (1, At(Ra)),
        (1, Read(F(1), &[2], 7, 20)),
        (1, Read(P(1), &[1], 4, 1)),
        (1, Commit),
        (1, At(Rc)),
        (1, Write(F(1), 40)),
        (1, RollBack),
        (1, At(Cc)),
        (1, Read(F(1), &[2], 3, 20)),
        (1, Read(P(2), &[0], 9, 0)),
        (1, Commit),
        (1, At(Rc)),
        (1, Read(F(1), &[0, 1, 2], 0, UNSET)),
        (1, Read(P(1), &[0, 1], 3, 1)),
        (1, Read(F(1), &[1, 2], 4, 10)),
        (1, Commit),
    ],
};

/// In a second session all three writes of a field are offered at first. At Causal Consistency a read from the first of two writers puts it into
/// the past of the whole transaction, so that a later read may neither miss it nor see the second. At Read Committed a read from the second
/// leaves the first insert free to be missed, since it isn't in what was read.
pub const SECOND_SESSION: Case = Case {
    levels: RC,
    has_rows: false,
    before: &[
        (1, Begin),
        (1, Write(P(1), 1)),
        (1, Write(F(1), 10)),
        (1, Commit),
        (1, Begin),
        (1, Write(F(1), 20)),
        (1, Commit),
    ],
    calls: &[
        (2, At(Cc)),
        (2, Read(F(1), &[0, 1, 2], 1, 10)),
        (2, Read(P(1), &[1], 2, 1)),
        (2, Read(F(1), &[1], 3, 10)),
        (2, Commit),
        (2, At(Rc)),
        (2, Read(F(1), &[0, 1, 2], 2, 20)),
        (2, Read(P(1), &[0, 1], 0, 0)),
        (2, Read(F(1), &[2], 1, 20)),
        (2, Commit),
        (2, At(Ra)),
        (2, Read(F(1), &[0, 1, 2], 1, 10)),
        (2, Read(P(1), &[1], 0, 1)),
        (2, Read(F(1), &[1], 0, 10)),
        (2, Commit),
    ],
};
