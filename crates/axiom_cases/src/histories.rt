// Histories of up to three sessions.
use crate::play::Spot::{Field, Presence};
use crate::play::Step;
use crate::play::Step::{Begin, Commit, Read, RollBack, Scan, Write};

/// Whether the row of key 1 is there in the second table.
pub const U1: crate::play::Spot = Presence(1, 1);

/// In one session 1 inserts the row 1, 2 updates it, and 3 has found the row of 1.
pub const UPDATED: [(u32, Step); 11] = [
    (1, Begin),
    (1, Read(Presence(0, 1), 0)),
    (1, Write(Presence(0, 1))),
    (1, Write(Field(0, 1))),
    (1, Commit),
    (1, Begin),
    (1, Read(Presence(0, 1), 1)),
    (1, Write(Field(0, 1))),
    (1, Commit),
    (1, Begin),
    (1, Read(Presence(0, 1), 1)),
];

/// 1 has found no row 1, and then 2 inserts the rows 1 and 2.
pub const LOST: [(u32, Step); 10] = [
    (1, Begin),
    (1, Read(Presence(0, 1), 0)),
    (2, Begin),
    (2, Read(Presence(0, 1), 0)),
    (2, Read(Presence(0, 2), 0)),
    (2, Write(Presence(0, 1))),
    (2, Write(Field(0, 1))),
    (2, Write(Presence(0, 2))),
    (2, Write(Field(0, 2))),
    (2, Commit),
];

/// 1 inserts the row 1, 2 reads it and inserts the row 2, and 3 has read that.
pub const CHAINED: [(u32, Step); 15] = [
    (1, Begin),
    (1, Read(Presence(0, 1), 0)),
    (1, Write(Presence(0, 1))),
    (1, Write(Field(0, 1))),
    (1, Commit),
    (2, Begin),
    (2, Read(Presence(0, 1), 1)),
    (2, Read(Field(0, 1), 1)),
    (2, Read(Presence(0, 2), 0)),
    (2, Write(Presence(0, 2))),
    (2, Write(Field(0, 2))),
    (2, Commit),
    (3, Begin),
    (3, Read(Presence(0, 2), 2)),
    (3, Read(Field(0, 2), 2)),
];

/// 1 has scanned the first table and found no row, and then 2 inserts a row into each table.
pub const SCANNED: [(u32, Step); 10] = [
    (1, Begin),
    (1, Scan(0)),
    (2, Begin),
    (2, Read(Presence(0, 1), 0)),
    (2, Write(Presence(0, 1))),
    (2, Write(Field(0, 1))),
    (2, Read(Presence(1, 1), 0)),
    (2, Write(Presence(1, 1))),
    (2, Write(Field(1, 1))),
    (2, Commit),
];

/// 2 inserts a row into each table, beside 1, which does nothing, and then 3 has scanned the first table and listed the row.
pub const LISTED: [(u32, Step); 11] = [
    (1, Begin),
    (2, Begin),
    (2, Read(Presence(0, 1), 0)),
    (2, Write(Presence(0, 1))),
    (2, Write(Field(0, 1))),
    (2, Read(Presence(1, 1), 0)),
    (2, Write(Presence(1, 1))),
    (2, Write(Field(1, 1))),
    (2, Commit),
    (3, Begin),
    (3, Scan(0)),
];

/// 1 inserts the row 1, and in the second session 2 reads it, writes it and is rolled back, and 3 begins.
pub const ROLLED_BACK: [(u32, Step); 11] = [
    (1, Begin),
    (1, Read(Presence(0, 1), 0)),
    (1, Write(Presence(0, 1))),
    (1, Write(Field(0, 1))),
    (1, Commit),
    (2, Begin),
    (2, Read(Presence(0, 1), 1)),
    (2, Read(Field(0, 1), 1)),
    (2, Write(Field(0, 1))),
    (2, RollBack),
    (2, Begin),
];
