// Writes the summary line.
ghost use Rattle.std.specs.Prelude.{◌≡◌, ◌++◌, ◌∷◌, codes, decimal, IfOk, OnOk};
ghost use Rattle.history_summary.specs.Line.{level_word, IsSummary};
ghost use Rattle.history_summary.specs.Walk.{counted_words};

use crate::counts::Counts;
use crate::walk::counts_of;
use cell_base::{Level, Memory};
use history_core::History;
use itoa::Buffer;
use std::alloc::Global;

/// The summary line of a history that was simulated at the level with the seed: `sim LEVEL SEED sessions A transactions B
/// events C reads D offered E weak F` and a line feed. LEVEL is `rc`, `ra` or `cc`, and the others are decimal numbers: A, B, C
/// and D of Open, Begin, all and Read events, E the sum of the counts of offered writes over the reads, and F the number of
/// reads whose source isn't the committed writer of the cell with the latest Commit before them, or 0 where there is none. It
/// goes through the events once, and fails where memory runs out, and nowhere else.
pub fn summary(alloc: Global, level: Level, seed: u64, history: &History) -> Result<Vec<u8>, Memory>
    ensures { IfOk result (λ line. IsSummary level seed history.now.events line.items) }
{
    let counts = counts_of(alloc, history)?;
    let mut line = Vec::new(alloc);
    put_start(&mut line, level, seed)?;
    put_counts(&mut line, &counts)?;
    put(&mut line, b"\n")?;
    Ok(line)
}

/// Writes bytes at the end.
fn put(out: &mut Vec<u8>, text: &[u8]) -> Result<(), Memory>
    ensures { OnOk result (out.new.items ≡ out.old.items ++ text.now) }
{
    out.extend_from_slice(text)?;
    Ok(())
}

/// Writes a number.
fn put_number(out: &mut Vec<u8>, n: u64) -> Result<(), Memory>
    ensures { OnOk result (out.new.items ≡ out.old.items ++ decimal n) }
{
    put(out, Buffer::new().format(n).as_bytes())
}

/// Writes a level.
fn put_level(out: &mut Vec<u8>, level: Level) -> Result<(), Memory>
    ensures { OnOk result (out.new.items ≡ out.old.items ++ level_word level) }
{
    match level {
        Level::Rc => put(out, b"rc"),
        Level::Ra => put(out, b"ra"),
        Level::Cc => put(out, b"cc"),
    }
}

/// Writes the first three words.
fn put_start(out: &mut Vec<u8>, level: Level, seed: u64) -> Result<(), Memory>
    ensures { OnOk result (out.new.items ≡ out.old.items ++ (codes "sim" ++ 32 ∷ (level_word level ++ 32 ∷ decimal seed))) }
{
    put(out, b"sim ")?;
    put_level(out, level)?;
    put(out, b" ")?;
    put_number(out, seed)
}

/// Writes a name, which begins and ends with a blank, and its number.
fn put_named(out: &mut Vec<u8>, name: &[u8], n: u64) -> Result<(), Memory>
    ensures { OnOk result (out.new.items ≡ out.old.items ++ (name.now ++ decimal n)) }
{
    put(out, name)?;
    put_number(out, n)
}

/// Writes the counts with their names, a blank before each word.
fn put_counts(out: &mut Vec<u8>, counts: &Counts) -> Result<(), Memory>
    ensures { OnOk result (out.new.items ≡ out.old.items ++ counted_words counts.now) }
{
    put_named(out, b" sessions ", counts.sessions)?;
    put_named(out, b" transactions ", u64::from(counts.transactions))?;
    put_named(out, b" events ", counts.events)?;
    put_named(out, b" reads ", counts.reads)?;
    put_named(out, b" offered ", counts.offered)?;
    put_named(out, b" weak ", counts.weak)
}
