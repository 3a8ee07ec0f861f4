//! The lines of a matrix: runs of numbers take no words, and the words of all others stand in one
//! pool.

ghost use Rattle.std.specs.Prelude.{◌≡◌, ◌<◌, ◌≤◌, ◌+◌, ◌*◌, ◌%◌, ◌++◌, ◌∷◌, ◌↔◌, ◌⊎◌, [], ℕ, All, Contains, IsTrue, OnOk, OnErr, length, slice_index_or, vec_capacity};
ghost use Rattle.bit_rows.specs.declared.line.Line.TheVariants.{InRun, InWords};
ghost use Rattle.bit_rows.specs.Members.{IsUnion, members};
ghost use Rattle.bit_rows.specs.Runs.{IsInRun, numbers_of};
ghost use Rattle.bit_rows.specs.Segments.{segment as words_at};
ghost use Rattle.bit_rows.specs.Matrix.{row_at};
ghost use Rattle.bit_rows.specs.Lines.{EmptiesLine, HoldTogether, JoinsLine, line_at, rows_of};

use crate::line::{Line, joined};
use crate::run::Run;
use crate::segments::{
    clear_segment, copy_segments, end_of, fill_segment, has, join_segment, join_segments, lengthen,
};
use crate::{BLOCK, ROW_BITS, Row, WORDS};
use std::alloc::{AllocError, Global};

/// The next larger room: twice as many words and a block, and at most those of a whole row. An odd
/// number of blocks keeps the words of one place in all segments from sharing few lines of the
/// processor's cache, which a power of two would make them do.
fn wider(room: usize) -> usize
    requires blocks { room % BLOCK ≡ 0 }
    requires size { room ≤ WORDS }
    requires some { 0 < room }
    ensures blocks { result % BLOCK ≡ 0 }
    ensures size { result ≤ WORDS }
    ensures kept { room ≤ result }
    ensures larger { room < WORDS → room < result }
{
    (2 * room + BLOCK).min(WORDS)
}

/// As many words, in whole blocks, as have room for the numbers below an end, and at most the room.
fn words_below(end: u32, room: usize) -> usize
    requires { room % BLOCK ≡ 0 }
    ensures blocks { result % BLOCK ≡ 0 }
    ensures within { result ≤ room }
    ensures enough { (room ≤ result) ⊎ (end ≤ 64 * result) }
{
    ((end as usize / (64 * BLOCK) + 1) * BLOCK).min(room)
}

/// Sets of numbers.
#[derive(Debug, Drop)]
pub(crate) struct Lines {
    lines: Vec<Line>,
    /// The segments of the lines that aren't runs, one after another. There is room for one for each
    /// line, and what isn't used of it isn't touched.
    pool: Vec<u64>,
    /// How many segments there are.
    segments: u32,
    /// How many words a segment has.
    room: usize,
}

impl Lines {
    /// No lines. Takes no memory.
    pub(crate) fn new(alloc: Global) -> Lines
        ensures holds { HoldTogether result }
        ensures none { rows_of result ≡ [] }
    {
        Lines {
            lines: Vec::new(alloc),
            pool: Vec::new(alloc),
            segments: 0,
            room: BLOCK,
        }
    }

    /// How many lines there are.
    pub(crate) fn len(&self) -> usize
        ensures { result ≡ length self.now.lines.items }
    {
        self.lines.len()
    }

    /// One line.
    fn line(&self, number: usize) -> Line
        requires { number < length self.now.lines.items }
        ensures { result ≡ line_at self.now.lines.items number }
    {
        self.lines[number]
    }

    /// Where a segment begins.
    fn place(&self, segment: u32) -> usize
        requires holds { HoldTogether self.now }
        requires there { segment < self.now.segments }
        ensures place { result ≡ segment * self.now.room }
        ensures within { result + self.now.room ≤ length self.now.pool.items }
    {
        segment as usize * self.room
    }

    /// The first words of a segment.
    fn first_words(&self, segment: u32, count: usize) -> &[u64]
        requires holds { HoldTogether self.now }
        requires there { segment < self.now.segments }
        requires count { count ≤ self.now.room }
        ensures words { result.now ≡ words_at self.now.pool.items (segment * self.now.room) count }
        ensures size { length result.now ≡ count }
    {
        let place = self.place(segment);
        &self.pool[place..place + count]
    }

    /// The words of a line that has a segment, up to the block of the line's end: those after it are
    /// zeros.
    fn words(&self, number: usize, segment: u32, end: u32) -> &[u64]
        requires holds { HoldTogether self.now }
        requires words { line_at self.now.lines.items number ≡ InWords segment end }
        ensures members { members result.now ≡ row_at (rows_of self.now) number }
        ensures blocks { length result.now % BLOCK ≡ 0 }
        ensures size { length result.now ≤ WORDS }
    {
        self.first_words(segment, words_below(end, self.room))
    }

    /// Whether the number is a member of a line that has a segment. Reads no word for one from the
    /// line's end on.
    fn has_in_words(&self, number: usize, segment: u32, end: u32, bit: u32) -> bool
        requires holds { HoldTogether self.now }
        requires words { line_at self.now.lines.items number ≡ InWords segment end }
        ensures { IsTrue result ↔ Contains (row_at (rows_of self.now) number) bit }
    {
        if bit >= end {
            return false;
        }
        has(&self.pool, self.place(segment), self.room, bit)
    }

    /// Whether the number is a member of a line.
    pub(crate) fn has(&self, number: usize, bit: u32) -> bool
        requires holds { HoldTogether self.now }
        requires number { number < length self.now.lines.items }
        ensures { IsTrue result ↔ Contains (row_at (rows_of self.now) number) bit }
    {
        match self.line(number) {
            Line::InRun(run) => run.has(bit),
            Line::InWords { segment, end } => self.has_in_words(number, segment, end, bit),
        }
    }

    /// Adds the members of a line to a row.
    pub(crate) fn add_to(&self, number: usize, row: &mut Row)
        requires holds { HoldTogether self.now }
        requires number { number < length self.now.lines.items }
        ensures { IsUnion row.old (row_at (rows_of self.now) number) row.new }
    {
        match self.line(number) {
            Line::InRun(run) => row.or_run(run),
            Line::InWords { segment, end } => row.or_words(self.words(number, segment, end)),
        }
    }

    /// Makes a row what a line is.
    pub(crate) fn copy_to(&self, number: usize, row: &mut Row)
        requires holds { HoldTogether self.now }
        requires number { number < length self.now.lines.items }
        ensures { row.new ≡ row_at (rows_of self.now) number }
    {
        match self.line(number) {
            Line::InRun(run) => row.copy_run(run),
            Line::InWords { segment, end } => row.copy_words(self.words(number, segment, end)),
        }
    }

    /// Gives a line that is a run the next segment, and an end that is no lower than the run's.
    /// Answers the segment's number.
    fn take_segment(&mut self, target: usize, run: Run, end: u32) -> u32
        requires holds { HoldTogether self.old }
        requires target { target < length self.old.lines.items }
        requires run { line_at self.old.lines.items target ≡ InRun run }
        requires end { run.end ≤ end }
        ensures joined { JoinsLine target [] self.old self.new }
        ensures words { line_at self.new.lines.items target ≡ InWords result end }
        ensures there { result < self.new.segments }
        ensures others { (k : ℕ) → ¬ k ≡ target → line_at self.new.lines.items k ≡ line_at self.old.lines.items k }
        ensures room { self.new.room ≡ self.old.room }
    {
        let segment = self.segments;
        lengthen(&mut self.pool, self.room);
        fill_segment(&mut self.pool, segment as usize * self.room, self.room, run);
        self.lines[target] = Line::InWords { segment, end };
        self.segments += 1;
        segment
    }

    /// Raises the end of a line that has a segment.
    fn raise(&mut self, target: usize, segment: u32, own: u32, end: u32)
        requires holds { HoldTogether self.old }
        requires target { target < length self.old.lines.items }
        requires words { line_at self.old.lines.items target ≡ InWords segment own }
        requires end { own ≤ end }
        ensures joined { JoinsLine target [] self.old self.new }
        ensures words { line_at self.new.lines.items target ≡ InWords segment end }
        ensures others { (k : ℕ) → ¬ k ≡ target → line_at self.new.lines.items k ≡ line_at self.old.lines.items k }
        ensures room { self.new.room ≡ self.old.room }
        ensures segments { self.new.segments ≡ self.old.segments }
    {
        self.lines[target] = Line::InWords { segment, end };
    }

    /// The number of a line's segment, where the line is to have members below `end`: its own end is
    /// no lower then. A line that is a run gets a segment.
    fn segment_of(&mut self, target: usize, end: u32) -> u32
        requires holds { HoldTogether self.old }
        requires target { target < length self.old.lines.items }
        ensures joined { JoinsLine target [] self.old self.new }
        ensures words { (last : ℕ) × ((line_at self.new.lines.items target ≡ InWords result last) × (end ≤ last)) }
        ensures there { result < self.new.segments }
        ensures others { (k : ℕ) → ¬ k ≡ target → line_at self.new.lines.items k ≡ line_at self.old.lines.items k }
        ensures room { self.new.room ≡ self.old.room }
    {
        match self.line(target) {
            Line::InRun(run) => self.take_segment(target, run, end.max(run.end)),
            Line::InWords { segment, end: own } => {
                self.raise(target, segment, own, end.max(own));
                segment
            }
        }
    }

    /// Adds the numbers of a run to a line that has a segment, or gets one.
    fn fill_line(&mut self, target: usize, run: Run)
        requires holds { HoldTogether self.old }
        requires target { target < length self.old.lines.items }
        requires within { (n : ℕ) → IsInRun run.first run.end n → n < 64 * self.old.room }
        ensures { JoinsLine target (numbers_of run.first run.end) self.old self.new }
    {
        let segment = self.segment_of(target, run.end);
        let place = self.place(segment);
        fill_segment(&mut self.pool, place, self.room, run);
    }

    /// Adds the numbers of a run to a line.
    fn add_run(&mut self, target: usize, run: Run)
        requires holds { HoldTogether self.old }
        requires target { target < length self.old.lines.items }
        requires within { (n : ℕ) → IsInRun run.first run.end n → n < 64 * self.old.room }
        ensures { JoinsLine target (numbers_of run.first run.end) self.old self.new }
    {
        match joined(self.line(target), run) {
            Some(both) => self.lines[target] = Line::InRun(both),
            None => self.fill_line(target, run),
        }
    }

    /// Adds the members of some words to a line.
    pub(crate) fn add_words(&mut self, target: usize, words: &[u64])
        requires holds { HoldTogether self.old }
        requires target { target < length self.old.lines.items }
        requires blocks { length words.now % BLOCK ≡ 0 }
        requires size { length words.now ≤ WORDS }
        requires within { All (λ n. n < 64 * self.old.room) (members words.now) }
        ensures { JoinsLine target (members words.now) self.old self.new }
    {
        let segment = self.segment_of(target, end_of(words));
        let place = self.place(segment);
        join_segment(&mut self.pool, place, self.room, words);
    }

    /// Adds the members of another line's segment, all below its end, to a line.
    fn add_segment(&mut self, target: usize, source: usize, other: u32, end: u32)
        requires holds { HoldTogether self.old }
        requires target { target < length self.old.lines.items }
        requires apart { ¬ source ≡ target }
        requires words { line_at self.old.lines.items source ≡ InWords other end }
        ensures { JoinsLine target (row_at (rows_of self.old) source) self.old self.new }
    {
        let segment = self.segment_of(target, end);
        let place = self.place(segment);
        let other_place = self.place(other);
        join_segments(&mut self.pool, place, self.room, other_place);
    }

    /// Adds the members of another line to a line.
    fn add_line(&mut self, target: usize, source: usize)
        requires holds { HoldTogether self.old }
        requires target { target < length self.old.lines.items }
        requires source { source < length self.old.lines.items }
        requires apart { ¬ source ≡ target }
        ensures { JoinsLine target (row_at (rows_of self.old) source) self.old self.new }
    {
        match self.line(source) {
            Line::InRun(run) => self.add_run(target, run),
            Line::InWords {
                segment: other,
                end,
            } => self.add_segment(target, source, other, end),
        }
    }

    /// Adds a number and the members of its line to another line.
    pub(crate) fn join_up_to(&mut self, number: u32, target: usize)
        requires holds { HoldTogether self.old }
        requires target { target < length self.old.lines.items }
        requires number { number < length self.old.lines.items }
        requires few { number < ROW_BITS }
        requires apart { ¬ number ≡ target }
        ensures { JoinsLine target (number ∷ row_at (rows_of self.old) number) self.old self.new }
    {
        self.add_line(target, number as usize);
        self.add_run(
            target,
            Run {
                first: number,
                end: number + 1,
            },
        );
    }

    /// Removes all members of a line that has a segment.
    fn clear_words(&mut self, target: usize, segment: u32, end: u32)
        requires holds { HoldTogether self.old }
        requires words { line_at self.old.lines.items target ≡ InWords segment end }
        ensures { EmptiesLine target self.old self.new }
    {
        let place = self.place(segment);
        clear_segment(&mut self.pool, place, self.room);
    }

    /// Removes all members of a line.
    pub(crate) fn clear(&mut self, target: usize)
        requires holds { HoldTogether self.old }
        requires target { target < length self.old.lines.items }
        ensures { EmptiesLine target self.old self.new }
    {
        match self.line(target) {
            Line::InRun(_) => self.lines[target] = Line::InRun(Run { first: 0, end: 0 }),
            Line::InWords { segment, end } => self.clear_words(target, segment, end),
        }
    }

    /// Moves the segments to a pool with more room for each, and with room for so many lines. An
    /// error is out of memory, and then nothing has changed.
    fn widen(&mut self, alloc: Global, lines: usize) -> Result<(), AllocError>
        requires holds { HoldTogether self.old }
        requires lines { length self.old.lines.items ≤ lines }
        requires few { lines ≤ ROW_BITS }
        ensures holds { HoldTogether self.new }
        ensures rows { rows_of self.new ≡ rows_of self.old }
        ensures lines { self.new.lines.items ≡ self.old.lines.items }
        ensures spare { OnOk result (lines * self.new.room ≤ vec_capacity self.new.pool) }
        ensures room { OnOk result (self.old.room < WORDS → self.old.room < self.new.room) }
    {
        let more = wider(self.room);
        let mut pool = Vec::with_capacity(alloc, lines * more)?;
        copy_segments(
            &self.pool,
            self.segments as usize,
            self.room,
            &mut pool,
            more,
        );
        self.pool = pool;
        self.room = more;
        Ok(())
    }

    /// Makes room for one line more. An error is out of memory, and then no line has changed its
    /// members.
    fn make_room(&mut self, alloc: Global) -> Result<(), AllocError>
        requires holds { HoldTogether self.old }
        requires few { length self.old.lines.items < ROW_BITS }
        ensures holds { HoldTogether self.new }
        ensures rows { rows_of self.new ≡ rows_of self.old }
        ensures lines { self.new.lines.items ≡ self.old.lines.items }
        ensures spare { OnOk result ((length self.old.lines.items + 1) * self.new.room ≤ vec_capacity self.new.pool) }
        ensures room { OnOk result (length self.old.lines.items < 64 * self.new.room) }
    {
        let lines = self.lines.len() + 1;
        if lines > 64 * self.room {
            return self.widen(alloc, lines);
        }
        self.pool.reserve(lines * self.room - self.pool.len())
    }

    /// Adds an empty line after the last one. An error is out of memory, and then no line has changed
    /// its members.
    pub(crate) fn push(&mut self, alloc: Global) -> Result<(), AllocError>
        requires holds { HoldTogether self.old }
        requires few { length self.old.lines.items < ROW_BITS }
        ensures holds { HoldTogether self.new }
        ensures ok { OnOk result (rows_of self.new ≡ rows_of self.old ++ [] ∷ []) }
        ensures err { OnErr result (rows_of self.new ≡ rows_of self.old) }
    {
        self.make_room(alloc)?;
        self.lines.push(Line::InRun(Run { first: 0, end: 0 }))?;
        Ok(())
    }
}
