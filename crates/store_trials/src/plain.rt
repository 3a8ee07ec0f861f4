// What the events of a history say: its transactions, and what each wrote and read. Nothing of the store, and of the crates that decide for it,
// is used.
use cell_base::{Cell, Items, Key, Level};
use held_values::kept;
use history_core::Event;
use seat_samples::Stop;
use std::alloc::Global;
use table_samples::Spot;

/// How many transactions may have begun: as many orders as there are of these are tried.
pub const MOST: u32 = 6;

/// These and the initial one.
pub const SIZE: u32 = 7;

/// A transaction.
#[derive(Clone, Copy)]
pub struct Txn {
    pub session: u32,
    pub level: Level,
    pub is_committed: bool,
}

/// An external read of a transaction, at the place of its event.
#[derive(Clone, Copy)]
pub struct Given {
    pub reader: u32,
    pub place: usize,
    pub spot: Spot,
    pub source: u32,
}

/// The transactions by their numbers, what each wrote, committed or not, and what each read.
#[derive(Drop)]
pub struct Plain {
    pub txns: Vec<Txn>,
    pub writes: Vec<(u32, Spot)>,
    pub reads: Vec<Given>,
}

/// What the events say.
pub fn plain_of(alloc: Global, events: &[Event]) -> Result<Plain, Stop> {
    let mut plain = Plain {
        txns: Vec::new(alloc),
        writes: Vec::new(alloc),
        reads: Vec::new(alloc),
    };
    let noted = plain.note_all(events);
    kept(plain, noted)
}

/// The cell's place in the tests' table; all keys are integers there.
fn spot_of(cell: &Cell) -> Spot {
    match cell {
        Cell::Presence(_, key) => Spot::Presence(integer(key)),
        Cell::Field(_, key, _) => Spot::Field(integer(key)),
    }
}

/// Whether the integer is one of the keys.
fn lists(keys: &[Key], key: i64) -> bool {
    for listed in keys {
        if integer(listed) == key {
            return true;
        }
    }
    false
}

fn integer(key: &Key) -> i64 {
    match key {
        Key::Int(n) => *n,
        Key::Text(_) => 0,
    }
}

impl Plain {
    /// Notes the initial transaction, and what the events say.
    fn note_all(&mut self, events: &[Event]) -> Result<(), Stop> {
        self.begin(0, Level::Cc)?;
        self.commit(0);
        for (place, event) in events.iter().enumerate() {
            self.note(place, event)?;
        }
        Ok(())
    }

    /// Notes what the event at the place says.
    fn note(&mut self, place: usize, event: &Event) -> Result<(), Stop> {
        match event {
            Event::Begin { session, level } => self.begin(*session, *level),
            Event::Commit { session } => {
                self.commit(*session);
                Ok(())
            }
            Event::Write { session, cell, .. } => self.write(*session, spot_of(cell)),
            Event::Read {
                session,
                cell,
                source,
                ..
            } => self.read(*session, place, spot_of(cell), *source),
            Event::Scan { session, keys, .. } => self.scan(*session, place, keys),
            _ => Ok(()),
        }
    }

    fn begin(&mut self, session: u32, level: Level) -> Result<(), Stop> {
        self.txns.push(Txn {
            session,
            level,
            is_committed: false,
        })?;
        Ok(())
    }

    fn commit(&mut self, session: u32) {
        let number = self.last_of(session);
        if let Some(txn) = self.txns.get_mut(number as usize) {
            txn.is_committed = true;
        }
    }

    fn write(&mut self, session: u32, spot: Spot) -> Result<(), Stop> {
        let writer = self.last_of(session);
        self.writes.push((writer, spot))?;
        Ok(())
    }

    /// Notes an external read of the session's last transaction.
    pub fn read(
        &mut self,
        session: u32,
        place: usize,
        spot: Spot,
        source: u32,
    ) -> Result<(), Stop> {
        let reader = self.last_of(session);
        self.reads.push(Given {
            reader,
            place,
            spot,
            source,
        })?;
        Ok(())
    }

    /// A scan reads the presence of each key that it doesn't list from the initial transaction.
    fn scan(&mut self, session: u32, place: usize, keys: &Items<Key>) -> Result<(), Stop> {
        for key in [1, 2] {
            if !lists(keys.as_slice(), key) {
                self.read(session, place, Spot::Presence(key), 0)?;
            }
        }
        Ok(())
    }

    /// The last transaction of the session, and 0 where it has begun none.
    fn last_of(&self, session: u32) -> u32 {
        let mut last = 0;
        for number in 1..SIZE {
            if self.is_in(number, session) {
                last = number;
            }
        }
        last
    }

    fn is_in(&self, number: u32, session: u32) -> bool {
        match self.txns.get(number as usize) {
            Some(txn) => txn.session == session,
            None => false,
        }
    }

    /// Whether the transaction is the initial one, or a committed one that writes the cell.
    pub fn is_writer(&self, number: u32, spot: Spot) -> bool {
        match self.txns.get(number as usize) {
            Some(txn) => number == 0 || txn.is_committed && self.writes.contains(&(number, spot)),
            None => false,
        }
    }

    /// Whether the first stands before the second in session order, or the second has read from it.
    pub fn precedes(&self, first: u32, second: u32) -> bool {
        let Some(a) = self.txns.get(first as usize) else {
            return false;
        };
        let Some(b) = self.txns.get(second as usize) else {
            return false;
        };
        first < second && (first == 0 || a.session == b.session) || self.has_read(second, first)
    }

    /// Whether the transaction has read from the source.
    fn has_read(&self, reader: u32, source: u32) -> bool {
        for read in &self.reads {
            if read.reader == reader && read.source == source {
                return true;
            }
        }
        false
    }

    /// Whether the transaction of the read has read from the source before.
    pub fn has_read_before(&self, read: Given, source: u32) -> bool {
        for other in &self.reads {
            if other.reader == read.reader && other.place < read.place && other.source == source {
                return true;
            }
        }
        false
    }
}
