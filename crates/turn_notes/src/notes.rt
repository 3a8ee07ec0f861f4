//! The state, a list of notes, and the calls on it that a writer makes in its turns.
ghost use Rattle.std.specs.Prelude.{◌≡◌, ◌<◌, [], All, IfOk, MatchOption};

use std::alloc::Global;
use turn_lock::{Logged, Turn};

/// A note, with the number of its writer.
#[derive(Clone, Copy, Drop)]
pub struct Note {
    pub by: u64,
    pub value: u64,
}

/// The notes of all writers, in the order in which they came.
#[derive(Drop)]
pub struct Notes {
    // The number of the next writer. Those of all others are below it.
    next: u64,
    notes: Vec<Note>,
    ghost below: { All (λ n. n.by < next) notes.items },
}

impl Notes {
    /// No notes. It takes no memory.
    pub fn new(alloc: Global) -> Notes
        ensures { result.notes.items ≡ [] }
    {
        Notes {
            next: 0,
            notes: Vec::new(alloc),
        }
    }

    /// All notes, in the order in which they came.
    pub fn as_slice(&self) -> &[Note]
        ensures { result.now ≡ self.now.notes.items }
    {
        self.notes.as_slice()
    }
}

impl Logged for Notes {
    type Entry = Note;

    ghost entries = { λ s. s.notes.items };

    ghost key = { λ n. n.by };
}

/// Adds the first note of a new writer, and answers its number. `None` when out of memory or of numbers.
pub struct Start;

impl Turn<Notes, ()> for Start {
    type Answer = Option<u64>;

    ghost use Rattle.std.specs.Prelude.{◌≡◌, ◌∷◌, ◌++◌, [], MatchOption};
    ghost use Rattle.turn_notes.specs.Numbered.{note};

    ghost needs = { λ _ _. Unit {0} };

    ghost does = { λ _ x _ by y _. MatchOption by (y.notes.items ≡ x.notes.items) (λ k. (k ≡ x.next) × (y.notes.items ≡ x.notes.items ++ note k 0 ∷ [])) };

    fn run(self, state: &mut Notes, _: &mut ()) -> Option<u64> {
        let Start = self;
        state.start()
    }
}

/// Adds one more note of a writer that has one. `None` when out of memory.
pub struct Add {
    pub note: Note,
}

impl Turn<Notes, ()> for Add {
    type Answer = Option<()>;

    ghost use Rattle.std.specs.Prelude.{◌≡◌, ◌∷◌, ◌++◌, [], MatchOption};
    ghost use Rattle.turn_lock.specs.Entries.{HasKey};

    ghost needs = { λ a notes. HasKey (λ n. n.by) a.note.by notes };

    ghost does = { λ a x _ done y _. MatchOption done (y.notes.items ≡ x.notes.items) (λ _. y.notes.items ≡ x.notes.items ++ a.note ∷ []) };

    fn run(self, state: &mut Notes, _: &mut ()) -> Option<()> {
        let Add { note } = self;
        state.add(note)
    }
}

/// Answers the first note. There has to be one.
pub struct First;

impl Turn<Notes, ()> for First {
    type Answer = Note;

    ghost use Rattle.std.specs.Prelude.{◌≡◌, ◌<◌, length, slice_get, Some};

    ghost needs = { λ _ notes. 0 < length notes };

    ghost does = { λ _ x _ note y _. (slice_get x.notes.items 0 ≡ Some note) × (y.notes.items ≡ x.notes.items) };

    fn run(self, state: &mut Notes, _: &mut ()) -> Note {
        let First = self;
        state.notes[0]
    }
}

impl Notes {
    ghost use Rattle.std.specs.Prelude.{◌≡◌, ◌∷◌, ◌++◌, [], MatchOption};
    ghost use Rattle.turn_lock.specs.Entries.{HasKey};
    ghost use Rattle.turn_notes.specs.Numbered.{note};

    /// Adds the first note of a new writer, and answers its number. `None` when out of memory or of numbers.
    pub fn start(&mut self) -> Option<u64>
        ensures { MatchOption result (self.new.notes.items ≡ self.old.notes.items) (λ k. (k ≡ self.old.next) × (self.new.notes.items ≡ self.old.notes.items ++ note k 0 ∷ [])) }
    {
        let by = self.next;
        if by == u64::MAX || self.notes.reserve(1).is_err() {
            return None;
        }
        self.next = by + 1;
        if self.notes.push(Note { by, value: 0 }).is_err() {
            return None;
        }
        Some(by)
    }

    // One more note.
    fn add(&mut self, note: Note) -> Option<()>
        requires { HasKey (λ n. n.by) note.by self.old.notes.items }
        ensures { MatchOption result (self.new.notes.items ≡ self.old.notes.items) (λ _. self.new.notes.items ≡ self.old.notes.items ++ note ∷ []) }
    {
        match self.notes.push(note) {
            Ok(()) => Some(()),
            Err(_) => None,
        }
    }
}
