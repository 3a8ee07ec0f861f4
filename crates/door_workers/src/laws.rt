// What holds of visits.
ghost use Rattle.std.specs.Prelude.{◌≡◌, ◌++◌, List};
ghost use Rattle.cell_base.specs.declared.level.Level.{Level};
ghost use Rattle.history_book.specs.Book.{Past};
ghost use Rattle.door_workers.specs.Visits.{Visit, AreVisits, events_of_visits};

use history_book::Words;

/// The events that a book made its own in visits are those of the visits' records, in order.
pub fn visits_are_own<W: Words>()
    ensures { (level : Level) (past : Past) (words : W) (visits : List Visit) (left_past : Past) (left_words : W) → AreVisits W.gives level past words visits left_past left_words → left_past.own ≡ past.own ++ events_of_visits visits }
{}
