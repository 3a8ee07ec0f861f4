// The plan of a statement.
ghost use Rattle.std.specs.Prelude.{◌≡◌, true};
ghost use Rattle.cell_compile.specs.Together.{go_together};

use crate::next::Next;
use statement_course::Demand;
use std::alloc::Global;

/// The plan of a statement: what it demands, and what follows that. The two go together.
#[derive(Debug, Drop)]
pub struct Plan {
    pub(crate) alloc: Global,
    pub(crate) demand: Demand,
    pub(crate) next: Next,
    ghost together: { go_together demand next ≡ true },
}
