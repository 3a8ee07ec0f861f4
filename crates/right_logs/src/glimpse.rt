// What one pass over a text says of it.
ghost use Rattle.std.specs.Prelude.{◌≡◌};
ghost use Rattle.right_logs.specs.Glimpses.{glimpse_with};

use crate::pass::Pass;
use cell_writers::CellNotes;
use held_values::without;

/// What one pass over a text says of it.
#[derive(Debug, Drop)]
pub enum Glimpse {
    /// It is the log of a history without a breach.
    Right,
    /// It is the log of right events, and these are the notes of their cells. Of its order nothing is said.
    Judged(CellNotes),
    /// Nothing is said of it.
    Unclear,
}

/// The same, while the notes stand in the pass.
#[derive(Clone, Copy, Debug)]
pub enum Seen {
    Right,
    Judged,
    Unclear,
}

/// The notes of the cells, once all else is let go.
fn cells_of(pass: Pass) -> CellNotes
    ensures { result ≡ pass.entry.cells }
{
    pass.cells
}

/// What was seen, with the notes of the cells where these are told.
pub fn glimpse_by(pass: Pass, seen: Seen) -> Glimpse
    ensures { result ≡ glimpse_with pass.entry.cells seen }
{
    match seen {
        Seen::Right => without(pass, Glimpse::Right),
        Seen::Judged => Glimpse::Judged(cells_of(pass)),
        Seen::Unclear => without(pass, Glimpse::Unclear),
    }
}
