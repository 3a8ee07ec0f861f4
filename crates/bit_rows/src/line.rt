//! What a line of a matrix is.

ghost use Rattle.std.specs.Prelude.{IfSome};
ghost use Rattle.bit_rows.specs.Lines.{IsJoinedRun};

use crate::run::Run;

/// A set of numbers.
#[derive(Clone, Copy, Debug)]
pub(crate) enum Line {
    /// A run, which takes no words.
    InRun(Run),
    /// The members of a segment's words.
    InWords {
        /// The number of the segment, which no other line has.
        segment: u32,
        /// No number from this one on is a member.
        end: u32,
    },
}

/// The run of a line and of another run, where the line is a run and both are one run.
pub(crate) fn joined(line: Line, run: Run) -> Option<Run>
    ensures { IfSome result (λ both. IsJoinedRun line run.first run.end both.first both.end) }
{
    match line {
        Line::InRun(own) => own.joined(run),
        Line::InWords { .. } => None,
    }
}
