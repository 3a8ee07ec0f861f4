// The judge of a trace in several threads.
ghost use Rattle.std.specs.Prelude.{◌<◌, length, OnOk};
ghost use Rattle.history_check.specs.Breaches.{AreRight, IfBreach};
ghost use Rattle.cell_writers.specs.Numbered.{AreNumbered};
ghost use Rattle.history_check.specs.Notes.{AreCellNotes};
ghost use Rattle.history_check.specs.Orders.{IsRightTrace, IsFirstBreach};

use crate::threads::InThreads;
use cell_writers::CellNotes;
use history_check::{CheckFault, check_by, check_order_by};
use history_log::Trace;
use std::alloc::Global;
use std::thread::Threads;

/// Judges a trace as `history_check::check` does, and its reads and scans in several threads. The breach is the first, whichever thread is done
/// first.
pub fn check_wide<R: Threads>(rt: &R, alloc: Global, trace: &Trace) -> Result<(), CheckFault>
    requires few { length trace.now.events < 4294967296 }
    ensures ok { OnOk result (IsRightTrace trace.now) }
    ensures breach { IfBreach result (IsFirstBreach trace.now) }
{
    check_by(alloc, &InThreads { rt }, trace)
}

/// Judges the order of a trace as `history_check::check_order` does, and its reads and scans in several threads. The breach is the first of the
/// order, whichever thread is done first.
pub fn check_order_wide<R: Threads>(
    rt: &R,
    alloc: Global,
    cells: &CellNotes,
    trace: &Trace,
) -> Result<(), CheckFault>
    requires notes { AreCellNotes trace.now.events cells.now }
    requires numbered { AreNumbered trace.now.events cells.now.numbers }
    requires right { AreRight trace.now.initial trace.now.events }
    requires few { length trace.now.events < 4294967296 }
    ensures ok { OnOk result (IsRightTrace trace.now) }
    ensures breach { IfBreach result (IsFirstBreach trace.now) }
{
    check_order_by(alloc, &InThreads { rt }, cells, trace)
}
