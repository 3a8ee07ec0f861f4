// The text of a history.
ghost use Rattle.std.specs.Prelude.{◌≡◌, IfOk};
ghost use Rattle.history_core.specs.Chronicle.{IsFormedChronicle};
ghost use Rattle.history_log.specs.Log.{IsLog, newest};
ghost use Rattle.log_file.specs.Text.{trace_of, text_of};

use cell_base::Memory;
use history_core::History;
use history_log::print;
use std::alloc::Global;

/// The text of a history with an order of its transactions, which is read back as them: of version 2, or of version 3 where rows
/// were there from the start.
pub(crate) fn log_text(alloc: Global, history: &History, order: &[u32]) -> Result<Vec<u8>, Memory>
    ensures text { IfOk result (λ text. text.items ≡ text_of (trace_of history.now order.now)) }
    ensures log { IfOk result (λ _. IsLog (newest history.now.initial) (trace_of history.now order.now) (text_of (trace_of history.now order.now))) }
{
    let events = history.events();
    let initial = history.initial().cells();
    print(alloc, history.level(), initial, events, order)
}
