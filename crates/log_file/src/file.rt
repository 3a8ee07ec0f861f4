// The log of a history, written to a file.
ghost use Rattle.std.specs.Prelude.{◌≡◌, ℕ, List, IfErr, IfOk, OnOk};
ghost use Rattle.history_log.specs.Log.{IsLog, newest};
ghost use Rattle.link_traits.specs.Host.{objects_out};
ghost use Rattle.log_file.specs.Logging.{LogWritten, LogUnwritten, IsFirstOrder, Logs, LogsAndPrints, status_after as status_code};
ghost use Rattle.log_file.specs.Text.{trace_of, text_of};

use crate::text::log_text;
use cell_base::{Memory, Text};
use host_calls::{Status, WriteFault, print, write_file};
use link_traits::Host;
use std::alloc::Global;
use valid_writes::Store;

// The log of the history of a store, with the first of the orders that meet it.
fn text_of_store(alloc: Global, store: &Store) -> Result<Vec<u8>, Memory>
    ensures { IfOk result (λ text. (order : List ℕ) × IsFirstOrder store.now order × (text.items ≡ text_of (trace_of store.now order))
        × IsLog (newest store.now.initial) (trace_of store.now order) (text_of (trace_of store.now order))) }
{
    let order = store.order()?;
    log_text(alloc, store.history(), &order)
}

// Writes the log of the history of a store to the file of a path, made anew.
fn write_log<H: Host>(
    alloc: Global,
    host: &mut H,
    path: &Text,
    store: &Store,
) -> Result<(), WriteFault>
    requires none_out { objects_out (H.hosted host.old) ≡ 0 }
    ensures ok { OnOk result (LogWritten path.now store.now (H.hosted host.old) (H.hosted host.new)) }
    ensures err { IfErr result (λ e. LogUnwritten path.now store.now e (H.hosted host.old) (H.hosted host.new)) }
    ensures none_out { objects_out (H.hosted host.new) ≡ 0 }
{
    match text_of_store(alloc, store) {
        Ok(text) => write_file(host, path, &text),
        Err(Memory) => Err(WriteFault::Memory),
    }
}

// Writes the log of the history of a store to the file of a path, where one is given. What comes back is why it wasn't written whole, if it
// wasn't.
fn log_history<H: Host>(
    alloc: Global,
    host: &mut H,
    path: &Option<Text>,
    store: &Store,
) -> Option<WriteFault>
    requires none_out { objects_out (H.hosted host.old) ≡ 0 }
    ensures logs { Logs path.now store.now result (H.hosted host.old) (H.hosted host.new) }
    ensures none_out { objects_out (H.hosted host.new) ≡ 0 }
{
    match path {
        Some(path) => write_log(alloc, host, path, store).err(),
        None => None,
    }
}

// The status of a command that wrote a log and then ended with a status: what was wrong with the log stands before it.
fn status_after(fault: Option<WriteFault>, status: Status) -> Status
    ensures { result.code ≡ status_code fault status.code }
{
    match fault {
        None => status,
        Some(WriteFault::Make) => Status { code: 6 },
        Some(WriteFault::Write) => Status { code: 4 },
        Some(WriteFault::Memory) => Status { code: 5 },
    }
}

/// Writes the log of the history of a store to the file of a path, where one is given, with the first of all orders that meet the history, and
/// then prints a line. The status is 0 where all was written whole; 4 where a write failed; 5 where memory ran out; and 6 where the file
/// couldn't be made. What is wrong with the log stands before what is wrong with the line, which is printed all the same.
pub fn log_and_print<H: Host>(
    alloc: Global,
    host: &mut H,
    log: &Option<Text>,
    store: &Store,
    line: &[u8],
) -> Status
    requires none_out { objects_out (H.hosted host.old) ≡ 0 }
    ensures told { LogsAndPrints log.now store.now line.now (H.hosted host.old) result.code (H.hosted host.new) }
    ensures none_out { objects_out (H.hosted host.new) ≡ 0 }
{
    let fault = log_history(alloc, host, log, store);
    let printed = print(host, line, Status { code: 0 });
    status_after(fault, printed)
}
