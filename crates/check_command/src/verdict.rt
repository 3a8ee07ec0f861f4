// The verdict on the bytes of a file.
ghost use Rattle.std.specs.Prelude.{IfOk, OnOk};
ghost use Rattle.history_log.specs.declared.version.Version.{Version};
ghost use Rattle.history_log.specs.Log.{IsLog};
ghost use Rattle.history_log.specs.Faults.{HasFault, HasFewBytes};
ghost use Rattle.history_check.specs.Breaches.{IfBreach};
ghost use Rattle.history_check.specs.Orders.{IsRightTrace, IsFirstBreach};
ghost use Rattle.right_logs.specs.Glimpses.{IsJudgedLog};
ghost use Rattle.check_command.specs.Verdict.{IsBreachedLog, IsRightLog, IsVerdict};

use crate::lines::{breach_line, fault_line, ok_line};
use cell_base::Memory;
use cell_writers::CellNotes;
use held_values::without;
use history_check::{Breach, CheckFault, check_by, check_order_by};
use history_log::{LogFault, Trace, read};
use host_calls::Status;
use order_test::EventWalk;
use right_logs::{Glimpse, glimpse_of};
use std::alloc::Global;

/// What is printed of a file.
#[derive(Debug, Drop)]
pub struct Verdict {
    /// The line, with its line feed.
    pub line: Vec<u8>,
    /// The status with which it is printed.
    pub status: Status,
}

pub const RIGHT: Status = Status { code: 0 };

pub const WRONG: Status = Status { code: 1 };

/// Whether the bytes are the log of a history without a breach, and else what is wrong with them. Where their order isn't clear the walk goes over
/// the events first.
pub fn verdict_of<W: EventWalk>(alloc: Global, walk: &W, bytes: &[u8]) -> Result<Verdict, Memory>
    ensures { IfOk result (λ verdict. IsVerdict bytes.now verdict.line.items verdict.status.code) }
{
    match glimpse_of(alloc, bytes) {
        Ok(Glimpse::Right) => right_verdict(alloc, bytes),
        Ok(Glimpse::Judged(cells)) => {
            let verdict = judged_verdict(alloc, walk, bytes, &cells);
            without(cells, verdict)
        }
        Ok(Glimpse::Unclear) => read_verdict(alloc, walk, bytes),
        Err(Memory) => Err(Memory),
    }
}

/// The same, where the bytes are the log of right events, of whose cells these are the numbers and the notes.
fn judged_verdict<W: EventWalk>(
    alloc: Global,
    walk: &W,
    bytes: &[u8],
    cells: &CellNotes,
) -> Result<Verdict, Memory>
    requires { IsJudgedLog bytes.now cells.now }
    ensures { IfOk result (λ verdict. IsVerdict bytes.now verdict.line.items verdict.status.code) }
{
    match read(alloc, bytes) {
        Ok(trace) => verdict_by(
            alloc,
            bytes,
            &trace,
            check_order_by(alloc, walk, cells, &trace),
        ),
        Err(LogFault::Memory) => Err(Memory),
        Err(fault) => fault_verdict(alloc, bytes, fault),
    }
}

/// The same, by all that the bytes say.
fn read_verdict<W: EventWalk>(alloc: Global, walk: &W, bytes: &[u8]) -> Result<Verdict, Memory>
    ensures { IfOk result (λ verdict. IsVerdict bytes.now verdict.line.items verdict.status.code) }
{
    match read(alloc, bytes) {
        Ok(trace) => trace_verdict(alloc, walk, bytes, &trace),
        Err(LogFault::Memory) => Err(Memory),
        Err(fault) => fault_verdict(alloc, bytes, fault),
    }
}

/// The verdict on a history that was read from the bytes.
fn trace_verdict<W: EventWalk>(
    alloc: Global,
    walk: &W,
    bytes: &[u8],
    trace: &Trace,
) -> Result<Verdict, Memory>
    requires few { HasFewBytes bytes.now }
    requires log { (version : Version) × IsLog version trace.now bytes.now }
    ensures { IfOk result (λ verdict. IsVerdict bytes.now verdict.line.items verdict.status.code) }
{
    verdict_by(alloc, bytes, trace, check_by(alloc, walk, trace))
}

/// The same, by what a check of the history found.
fn verdict_by(
    alloc: Global,
    bytes: &[u8],
    trace: &Trace,
    found: Result<(), CheckFault>,
) -> Result<Verdict, Memory>
    requires few { HasFewBytes bytes.now }
    requires log { (version : Version) × IsLog version trace.now bytes.now }
    requires right { OnOk found (IsRightTrace trace.now) }
    requires breach { IfBreach found (IsFirstBreach trace.now) }
    ensures { IfOk result (λ verdict. IsVerdict bytes.now verdict.line.items verdict.status.code) }
{
    match found {
        Ok(()) => right_verdict(alloc, bytes),
        Err(CheckFault::Breach(breach)) => breach_verdict(alloc, bytes, &breach),
        Err(CheckFault::Memory) => Err(Memory),
    }
}

/// The verdict on a right log.
fn right_verdict(alloc: Global, bytes: &[u8]) -> Result<Verdict, Memory>
    requires { IsRightLog bytes.now }
    ensures { IfOk result (λ verdict. IsVerdict bytes.now verdict.line.items verdict.status.code) }
{
    let line = ok_line(alloc)?;
    Ok(Verdict {
        line,
        status: RIGHT,
    })
}

/// The verdict on a log with this breach.
fn breach_verdict(alloc: Global, bytes: &[u8], breach: &Breach) -> Result<Verdict, Memory>
    requires { IsBreachedLog bytes.now breach.now }
    ensures { IfOk result (λ verdict. IsVerdict bytes.now verdict.line.items verdict.status.code) }
{
    let line = breach_line(alloc, breach)?;
    Ok(Verdict {
        line,
        status: WRONG,
    })
}

/// The verdict on bytes with this fault.
fn fault_verdict(alloc: Global, bytes: &[u8], fault: LogFault) -> Result<Verdict, Memory>
    requires { HasFault bytes.now fault }
    ensures { IfOk result (λ verdict. IsVerdict bytes.now verdict.line.items verdict.status.code) }
{
    let line = fault_line(alloc, fault)?;
    Ok(Verdict {
        line,
        status: WRONG,
    })
}
