// The judgement of the bytes of a file.
ghost use Rattle.std.specs.Prelude.{◌≡◌, IfOk, OnOk};
ghost use Rattle.history_log.specs.declared.version.Version.{Version};
ghost use Rattle.history_log.specs.Log.{IsLog};
ghost use Rattle.history_log.specs.Faults.{HasFault, HasFewBytes};
ghost use Rattle.history_check.specs.Breaches.{AreRight, IsFirstEventBreach, IfBreach};
ghost use Rattle.cycle_report.specs.Judged.{IsJudged};
ghost use Rattle.check_command.specs.JudgeVerdict.{IsBrokenHistory, IsJudgedHistory, IsJudgeVerdict, judgement_code};

use crate::judge_lines::judgement_lines;
use crate::lines::{breach_line, fault_line};
use crate::verdict::{RIGHT, Verdict, WRONG};
use cell_base::Memory;
use cycle_report::{Judgement, judge};
use history_check::{Breach, CheckFault};
use history_log::{LogFault, Trace, read};
use host_calls::Status;
use std::alloc::Global;

/// What is judged of the bytes: of the history of a log whose events are right, and else what is wrong with them.
pub fn judge_verdict_of(alloc: Global, bytes: &[u8]) -> Result<Verdict, Memory>
    ensures { IfOk result (λ verdict. IsJudgeVerdict bytes.now verdict.line.items verdict.status.code) }
{
    match read(alloc, bytes) {
        Ok(trace) => trace_judged(alloc, bytes, &trace),
        Err(LogFault::Memory) => Err(Memory),
        Err(fault) => fault_judged(alloc, bytes, fault),
    }
}

/// The same of a history that was read from the bytes.
fn trace_judged(alloc: Global, bytes: &[u8], trace: &Trace) -> Result<Verdict, Memory>
    requires few { HasFewBytes bytes.now }
    requires log { (version : Version) × IsLog version trace.now bytes.now }
    ensures { IfOk result (λ verdict. IsJudgeVerdict bytes.now verdict.line.items verdict.status.code) }
{
    judged_by(alloc, bytes, trace, judge(alloc, trace))
}

/// The same, by what was judged of the history.
fn judged_by(
    alloc: Global,
    bytes: &[u8],
    trace: &Trace,
    found: Result<Judgement, CheckFault>,
) -> Result<Verdict, Memory>
    requires few { HasFewBytes bytes.now }
    requires log { (version : Version) × IsLog version trace.now bytes.now }
    requires right { OnOk found (AreRight trace.now.initial trace.now.events) }
    requires judged { IfOk found (IsJudged trace.now.events) }
    requires breach { IfBreach found (IsFirstEventBreach trace.now.initial trace.now.events) }
    ensures { IfOk result (λ verdict. IsJudgeVerdict bytes.now verdict.line.items verdict.status.code) }
{
    match found {
        Ok(judgement) => history_judged(alloc, bytes, &judgement),
        Err(CheckFault::Breach(breach)) => breach_judged(alloc, bytes, &breach),
        Err(CheckFault::Memory) => Err(Memory),
    }
}

/// The status with which a judgement is printed.
fn status_of(judgement: &Judgement) -> Status
    ensures { result.code ≡ judgement_code judgement.now }
{
    match judgement {
        Judgement::Top(_) => RIGHT,
        Judgement::Upto(_, _, _) => RIGHT,
        Judgement::Nothing(_) => WRONG,
    }
}

/// The verdict on a log of which this is judged.
fn history_judged(alloc: Global, bytes: &[u8], judgement: &Judgement) -> Result<Verdict, Memory>
    requires { IsJudgedHistory bytes.now judgement.now }
    ensures { IfOk result (λ verdict. IsJudgeVerdict bytes.now verdict.line.items verdict.status.code) }
{
    let line = judgement_lines(alloc, judgement)?;
    let status = status_of(judgement);
    Ok(Verdict { line, status })
}

/// The verdict on a log with this breach of its events.
fn breach_judged(alloc: Global, bytes: &[u8], breach: &Breach) -> Result<Verdict, Memory>
    requires { IsBrokenHistory bytes.now breach.now }
    ensures { IfOk result (λ verdict. IsJudgeVerdict bytes.now verdict.line.items verdict.status.code) }
{
    let line = breach_line(alloc, breach)?;
    Ok(Verdict {
        line,
        status: WRONG,
    })
}

/// The verdict on bytes with this fault.
fn fault_judged(alloc: Global, bytes: &[u8], fault: LogFault) -> Result<Verdict, Memory>
    requires { HasFault bytes.now fault }
    ensures { IfOk result (λ verdict. IsJudgeVerdict bytes.now verdict.line.items verdict.status.code) }
{
    let line = fault_line(alloc, fault)?;
    Ok(Verdict {
        line,
        status: WRONG,
    })
}
