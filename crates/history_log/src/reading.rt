// Reads a text.
ghost use Rattle.std.specs.Prelude.{◌≡◌, ◌≢◌, ◌≤◌, ◌<◌, ◌∷◌, ◌++◌, [], ℕ, All, length, IfOk, IfErr, OnOk};
ghost use Rattle.history_log.specs.declared.trace.Trace.{Trace};
ghost use Rattle.history_log.specs.declared.version.Version.{Version};
ghost use Rattle.history_log.specs.Cut.{cut_at};
ghost use Rattle.history_log.specs.Spelling.{head_line};
ghost use Rattle.history_log.specs.Reading.{Finds};
ghost use Rattle.history_log.specs.Log.{IsLog, IsNotWide, HasNoWide};
ghost use Rattle.history_log.specs.Draft.{IsRight, said};
ghost use Rattle.history_log.specs.Faults.{IsCutInto, IsCutShort, HasLineFault, HasFault};

use crate::Trace;
use crate::draft::{Draft, Place};
use crate::lines::{take_leading, take_line};
use crate::log_fault::LogFault;
use crate::misread::Misread;
use crate::parts::first_part;
use crate::version::Version;
use cell_base::{Items, Level};
use std::alloc::Global;

/// The greatest number of bytes of a text.
const MOST_BYTES: usize = 268_435_456;

/// The history whose text the bytes are, in any version. They are of no other history, and where there are at most 268,435,456
/// of them, this one is read unless the call is out of memory.
pub fn read(alloc: Global, bytes: &[u8]) -> Result<Trace, LogFault>
    ensures found { IfOk result (λ trace. (v : Version) × IsLog v trace bytes.now) }
    ensures no_wide { IfOk result (λ trace. All HasNoWide trace.events × All (λ x. IsNotWide x.1) trace.initial) }
    ensures within { OnOk result (length bytes.now ≤ 268435456) }
    ensures fault { IfErr result (λ e. e ≢ LogFault.Memory → HasFault bytes.now e) }
    ensures only { (v : Version) (t : Trace) → IsLog v t bytes.now → length bytes.now ≤ 268435456
        → IfOk result (λ trace. trace ≡ t) × IfErr result (λ e. e ≡ LogFault.Memory) }
{
    if bytes.len() > MOST_BYTES {
        return Err(LogFault::TooLong);
    }
    let Some((first, rest)) = first_part(bytes, b'\n') else {
        return Err(LogFault::Cut);
    };
    let Some((version, level)) = head_of(first) else {
        return Err(LogFault::Version);
    };
    let mut draft = Draft {
        version,
        place: Place::Body,
        trace: Trace {
            level,
            initial: Items::new(alloc),
            events: Items::new(alloc),
            order: Items::new(alloc),
        },
    };
    read_lines(alloc, &mut draft, rest)?;
    Ok(draft.trace)
}

/// The version and the level of a head.
pub fn head_of(line: &[u8]) -> Option<(Version, Level)>
    ensures { Finds (λ x written. written ≡ head_line x.0 x.1) result line.now }
{
    match line {
        b"monkey-log 1 rc" => Some((Version::One, Level::Rc)),
        b"monkey-log 1 ra" => Some((Version::One, Level::Ra)),
        b"monkey-log 1 cc" => Some((Version::One, Level::Cc)),
        b"monkey-log 2 rc" => Some((Version::Two, Level::Rc)),
        b"monkey-log 2 ra" => Some((Version::Two, Level::Ra)),
        b"monkey-log 2 cc" => Some((Version::Two, Level::Cc)),
        b"monkey-log 3 rc" => Some((Version::Three, Level::Rc)),
        b"monkey-log 3 ra" => Some((Version::Three, Level::Ra)),
        b"monkey-log 3 cc" => Some((Version::Three, Level::Cc)),
        _ => None,
    }
}

/// Reads the lines after the head, and leaves the whole history in the draft.
fn read_lines(alloc: Global, draft: &mut Draft, text: &[u8]) -> Result<(), LogFault>
    requires right { IsRight draft.old }
    requires place { draft.old.place ≡ Place.Body }
    requires first { length (said draft.old) ≡ 1 }
    requires few { length text.now < 268435456 }
    ensures right { OnOk result (IsRight draft.new) }
    ensures done { OnOk result (draft.new.place ≡ Place.Done) }
    ensures said { OnOk result (IsCutInto (said draft.old ++ cut_at 10 text.now) (said draft.new) []) }
    ensures fault { IfErr result (λ e. e ≢ LogFault.Memory → HasLineFault (said draft.old ++ cut_at 10 text.now) e) }
{
    let mut rest = text;
    let mut number = 1;
    while let Some((line, after)) = first_part(rest, b'\n') {
        number += 1;
        match take_line(alloc, draft, line) {
            Ok(()) => {
                let (last, left) = take_leading(draft, number, after)?;
                number = last;
                rest = left;
            }
            Err(Misread::Form) => return Err(LogFault::Line(number)),
            Err(Misread::Memory) => return Err(LogFault::Memory),
        }
    }
    finish(draft, rest)
}

/// Whether the history is whole, where nothing but this is left.
fn finish(draft: &Draft, rest: &[u8]) -> Result<(), LogFault>
    requires { IsRight draft.now }
    ensures done { OnOk result ((draft.now.place ≡ Place.Done) × (rest.now ≡ [])) }
    ensures fault { IfErr result (λ e. (e ≡ LogFault.Cut) × IsCutShort (said draft.now ++ rest.now ∷ [])) }
{
    match draft.place {
        Place::Done => {
            if rest.is_empty() {
                Ok(())
            } else {
                Err(LogFault::Cut)
            }
        }
        _ => Err(LogFault::Cut),
    }
}
