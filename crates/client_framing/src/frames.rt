// The reader of a client's messages.
ghost use Rattle.std.specs.Prelude.{◌≡◌, ◌≢◌, ◌≤◌, ◌++◌, [], length, drop, false, Some, None, Err, OnOk, OnErr, IfOk, IfErr, IfSome, IsNone};
ghost use Rattle.client_framing.specs.Fronts.{TakesFront, IsPartial, HasFault};

use crate::main_phase::message_of;
use crate::opening::opening_of;
use crate::{FrameFault, FrontendMessage};
use cell_base::Memory;
use std::alloc::Global;
use std::marker::Model;

/// The bytes of a stream of a client's messages that haven't been taken as messages yet. Contracts see whether the startup
/// has been taken, those bytes, and the fault that stands at their front, once it has been answered.
#[derive(Debug, Drop)]
pub struct Frames {
    alloc: Global,
    started: bool,
    // The bytes from `start` on are held; those before it have been taken.
    bytes: Vec<u8>,
    start: usize,
    fault: Option<FrameFault>,
}

impl Model for Frames {
    ghost use Rattle.std.specs.Prelude.{drop, length, ◌≤◌, IfSome};
    ghost use Rattle.client_framing.specs.Fronts.{Held, HasFault};

    ghost Value = { Held };

    ghost view = { λ f. record { started = f.started; rest = drop f.start f.bytes.items; fault = f.fault } };

    // A fault that has been answered stands for whatever is held.
    ghost invariant = { λ f. (f.start ≤ length f.bytes.items) × IfSome f.fault (λ fault. HasFault f.started (drop f.start f.bytes.items) fault) };
}

impl Frames {
    ghost use Rattle.client_framing.specs.Spelling.{phase_after};

    /// A reader at the beginning of a stream. Takes no memory.
    pub fn new(alloc: Global) -> Frames
        ensures { result ≡ record { started = false; rest = []; fault = None } }
    {
        Frames {
            alloc,
            started: false,
            bytes: Vec::new(alloc),
            start: 0,
            fault: None,
        }
    }

    /// Takes the next piece of the stream, of any size. Out of memory, nothing changes.
    pub fn feed(&mut self, piece: &[u8]) -> Result<(), Memory>
        ensures ok { OnOk result (self.new ≡ record self.old { rest = self.old.rest ++ piece.now }) }
        ensures err { OnErr result (self.new ≡ self.old) }
    {
        self.drop_taken();
        self.bytes.extend_from_slice(piece)?;
        Ok(())
    }

    // Lets the taken bytes go once they are as many as the held ones, so that each byte is moved about once.
    fn drop_taken(&mut self)
        ensures { self.new ≡ self.old }
    {
        let held = self.bytes.len() - self.start;
        if self.start >= held {
            self.bytes.rotate_left(self.start);
            self.bytes.truncate(held);
            self.start = 0;
        }
    }

    /// Takes the first whole message. `None` comes exactly where what is held begins with neither a message nor a fault.
    /// A fault other than `Memory` is answered for good; out of memory, nothing changes.
    pub fn next(&mut self) -> Result<Option<FrontendMessage>, FrameFault>
        ensures front { IfOk result (λ r. IfSome r (λ message. TakesFront self.old.started self.old.rest message self.new.rest)) }
        ensures started { IfOk result (λ r. IfSome r (λ message. self.new.started ≡ phase_after self.old.started message)) }
        ensures sound { IfOk result (λ r. (self.old.fault ≡ None) × (self.new.fault ≡ None)) }
        ensures partial { IfOk result (λ r. IsNone r → (self.new ≡ self.old) × IsPartial self.old.started self.old.rest) }
        ensures fault { IfErr result (λ e. e ≢ FrameFault.Memory → (self.new ≡ record self.old { fault = Some e }) × HasFault self.old.started self.old.rest e) }
        ensures memory { IfErr result (λ e. e ≡ FrameFault.Memory → self.new ≡ self.old) }
        ensures kept { IfSome self.old.fault (λ e. result ≡ Err e) }
    {
        if let Some(fault) = self.fault {
            return Err(fault);
        }
        match first_message(self.alloc, self.started, &self.bytes[self.start..]) {
            Ok(None) => Ok(None),
            Ok(Some((message, len))) => {
                self.start += len;
                if let FrontendMessage::Startup(_) = &message {
                    self.started = true;
                }
                Ok(Some(message))
            }
            Err(FrameFault::Memory) => Err(FrameFault::Memory),
            Err(fault) => {
                self.fault = Some(fault);
                Err(fault)
            }
        }
    }

    /// The number of bytes held.
    pub fn rest(&self) -> usize
        ensures { result ≡ length self.now.rest }
    {
        self.bytes.len() - self.start
    }
}

// The first message of the phase, and how many bytes it takes.
fn first_message(
    alloc: Global,
    started: bool,
    bytes: &[u8],
) -> Result<Option<(FrontendMessage, usize)>, FrameFault>
    ensures found { IfOk result (λ r. IfSome r (λ x. TakesFront started bytes.now x.0 (drop x.1 bytes.now))) }
    ensures within { IfOk result (λ r. IfSome r (λ x. x.1 ≤ length bytes.now)) }
    ensures partial { IfOk result (λ r. IsNone r → IsPartial started bytes.now) }
    ensures bad { IfErr result (λ e. e ≢ FrameFault.Memory → HasFault started bytes.now e) }
{
    if started {
        message_of(alloc, bytes)
    } else {
        opening_of(alloc, bytes)
    }
}
