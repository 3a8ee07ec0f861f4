// Lines on standard error that tell what workers do. They are short, and hold no byte of a client.
use link_traits::HostFault;
use session_core::{End, Served};

/// Whether lines on standard error tell of each link.
#[derive(Clone, Copy, Debug, PartialEq, Eq)]
pub enum Progress {
    /// They tell.
    Told,
    /// There are none.
    Silent,
}

/// Why a session ended, in words.
fn reason(end: End) -> &'static str {
    match end {
        End::Terminated => "the client said so",
        End::Closed => "the input ended",
        End::Cut => "the input ended inside a message",
        End::Protocol(_) => "the bytes are no messages",
        End::Cancelled => "it asked to cancel a query",
        End::ReadFault => "a read failed",
        End::WriteFault => "a write failed",
        End::Memory => "out of memory",
        End::Refused(_) => "the start was refused",
        End::Spent => "more bytes were wanted than are read",
    }
}

/// Tells that a link came in by the door of this worker. Workers are numbered from 1.
pub fn tell_came<R: Eprint>(rt: &R, progress: Progress, worker: usize) {
    if progress == Progress::Told {
        let _ = eprintln!(rt; "worker {worker}: a link came in");
    }
}

/// Tells what became of the session of a link that went back.
pub fn tell_went<R: Eprint>(rt: &R, progress: Progress, worker: usize, served: Served) {
    if progress == Progress::Told {
        let why = reason(served.end);
        let _ = match served.session {
            Some(session) => eprintln!(rt; "worker {worker}: session {session} ended: {why}"),
            None => eprintln!(rt; "worker {worker}: no session was opened: {why}"),
        };
    }
}

/// Tells that no further link comes.
pub fn tell_none<R: Eprint>(rt: &R, progress: Progress, worker: usize) {
    if progress == Progress::Told {
        let _ = eprintln!(rt; "worker {worker}: no further link comes");
    }
}

/// Tells why no further link is accepted.
pub fn tell_fault<R: Eprint>(rt: &R, progress: Progress, worker: usize, fault: HostFault) {
    if progress == Progress::Told {
        let _ = eprintln!(rt; "worker {worker}: no further link is accepted: {fault}");
    }
}
