// The command `serve`.
ghost use Rattle.std.specs.Prelude.{◌≡◌, ◌≤◌, ◌++◌, ℕ, List, [], ◌∷◌, map, Some, IfOk, IfErr};
ghost use Rattle.cell_base.specs.declared.level.Level.{Level as AtLevel};
ghost use Rattle.link_traits.specs.declared.host.HostFault.{HostFault as Fault};
ghost use Rattle.link_traits.specs.Host.{objects_out};
ghost use Rattle.history_core.specs.Chronicle.{Chronicle, IsLegalChronicle};
ghost use Rattle.turn_lock.specs.Passes.{first_pass};
ghost use Rattle.turn_lock.specs.Views.{all_parts};
ghost use Rattle.doors.specs.Network.{open_failed};
ghost use Rattle.shared_book.specs.Books.{HasSeenLegal};
ghost use Rattle.shared_book.specs.Entries.{chronicle_of, event_lists};
ghost use Rattle.shared_book.specs.Fronts.{GoesOnFrom};
ghost use Rattle.serve_command.specs.Serving.{status_of as status_following, Ran, Ends, GoesOn, Serves};

use crate::line::line_of;
use crate::manning::{leave, man, rooms};
use crate::start::{start, status_of, tell_fault};
use cell_base::{Level, Memory};
use command_line::{Progress as Verbosity, ServeOptions};
use door_workers::{Progress, serve_doors};
use doors::Network;
use held_values::without;
use host_calls::{Object, Status, tell_fault as tell, tell_memory};
use link_traits::{Host, HostFault};
use log_file::log_and_print;
use shared_book::{Pass, Shared};
use std::alloc::Global;
use std::io;
use std::sync::Wait;
use std::thread::Threads;
use valid_writes::Store;

// The word of a level.
fn word_of(level: Level) -> &'static str {
    match level {
        Level::Rc => "rc",
        Level::Ra => "ra",
        Level::Cc => "cc",
    }
}

// Whether lines on standard error tell of each link.
fn progress_of(options: &ServeOptions) -> Progress {
    match options.progress {
        Verbosity::Told => Progress::Told,
        Verbosity::Quiet => Progress::Silent,
    }
}

// Tells where the server listens.
fn tell_start<R: Eprint>(rt: &R, options: &ServeOptions) {
    if progress_of(options) == Progress::Told {
        let (listen, level) = (options.listen.as_str(), word_of(options.level));
        let (seed, workers) = (options.seed, options.workers);
        let _ = eprintln!(rt;
            "listening at {listen}, level {level}, seed {seed}, {workers} connections at once"
        );
    }
}

// Opens the doors, serves the links that come in by them until all workers have ended, and gives the doors back. Answers the workers' fault, if
// they have one.
fn run<R: Threads + Wait + Eprint + Sync, N: Network>(
    rt: &R,
    alloc: Global,
    network: &mut N,
    shared: &Shared,
    pass: &mut Pass,
    options: &ServeOptions,
) -> Result<Option<HostFault>, HostFault>
    requires workers { options.now.workers ≤ 64 }
    requires pass { pass.old ≡ first_pass shared.now }
    ensures ok { IfOk result (λ fault. (history : Chronicle) → IsLegalChronicle history → GoesOnFrom history pass.new →
        Ran options.now (chronicle_of shared.now.start) history (N.networked network.old) (event_lists pass.new) fault (N.networked network.new)) }
    ensures failed { IfErr result (λ fault. fault ≡ HostFault.Failed → N.networked network.new ≡ open_failed options.now.listen options.now.workers (N.networked network.old)) }
    ensures memory { IfErr result (λ fault. fault ≡ HostFault.Memory → N.networked network.new ≡ N.networked network.old) }
    ensures lock { IfOk result (λ fault. pass.new.lock ≡ shared.now) }
    ensures parts { IfOk result (λ fault. pass.new.parts ≡ all_parts) }
{
    let mut rooms = rooms(alloc, options.workers, options.accept)?;
    let mut workers = Vec::with_capacity(alloc, options.workers as usize)?;
    let mut doors = match network.doors(&options.listen, options.workers) {
        Ok(doors) => doors,
        Err(fault) => {
            workers.destroy_empty();
            return Err(fault);
        }
    };
    tell_start(rt, options);
    man(
        rt,
        shared,
        pass,
        options,
        &mut doors,
        &mut rooms,
        &mut workers,
    );
    serve_doors(rt, alloc, options.level, progress_of(options), &mut workers);
    let fault = leave(shared, pass, &mut workers, &mut doors);
    workers.destroy_empty();
    network.doors_back(doors);
    Ok(fault)
}

// Writes the log, where one is asked for, and prints the line.
fn end<H: Host>(alloc: Global, host: &mut H, options: &ServeOptions, store: &Store) -> Status
    requires none_out { objects_out (H.hosted host.old) ≡ 0 }
    ensures ends { Ends options.now store.now (H.hosted host.old) result.code (H.hosted host.new) }
    ensures none_out { objects_out (H.hosted host.new) ≡ 0 }
{
    match line_of(alloc, store.history()) {
        Ok(line) => log_and_print(alloc, host, &options.log, store, &line),
        Err(Memory) => Status { code: 5 },
    }
}

// The status of a server whose workers have this fault, if they have one, and which ended with that status.
fn status_after(fault: Option<HostFault>, status: Status) -> Status
    ensures { result.code ≡ status_following fault status.code }
{
    match fault {
        None => status,
        Some(HostFault::Memory) => Status { code: 5 },
        Some(HostFault::Failed) => Status { code: 6 },
    }
}

// The log that is asked for, and the output where none is.
fn log_of(options: &ServeOptions) -> Object<'_> {
    match &options.log {
        Some(path) => Object::of_option("--log ", path.as_str()),
        None => Object::named("standard output"),
    }
}

// What is written at the end: the log, where one is asked for, and the line.
fn written_of(options: &ServeOptions) -> Object<'_> {
    match &options.log {
        Some(path) => Object {
            before: "--log ",
            name: path.as_str(),
            after: ", or standard output",
        },
        None => Object::named("standard output"),
    }
}

// Tells on standard error why the workers ended before their time, or where the log or the line couldn't be written.
fn tell_conclusion<R: Eprint>(
    rt: &R,
    alloc: Global,
    options: &ServeOptions,
    fault: Option<HostFault>,
    reason: Option<io::Error>,
    code: u8,
) {
    match (fault, code) {
        (Some(HostFault::Memory), _) | (None, 5) => tell_memory(rt, "serve"),
        (Some(HostFault::Failed), _) => {
            let address = Object::named(options.listen.as_str());
            tell(
                rt,
                alloc,
                "serve",
                address,
                None,
                "accepting a connection failed",
            );
        }
        (None, 4) => tell(
            rt,
            alloc,
            "serve",
            written_of(options),
            reason,
            "a write failed",
        ),
        (None, 6) => tell(
            rt,
            alloc,
            "serve",
            log_of(options),
            reason,
            "it can't be made",
        ),
        _ => {}
    }
}

// Tells on standard error that memory ran out before a door was opened. Where the system opened none, the network has told why.
fn tell_unopened<R: Eprint>(rt: &R, fault: HostFault) {
    if fault == HostFault::Memory {
        tell_memory(rt, "serve");
    }
}

// The status of a server that opened no door.
fn status_unopened(fault: HostFault) -> Status
    ensures { result.code ≡ status_following (Some fault) 0 }
{
    match fault {
        HostFault::Memory => Status { code: 5 },
        HostFault::Failed => Status { code: 6 },
    }
}

// Ends with the store of the history, and lets go of it. The workers have this fault, if they have one.
fn conclude<R: Eprint, H: Host>(
    rt: &R,
    alloc: Global,
    host: &mut H,
    options: &ServeOptions,
    store: Store,
    fault: Option<HostFault>,
) -> Status
    requires none_out { objects_out (H.hosted host.old) ≡ 0 }
    ensures ends { (end_code : ℕ) × Ends options.now store (H.hosted host.old) end_code (H.hosted host.new) × (result.code ≡ status_following fault end_code) }
    ensures none_out { objects_out (H.hosted host.new) ≡ 0 }
{
    let status = end(alloc, host, options, &store);
    tell_conclusion(rt, alloc, options, fault, host.reason(), status.code);
    without(store, status_after(fault, status))
}

// Serves over this shared history, of which the pass has all parts, and ends.
fn serve_shared<R: Threads + Wait + Eprint + Sync, H: Host, N: Network>(
    rt: &R,
    alloc: Global,
    host: &mut H,
    network: &mut N,
    options: &ServeOptions,
    shared: Shared,
    mut pass: Pass,
) -> Status
    requires workers { options.now.workers ≤ 64 }
    requires pass { pass ≡ first_pass shared }
    requires none_out { objects_out (H.hosted host.old) ≡ 0 }
    ensures goes_on { GoesOn options.now (chronicle_of shared.start) (N.networked network.old) (H.hosted host.old) result.code (N.networked network.new) (H.hosted host.new) }
    ensures none_out { objects_out (H.hosted host.new) ≡ 0 }
{
    match run(rt, alloc, network, &shared, &mut pass, options) {
        Ok(fault) => {
            let store = shared.finish(pass);
            conclude(rt, alloc, host, options, store, fault)
        }
        Err(fault) => {
            let status = without((shared, pass), status_unopened(fault));
            tell_unopened(rt, fault);
            status
        }
    }
}

// Serves with this store, and ends.
fn serve_with<R: Threads + Wait + Eprint + Sync, H: Host, N: Network>(
    rt: &R,
    alloc: Global,
    host: &mut H,
    network: &mut N,
    options: &ServeOptions,
    store: Store,
) -> Status
    requires workers { options.now.workers ≤ 64 }
    requires none_out { objects_out (H.hosted host.old) ≡ 0 }
    ensures goes_on { GoesOn options.now store (N.networked network.old) (H.hosted host.old) result.code (N.networked network.new) (H.hosted host.new) }
    ensures none_out { objects_out (H.hosted host.new) ≡ 0 }
{
    match Shared::new(alloc, store) {
        Ok((shared, pass)) => serve_shared(rt, alloc, host, network, options, shared, pass),
        Err(back) => {
            let status = without(back, Status { code: 5 });
            tell_memory(rt, "serve");
            status
        }
    }
}

/// Serves the links that come in at an address, each as a session over one history, until each worker has accepted as many links as it may or no
/// more come; then writes the log of the history, where one is asked for, and prints how many sessions, transactions and events there were. The
/// history begins with what the setup of the options left, where there is one: its statements are run before a door is opened.
///
/// The status is 0 where all was written whole; 1 where the setup failed, or left more than a history begins with; 3 where reading its file
/// failed; 4 where a write failed; 5 where memory ran out, before a door was opened, at a worker's accept or at the end; and 6 where the file of
/// the setup couldn't be opened, no doors were opened, accepting a link failed, or the file of the log couldn't be made. A link that fails, or
/// whose session runs out of memory, changes no status. Where the status isn't 0, one line on standard error tells the cause.
pub fn serve<R: Threads + Wait + Eprint + Sync, H: Host, N: Network>(
    rt: &R,
    alloc: Global,
    host: &mut H,
    network: &mut N,
    options: &ServeOptions,
) -> Status
    requires workers { options.now.workers ≤ 64 }
    requires none_out { objects_out (H.hosted host.old) ≡ 0 }
    ensures serves { Serves options.now (N.networked network.old) (H.hosted host.old) result.code (N.networked network.new) (H.hosted host.new) }
    ensures none_out { objects_out (H.hosted host.new) ≡ 0 }
{
    match start(alloc, host, options) {
        Ok(store) => serve_with(rt, alloc, host, network, options, store),
        Err(fault) => {
            tell_fault(rt, alloc, options, host.reason(), &fault);
            status_of(&fault)
        }
    }
}
