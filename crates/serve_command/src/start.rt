// What a server starts from: nothing, or what a setup left.
ghost use Rattle.std.specs.Prelude.{◌≡◌, ◌⊎◌, Some, None, Ok, IfOk, IfErr};
ghost use Rattle.link_traits.specs.Host.{objects_out};
ghost use Rattle.committed_rows.specs.Start.{StartsAfter, HasNoRoom};
ghost use Rattle.serve_command.specs.Starting.{StartsBy, Unstarted, status_of_start};

use cell_base::{Level, Memory, Text};
use command_line::ServeOptions;
use committed_rows::start_after;
use history_core::InitialState;
use host_calls::{FileFault, Object, Status, read_file, tell_fault as tell, tell_memory};
use link_traits::Host;
use setup_session::{MOST_TEXT, SetupFault, run_setup};
use std::alloc::Global;
use std::io;
use thiserror::Error;
use valid_writes::Store;

/// Why a server didn't start.
#[derive(Debug, Drop, Error)]
pub enum StartFault {
    /// The file of the setup wasn't read whole.
    #[error("{0}")]
    File(FileFault),
    /// The setup failed.
    #[error("{0}")]
    Setup(SetupFault),
    /// What the setup left is more than a history begins with.
    #[error("it leaves more rows than a history begins with")]
    Heavy,
    /// Out of memory.
    #[error("out of memory")]
    Memory,
}

impl From<Memory> for StartFault {
    ghost use Rattle.std.specs.Prelude.{◌≡◌};
    ghost use Rattle.serve_command.specs.declared.start.StartFault.TheVariants as faults;

    ghost from_gives = { λ _ e. e ≡ faults.Memory };

    fn from(_: Memory) -> Self {
        StartFault::Memory
    }
}

impl From<FileFault> for StartFault {
    ghost use Rattle.std.specs.Prelude.{◌≡◌};
    ghost use Rattle.serve_command.specs.declared.start.StartFault.TheVariants as faults;

    ghost from_gives = { λ file e. e ≡ faults.File file };

    fn from(fault: FileFault) -> Self {
        StartFault::File(fault)
    }
}

impl From<SetupFault> for StartFault {
    ghost use Rattle.std.specs.Prelude.{◌≡◌};
    ghost use Rattle.serve_command.specs.declared.start.StartFault.TheVariants as faults;

    ghost from_gives = { λ setup e. e ≡ faults.Setup setup };

    fn from(fault: SetupFault) -> Self {
        StartFault::Setup(fault)
    }
}

// What was begun, where there was room for it, once what it was begun after is let go. A store costs much to check wherever it is let go.
fn with_room<S: Drop, T: Drop>(_setup: S, begun: Result<Option<T>, Memory>) -> Result<T, StartFault>
    ensures ok { IfOk result (λ made. begun ≡ Ok (Some made)) }
    ensures err { IfErr result (λ e. ((e ≡ StartFault.Heavy) × (begun ≡ Ok None)) ⊎ (e ≡ StartFault.Memory)) }
{
    match begun {
        Ok(Some(made)) => Ok(made),
        Ok(None) => Err(StartFault::Heavy),
        Err(Memory) => Err(StartFault::Memory),
    }
}

// The store that starts after what a setup left.
fn store_after(alloc: Global, level: Level, setup: Store) -> Result<Store, StartFault>
    ensures ok { IfOk result (λ store. StartsAfter level setup store) }
    ensures err { IfErr result (λ e. ((e ≡ StartFault.Heavy) × HasNoRoom level setup) ⊎ (e ≡ StartFault.Memory)) }
{
    let begun = start_after(alloc, level, setup.history());
    with_room(setup, begun)
}

// Runs the statements of the file of a path, and answers the store that starts after them.
fn set_up<H: Host>(
    alloc: Global,
    host: &mut H,
    path: &Text,
    level: Level,
) -> Result<Store, StartFault>
    requires none_out { objects_out (H.hosted host.old) ≡ 0 }
    ensures ok { IfOk result (λ store. StartsBy (Some path.now) level (H.hosted host.old) store (H.hosted host.new)) }
    ensures err { IfErr result (λ e. Unstarted (Some path.now) level (H.hosted host.old) e (H.hosted host.new)) }
    ensures none_out { objects_out (H.hosted host.new) ≡ 0 }
{
    let text = read_file(alloc, host, path, MOST_TEXT)?;
    let setup = run_setup(alloc, &text)?;
    store_after(alloc, level, setup)
}

/// The store that a server starts with: at its level, and after the setup of its options, where there is one.
pub fn start<H: Host>(
    alloc: Global,
    host: &mut H,
    options: &ServeOptions,
) -> Result<Store, StartFault>
    requires none_out { objects_out (H.hosted host.old) ≡ 0 }
    ensures ok { IfOk result (λ store. StartsBy options.now.setup options.now.level (H.hosted host.old) store (H.hosted host.new)) }
    ensures err { IfErr result (λ e. Unstarted options.now.setup options.now.level (H.hosted host.old) e (H.hosted host.new)) }
    ensures none_out { objects_out (H.hosted host.new) ≡ 0 }
{
    match &options.setup {
        Some(path) => set_up(alloc, host, path, options.level),
        None => Ok(Store::new(alloc, options.level, InitialState::empty(alloc))?),
    }
}

/// The status of a server that didn't start.
pub fn status_of(fault: &StartFault) -> Status
    ensures { result.code ≡ status_of_start fault.now }
{
    let code = match fault {
        StartFault::File(FileFault::Open) => 6,
        StartFault::File(FileFault::Read) => 3,
        StartFault::File(FileFault::Memory)
        | StartFault::Setup(SetupFault::Memory)
        | StartFault::Memory => 5,
        StartFault::Setup(_) | StartFault::Heavy => 1,
    };
    Status { code }
}

// Tells that the file of the setup wasn't read whole.
fn tell_file<R: Eprint>(
    rt: &R,
    alloc: Global,
    path: &str,
    reason: Option<io::Error>,
    fault: FileFault,
) {
    let file = Object::of_option("--setup ", path);
    match fault {
        FileFault::Open => tell(rt, alloc, "serve", file, reason, "it can't be opened"),
        FileFault::Read => tell(rt, alloc, "serve", file, reason, "a read failed"),
        FileFault::Memory => tell_memory(rt, "serve"),
    }
}

/// Tells on standard error why a server didn't start, in one line. The host has kept what the system said.
pub fn tell_fault<R: Eprint>(
    rt: &R,
    alloc: Global,
    options: &ServeOptions,
    reason: Option<io::Error>,
    fault: &StartFault,
) {
    let path = match &options.setup {
        Some(path) => path.as_str(),
        None => "",
    };
    match fault {
        StartFault::File(fault) => tell_file(rt, alloc, path, reason, *fault),
        StartFault::Memory | StartFault::Setup(SetupFault::Memory) => tell_memory(rt, "serve"),
        StartFault::Setup(_) | StartFault::Heavy => {
            let _ = eprintln!(rt; "serve: --setup {path}: {fault}");
        }
    }
}
