// What holds of a run of `serve`.
ghost use Rattle.std.specs.Prelude.{ℕ};
ghost use Rattle.link_traits.specs.Host.{Hosted};
ghost use Rattle.history_core.specs.Chronicle.{Chronicle};
ghost use Rattle.doors.specs.Network.{Networked};
ghost use Rattle.command_line.specs.declared.serve.ServeOptions.{ServeOptions};
ghost use Rattle.serve_command.specs.Starting.{StartsBy};
ghost use Rattle.serve_command.specs.Serving.{Served};
ghost use Rattle.statement_laws.specs.WholeRows.{ShowsNoUnset};
ghost use Rattle.program_laws.specs.ServedSessions.{links_of, AreSessions};

/// Each link that a server served is one session of its own in the one history, or has no event there: its record begins with the opening of
/// the session that its outcome names, and is all that the history has of this session. No two links, of the same worker or of two, are the
/// same session, and none is a session of what the server started from. Each event that came after the start stands in the record of a link.
pub fn served_links_are_sessions()
    ensures { (options : ServeOptions) (start : Chronicle) (before : Networked) (host_before : Hosted) (code : ℕ) (after : Networked)
        (host_after : Hosted) → (served : Served options start before host_before code after host_after) →
        AreSessions (links_of served.parts) start served.history }
{}

/// No read of the one history of a server shows a cell without a value, neither from the history nor of an own write: whatever links come in,
/// at whatever levels their transactions run, and however the workers' calls come one after another. It is so with a setup and without one.
pub fn serve_is_whole()
    ensures { (options : ServeOptions) (host_first host_before : Hosted) (start : Chronicle) (before : Networked) (code : ℕ) (after : Networked)
        (host_after : Hosted) → StartsBy options.setup options.level host_first start host_before →
        (served : Served options start before host_before code after host_after) → ShowsNoUnset served.history.events }
{}
