// What holds of the rows of tables in the histories that the program makes.
ghost use Rattle.std.specs.Prelude.{ℕ, List};
ghost use Rattle.cell_base.specs.declared.level.Level.{Level};
ghost use Rattle.history_core.specs.Chronicle.{Chronicle};
ghost use Rattle.link_traits.specs.Traffic.{Sight};
ghost use Rattle.session_core.specs.declared.served.Served.{Served as Outcome};
ghost use Rattle.session_hall.specs.declared.client.Client.{Client};
ghost use Rattle.sim_command.specs.Runs.{Moment, Pick, Runs, at_first};
ghost use Rattle.sim_command.specs.Simulations.{IsSimulation};
ghost use Rattle.monkey_server.specs.Program.{ServesAlone};
ghost use Rattle.statement_laws.specs.WholeRows.{ShowsNoUnset};

/// However many clients take their steps in whatever order over one history, from an empty one on: no read of it shows a cell without a
/// value. So it is of each simulation of a seed.
pub fn simulations_are_whole()
    ensures runs { (level : Level) (clients : List Client) (picks : List Pick) (last : Moment) → Runs level clients (at_first level) picks last →
        ShowsNoUnset last.history.events }
    ensures simulations { (level : Level) (seed sessions queries : ℕ) (history : Chronicle) → IsSimulation level seed sessions queries history →
        ShowsNoUnset history.events }
{}

/// No read of the history of a session that is served alone shows a cell without a value.
pub fn pipe_is_whole()
    ensures { (level : Level) (words : List ℕ) (before : Sight) (outcome : Outcome) (after : Sight) →
        (alone : ServesAlone level words before outcome after) → ShowsNoUnset alone.past.seen.events }
{}
