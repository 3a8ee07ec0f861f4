// Whether the order meets the history, once all events are there.
ghost use Rattle.std.specs.Prelude.{ℕ, List, IsTrue, length};
ghost use Rattle.history_core.specs.declared.event.Event.{Event};
ghost use Rattle.history_core.specs.Relations.{Meets};
ghost use Rattle.order_test.specs.Unkept.{HoldsAll};
ghost use Rattle.right_logs.specs.Passes.{StandsFor, Stands};

use crate::kept::all_are_kept;
use crate::pass::Pass;
use order_test::Places;

/// Whether it is clear that the order meets the history.
pub fn order_is_met(pass: &Pass, places: &Places) -> bool
    requires { Stands places.now.at.items pass.now }
    ensures { IsTrue result → (order : List ℕ) (events : List Event) → HoldsAll (length places.now.at.items) order → StandsFor order places.now.at.items events pass.now → Meets events order }
{
    if !pass.met {
        return false;
    }
    if pass.txns.len() != places.at.len() {
        return false;
    }
    all_are_kept(pass, places)
}
