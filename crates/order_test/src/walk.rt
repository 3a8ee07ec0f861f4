// How the events of a history are gone over.
ghost use Rattle.order_test.specs.Unkept.{IsKeptBelow};
ghost use Rattle.order_test.specs.Scenes.{IsSurvey, IsScene};

use crate::scene::Scene;
use crate::survey::Survey;

/// How the events of a history are gone over for the first of which an order doesn't keep what it asks. It decides how soon that one is found, and
/// not which it is: the test judges the events from the place on at which the walk ended.
pub trait EventWalk {
    /// A place before which the order keeps what each event asks. It keeps what those before the start ask.
    fn kept_up_to(&self, survey: &Survey<'_>, scene: &Scene<'_>, start: usize) -> usize
        requires survey { IsSurvey survey.now }
        requires scene { IsScene survey.now scene.now }
        requires kept { IsKeptBelow survey.now.events.now survey.now.order.now start }
        ensures { IsKeptBelow survey.now.events.now survey.now.order.now result };
}

/// The walk that leaves all events to the test, which judges one after another.
#[derive(Clone, Copy, Debug)]
pub struct InTurn;

impl EventWalk for InTurn {
    fn kept_up_to(&self, _survey: &Survey<'_>, _scene: &Scene<'_>, start: usize) -> usize {
        start
    }
}
