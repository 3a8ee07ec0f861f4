// The walk over the events of a history in several threads.
ghost use Rattle.std.specs.Prelude.{◌<◌};
ghost use Rattle.order_test.specs.Unkept.{IsKeptBelow};
ghost use Rattle.order_test.specs.Scenes.{IsSurvey, IsScene};

use crate::pieces::first_unkept_event;
use order_test::{EventWalk, Scene, Survey};
use rayon::current_num_threads;
use std::thread::Threads;

/// The greatest number of processors for which the events are cut further.
const MOST_PROCESSORS: usize = 16;

/// How many pieces there are for each processor, since pieces take unlike times.
const PIECES_EACH: usize = 4;

/// How few events are worth a thread of their own.
const LEAST_PIECE: usize = 1024;

/// How many of so many events are a piece.
fn piece_size(rt: &impl Threads, events: usize) -> usize
    ensures { 0 < result }
{
    let processors = current_num_threads(rt).min(MOST_PROCESSORS);
    (events / (processors * PIECES_EACH)).max(LEAST_PIECE)
}

/// The walk that goes over pieces of the events at the same time, each in a thread of its own. Where no thread can be made, it goes over one piece
/// after another.
#[derive(Drop)]
pub struct InThreads<'a, R: Threads> {
    pub rt: &'a R,
}

impl<R: Threads> EventWalk for InThreads<'_, R> {
    fn kept_up_to(&self, survey: &Survey<'_>, scene: &Scene<'_>, start: usize) -> usize {
        let end = survey.events.len();
        if end <= start {
            return start;
        }
        let size = piece_size(self.rt, end - start);
        first_unkept_event(self.rt, survey, scene, start, end, size)
    }
}
