// The first event of which an order doesn't keep what it asks, looked for in pieces.
ghost use Rattle.std.specs.Prelude.{◌≡◌, ◌≤◌, ◌<◌, true, false, length};
ghost use Rattle.order_test.specs.Unkept.{IsKeptAt};
ghost use Rattle.order_test.specs.Scenes.{IsSurvey, IsScene};
ghost use Rattle.wide_check.specs.Pieces.{IsFirstUnkeptIn};

use order_test::{Scene, Survey, event_is_kept};
use rayon::join;
use std::thread::Threads;

/// Whether the order doesn't keep what the event at the place asks.
fn is_unkept(survey: &Survey<'_>, scene: &Scene<'_>, place: usize) -> bool
    requires survey { IsSurvey survey.now }
    requires scene { IsScene survey.now scene.now }
    requires within { place < length survey.now.events.now }
    ensures unkept { result ≡ true → ¬ IsKeptAt survey.now.events.now survey.now.order.now place }
    ensures kept { result ≡ false → IsKeptAt survey.now.events.now survey.now.order.now place }
{
    !event_is_kept(survey, scene, place)
}

/// The first event from one place to another of which the order doesn't keep what it asks, or the end.
fn first_in_turn(survey: &Survey<'_>, scene: &Scene<'_>, from: usize, to: usize) -> usize
    requires survey { IsSurvey survey.now }
    requires scene { IsScene survey.now scene.now }
    requires from { from ≤ to }
    requires to { to ≤ length survey.now.events.now }
    ensures { IsFirstUnkeptIn survey.now.events.now survey.now.order.now from to result }
{
    for place in from..to {
        if is_unkept(survey, scene, place) {
            return place;
        }
    }
    to
}

/// The same, where the events are cut into pieces of so many, which are gone over at the same time: the first one in a thread of its own, and the
/// others in this one and in threads that it starts.
#[cycle(cuts)]
pub fn first_unkept_event<R: Threads>(
    rt: &R,
    survey: &Survey<'_>,
    scene: &Scene<'_>,
    from: usize,
    to: usize,
    size: usize,
) -> usize
    requires survey { IsSurvey survey.now }
    requires scene { IsScene survey.now scene.now }
    requires from { from ≤ to }
    requires to { to ≤ length survey.now.events.now }
    requires size { 0 < size }
    ensures { IsFirstUnkeptIn survey.now.events.now survey.now.order.now from to result }
{
    if to - from <= size {
        return first_in_turn(survey, scene, from, to);
    }
    let middle = from + size;
    let early = move || -> usize
        requires { IsSurvey survey.now × IsScene survey.now scene.now × (from ≤ middle) × (middle ≤ length survey.now.events.now) }
        ensures { IsFirstUnkeptIn survey.entry.now.events.now survey.entry.now.order.now from middle result }
    { first_in_turn(survey, scene, from, middle) };
    let late = move || -> usize
        requires { IsSurvey survey.now × IsScene survey.now scene.now × (middle ≤ to) × (to ≤ length survey.now.events.now) × (0 < size) }
        ensures { IsFirstUnkeptIn survey.entry.now.events.now survey.entry.now.order.now middle to result }
    { first_unkept_event(rt, survey, scene, middle, to, size) };
    let (first, second) = join(rt, early, late);
    if first < middle {
        return first;
    }
    second
}
