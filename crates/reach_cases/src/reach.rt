// Tests of kept reachability: that calls succeed with ample memory, worked graphs and stars with answers found by hand, and
// pseudo-random ones beside a closure computed by lists.
//
// The contracts of `reach_rows` say what each call does. No clause says that memory is left, and a definition could say something
// else than its reader thinks. The crate has nothing but tests, so that `reach_rows` is proved once.
//
// A `Reach` or a list that is held where a step may fail costs much to check, so each is handed on whole (`kept` and `alone` of
// `checked_reach`).

mod calls;
mod edges;
mod graphs;
mod pairs;
mod plain;
mod stars;
mod steps;
mod stop;
