// Tests of aggregates and of ORDER BY, OFFSET and LIMIT by values: what no clause says, that calls with ample memory succeed, and
// results worked out by hand.
//
// The crate has nothing but tests.

mod cases;
mod exprs;
mod orders;
mod samples;
mod tests;
