// Tests of values: some 150 expressions over rows, and conversions on assignment, each with its value or its code.
//
// The contracts of `expr_eval` say that it gives what the rules of values give. No clause says that a call with ample memory
// succeeds: these tests compare its answers with values worked out by hand from PostgreSQL's documentation. The crate has nothing
// but tests.

mod assigned;
mod cases;
mod samples;
mod tests;
mod trees;
