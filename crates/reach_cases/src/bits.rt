// Tests of rows of bits and of lists of them, with values counted by hand.
//
// The contracts of `bit_rows` say what each call does. No clause says that a call with ample memory succeeds. The crate has nothing
// but tests, so that `bit_rows` is proved once.
//
// A row or a matrix that is held where a step may fail costs much to check, so each test is a table of steps that one loop takes,
// and what is held is handed on whole.

mod agreed;
mod matrices;
mod rows;
