// Tests of what INSERT, UPDATE and DELETE write: statements over one table, each with its rows, its changes, its cells or its
// code, worked out by hand.
//
// What comes of a statement is shown as text, so that text is compared with text. The contracts of `row_writes` say that it
// gives what the rules of `row_meaning` give; these cases show that the rules are SQL's, and that calls with ample memory
// succeed. The crate has nothing but tests.

mod changes;
mod inserts;
mod shown;
mod trees;
mod writes;
