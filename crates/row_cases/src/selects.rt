// Tests of the rows of a SELECT: statements over small tables with the rows that stand for them, found by hand, and many made
// by chance with those of a plain slow program.
//
// The contract of `rows_of` says that it gives what `row_meaning` defines; the cases show that the definition is SQL's. The crate
// has nothing but tests.

mod answers;
mod cases;
mod chance;
mod list;
mod made;
mod slow;
mod tests;
mod world;
