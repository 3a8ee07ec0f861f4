// Tests of plans: statements over one table, each with its demands one after another, given the answers, and what it comes
// to, worked out by hand.
//
// What a plan demands is shown as text, so that text is compared with text. The contracts of `cell_compile` say that a plan
// demands what the definitions of a statement's course say; these cases show that the definitions are SQL's, and that plans
// with ample memory don't give up. The crate has nothing but tests.
//
// A tree or a plan that is held where a step may fail costs much to check, so each is handed on whole (`kept`, `both` and `alone` of `case_lines`).

mod changes;
mod courses;
mod inserts;
mod selects;
mod shown;
mod statements;
mod trees;
