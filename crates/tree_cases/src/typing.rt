// Tests of each public call of the crates of typing: a few statements, conditions and definitions, with what each call makes of
// their trees.
//
// The contracts of the crates under test say that they give what the rules of `typing_rules` give. No clause says that a call with
// ample memory succeeds: these tests run each public call, and compare its answer with one typed by hand. The crate has nothing
// but tests.

mod changes;
mod definitions;
mod expressions;
mod lookups;
mod samples;
mod selects;
mod statements;
