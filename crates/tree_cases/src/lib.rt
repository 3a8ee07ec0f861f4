//! Tests of trees: each public call of the crates of typing (`typing`), and the values of expressions (`values`). The crate has nothing
//! but tests.
#![tactic(auto)]

#[cfg(test)]
mod typing;
#[cfg(test)]
mod values;
