//! Tests of the plans of statements (`plans`), and of what INSERT, UPDATE and DELETE write (`writes`). The crate has nothing but tests.
#![tactic(auto)]

#[cfg(test)]
mod plans;
#[cfg(test)]
mod writes;
