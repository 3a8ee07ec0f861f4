//! Tests of the rows of a SELECT (`selects`), and of aggregates and orders by themselves (`totals`). The crate has nothing but tests.
#![tactic(auto)]

#[cfg(test)]
mod selects;
#[cfg(test)]
mod totals;
