//! Tests of rows of bits (`bits`), and of kept reachability over them (`reach`). The crate has nothing but tests.
#![tactic(auto)]

#[cfg(test)]
mod bits;
#[cfg(test)]
mod reach;
