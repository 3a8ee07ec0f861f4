//! Tests of streams of choice words. The words of a seed are those of another program, which has the cipher from its description. The
//! crate has nothing but tests.
#![tactic(auto)]

#[cfg(test)]
mod tests;
