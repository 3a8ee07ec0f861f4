//! Tests of what comes of texts: the statements that they are read as (`reading`), and the types of these (`typing`). What comes is
//! shown as text, so that text is compared with text. The crate has nothing but tests.
#![tactic(auto)]

#[cfg(test)]
mod reading;
#[cfg(test)]
mod typing;
