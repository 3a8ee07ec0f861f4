//! Tests of stores beside plain programs: random histories of several sessions at mixed levels, each offer beside the trial of all orders and
//! beside the forced pairs; long histories; and full ones.
//!
//! A definition could say something else than its reader thinks, and no clause says that memory is left or how long a call takes. The
//! crate has nothing but tests, so that `valid_writes` is proved once.
//!
//! A store or a list that is held where a step may fail costs much to check, so each is handed on whole (`held_values`).
#![tactic(auto)]

#[cfg(test)]
mod calls;
#[cfg(test)]
mod full;
#[cfg(test)]
mod long;
#[cfg(test)]
mod orders;
#[cfg(test)]
mod plain;
#[cfg(test)]
mod random;
#[cfg(test)]
mod start;
