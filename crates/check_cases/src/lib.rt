//! Tests of the commands that look at the file of a log, `check` in one thread and in several and `judge`, in a host in memory. The lines are
//! found by hand. The crate has nothing but tests.
#![tactic(auto)]

#[cfg(test)]
mod hosts;
#[cfg(test)]
mod judged;
#[cfg(test)]
mod long_logs;
#[cfg(test)]
mod tests;
#[cfg(test)]
mod worked;
