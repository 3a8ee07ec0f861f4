//! Tests of the program in a host in memory: whole sessions over the standard link, byte by byte, links that fail, and lists of choice words; servers
//! at doors in memory and over the loopback, over one history, which begins empty or with what a setup left, and what fails among them; simulations,
//! and the clients that they have; the logs that both write, and the check of a log; and words that are no command. Two sessions that meet stand here
//! too, since all these tests are made into one program.
//!
//! The contracts of `monkey_server` say what a session is told and what a command does. No clause says that a call with ample memory succeeds:
//! these tests compare what is sent and printed with sessions written out as text by hand. The crate has nothing but tests. Those of the program
//! make the one call of `monkey_main` that stands in `hosts`, since a proof of such a call takes long.
#![tactic(auto)]

#[cfg(test)]
mod broken_links;
#[cfg(test)]
mod clients;
#[cfg(test)]
mod commands;
#[cfg(test)]
mod entries;
#[cfg(test)]
mod faults;
#[cfg(test)]
mod hosts;
#[cfg(test)]
mod logs;
#[cfg(test)]
mod loopback;
#[cfg(test)]
mod meeting;
#[cfg(test)]
mod meeting_book;
#[cfg(test)]
mod overlap;
#[cfg(test)]
mod servers;
#[cfg(test)]
mod sessions;
#[cfg(test)]
mod setups;
#[cfg(test)]
mod two_links;
#[cfg(test)]
mod word_lists;
