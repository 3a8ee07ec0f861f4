//! Tests of halls: worked interleavings of sessions, with all events of their one history and all bytes that each client is sent.
//!
//! An interleaving is a text (`updates.rt` and the files beside it), in the order in which all of it happens. It has a line for each of these:
//!
//! | Line | Says |
//! |---|---|
//! | `# an update is lost` | the first one is the interleaving's name, others are comments |
//! | `level cc` | the level of the server; without this line `rc` |
//! | `* begin 2 cc` | an event of the history, as `event_text` spells it: a step of the client whose session it names |
//! | `2 > Query BEGIN` | a line of a client's session, as `session_text` has them: here a message of the client of session 2 |
//! | `2 + started` | the lines of a set-up of this name (`setups.rt`, or else of `session_text`), for that client |
//!
//! So the events say in which order the clients go on, and nothing else does. The crate has nothing but tests.
#![tactic(auto)]

#[cfg(test)]
mod causes;
#[cfg(test)]
mod drivers;
#[cfg(test)]
mod halves;
#[cfg(test)]
mod levels;
#[cfg(test)]
mod playing;
#[cfg(test)]
mod reading;
#[cfg(test)]
mod setups;
#[cfg(test)]
mod tests;
#[cfg(test)]
mod updates;
