// Tests of what a client sends: each length of each type of message, each fault at its first byte, a stream with all
// messages in pieces of 1 to 29 bytes, and messages at the limits.
//
// The contracts of `client_framing` say which messages and which fault are read from a stream. No clause says that a call with
// ample memory succeeds: these tests compare what is read with what was found by hand from the protocol's description. The
// crate has nothing but tests.

mod faults;
mod lengths;
mod reading;
mod rows;
mod streams;
