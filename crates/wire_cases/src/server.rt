// Tests of what goes over a link: the bytes of the messages that the server writes, and the calls of links, in memory and over streams.
//
// The contracts of `pg_framing` and `link_traits` say what each call writes and reads. No clause says that a call with ample memory
// succeeds, nor that the adapters over the system's streams pass the bytes on: these tests compare answers with bytes found by hand
// from the protocol's description. The crate has nothing but tests.

mod compared;
mod files;
mod links;
mod made;
mod replies;
mod steps;
