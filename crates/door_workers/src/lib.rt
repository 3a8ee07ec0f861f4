//! Workers that serve the links of their doors, each in a thread of its own.
//!
//! [`serve_doors`] runs [`Worker`]s to their ends. Each accepts the links of its door one after another, serves each as a session on its own
//! book with its own choice words, and gives it back. Contracts say what each worker did: a visit for each link that came in
//! (`specs/Visits`), and why it accepted no more (`specs/Workers`). Books may lead to one history, to which the other workers add at the same
//! time: what a book's visits ask of it is told of that book alone.
#![tactic(auto)]

mod laws;
mod progress;
mod serve;
mod worker;

pub use laws::visits_are_own;
pub use progress::Progress;
pub use serve::serve_doors;
pub use worker::Worker;
