// What one thread serves with.
use link_traits::HostFault;
use session_core::Served;

/// What one thread serves with, and what came of it.
#[derive(Drop)]
pub struct Worker<B, D, W> {
    /// Where its sessions go to the history.
    pub book: B,
    /// What its links come in by.
    pub door: D,
    /// What chooses among the values of a read.
    pub words: W,
    /// How many links it accepts at most.
    pub accept: u32,
    /// What became of each session, in order. It has room for `accept` more.
    pub served: Vec<Served>,
    /// Why it accepts no more, where accepting failed.
    pub fault: Option<HostFault>,
}
