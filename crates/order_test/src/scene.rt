// What is made of a history where what is light doesn't decide.
use crate::listed::Lists;
use crate::pasts::Pasts;
use history_core::Txn;

/// The records of the transactions of a history, the causal past of each, and the committed writers of each cell session by session.
#[derive(Clone, Copy, Debug)]
pub struct Scene<'a> {
    pub txns: &'a [Txn],
    pub pasts: &'a Pasts,
    pub lists: &'a Lists,
}
