// The calls of a network in memory.
use crate::mem_door::MemDoor;
use cell_base::{Items, Text};

/// A call that opened doors of a network in memory, with copies of the doors as they were handed out, or nothing where the call failed.
#[derive(Debug, Drop)]
pub struct MemDoorsCall {
    pub address: Text,
    pub number: u32,
    pub doors: Option<Items<MemDoor>>,
}
