// Lists of what may fail to be made.
use cell_base::{Items, SqlFault};
use std::alloc::Global;

/// What was made so far, or the first fault.
#[derive(Drop)]
pub struct List<T: Drop> {
    made: Items<T>,
    fault: Option<SqlFault>,
}

impl<T: Drop> List<T> {
    /// A list of nothing.
    pub fn new(alloc: Global) -> List<T> {
        List {
            made: Items::new(alloc),
            fault: None,
        }
    }

    /// Takes what was made, or its fault.
    pub fn push(&mut self, made: Result<T, SqlFault>) {
        match made {
            Ok(item) => self.add(item),
            Err(fault) => self.stop(fault),
        }
    }

    /// Takes what can't fail.
    pub fn add(&mut self, item: T) {
        if self.made.push(item).is_err() {
            self.stop(SqlFault::Memory);
        }
    }

    fn stop(&mut self, fault: SqlFault) {
        if self.fault.is_none() {
            self.fault = Some(fault);
        }
    }

    /// All that was made, or the first fault.
    pub fn whole(self) -> Result<Items<T>, SqlFault> {
        match self.fault {
            Some(fault) => Err(fault),
            None => Ok(self.made),
        }
    }
}
