// The numbers of transactions, ascending.
ghost use Rattle.std.specs.Prelude.{◌≡◌, [], ◌∷◌, IfOk, OnOk, OnErr};
ghost use Rattle.std.specs.List.Sorted.{IsStrictlyIncreasing};
ghost use Rattle.indexed_history.specs.Index.{GainsNumber, LosesNumber};

use cell_base::Memory;
use std::alloc::Global;
use std::marker::Model;

/// The numbers of transactions. Contracts see them as a list.
#[derive(Debug, Drop)]
pub struct Numbers {
    numbers: Vec<u32>,
}

impl Model for Numbers {
    ghost use Rattle.std.specs.Prelude.{List, ℕ};

    ghost Value = { List ℕ };

    ghost view = { λ n. n.numbers.items };
}

impl Numbers {
    /// One number.
    pub fn one(alloc: Global, number: u32) -> Result<Numbers, Memory>
        ensures { IfOk result (λ numbers. numbers ≡ number ∷ []) }
    {
        let mut numbers = Vec::new(alloc);
        numbers.push(number)?;
        Ok(Numbers { numbers })
    }

    /// The numbers.
    pub fn as_slice(&self) -> &[u32]
        ensures { result.now ≡ self.now }
    {
        self.numbers.as_slice()
    }

    /// Puts a number in its place, where it isn't there yet. Out of memory nothing changes.
    pub fn insert(&mut self, number: u32) -> Result<(), Memory>
        requires { IsStrictlyIncreasing self.old }
        ensures ascending { IsStrictlyIncreasing self.new }
        ensures ok { OnOk result (GainsNumber self.old number self.new) }
        ensures err { OnErr result (self.new ≡ self.old) }
    {
        match self.numbers.as_slice().binary_search(&number) {
            Ok(_) => Ok(()),
            Err(at) => {
                self.numbers.insert(at, number)?;
                Ok(())
            }
        }
    }

    /// Takes a number out, where it is there.
    pub fn remove(&mut self, number: u32)
        requires { IsStrictlyIncreasing self.old }
        ensures ascending { IsStrictlyIncreasing self.new }
        ensures loses { LosesNumber self.old number self.new }
    {
        match self.numbers.as_slice().binary_search(&number) {
            Ok(at) => {
                let _number = self.numbers.remove(at);
            }
            Err(_) => {}
        }
    }
}
