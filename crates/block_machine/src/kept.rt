// A value in a box, which contracts see as itself.
ghost use Rattle.std.specs.Prelude.{◌≡◌, IfOk};

use cell_base::Memory;
use std::alloc::Global;
use std::marker::Model;

/// A value in a box: it is moved and dropped by one call, however many forms it has.
#[derive(Debug, Drop)]
pub struct Kept<T> {
    inner: Box<T>,
}

impl<T> Model for Kept<T> {
    ghost Value = { T };

    ghost coded = { T.code };

    ghost view = { λ k. k.inner.value };
}

impl<T> Kept<T> {
    /// Takes a box over.
    pub fn from_box(inner: Box<T>) -> Kept<T>
        ensures { result ≡ inner.value }
    {
        Kept { inner }
    }

    /// The box itself.
    pub fn into_box(self) -> Box<T>
        ensures { result.value ≡ self }
    {
        let Kept { inner } = self;
        inner
    }

    /// The value.
    pub fn get(&self) -> &T
        ensures { result.now ≡ self.now }
    {
        &self.inner
    }
}

impl<T: Drop> Kept<T> {
    /// Puts a value into a box.
    pub fn new(alloc: Global, value: T) -> Result<Kept<T>, Memory>
        ensures { IfOk result (λ k. k ≡ value) }
    {
        Ok(Kept {
            inner: Box::new(alloc, value)?,
        })
    }
}
