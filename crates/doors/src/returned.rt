// What was handed out and is to come back.
ghost use Rattle.std.specs.Prelude.{◌≡◌, ◌<◌, ◌+◌, ◌-◌, ◌++◌, ◌∷◌, [], OnOk, OnErr};
ghost use Rattle.doors.specs.Returns.{Returns};

use cell_base::Memory;
use std::alloc::Global;
use std::marker::Model;

// What came back, and how many are out. There is room for each of these to come back.
#[derive(Drop)]
pub(crate) struct Returned<T: Drop> {
    list: Vec<T>,
    out: usize,
}

impl<T: Drop> Model for Returned<T> {
    ghost use Rattle.std.specs.Prelude.{◌≤◌, ◌+◌, vec_len, vec_capacity};
    ghost use Rattle.doors.specs.Returns.{Returns};

    ghost Value = { Returns T };

    ghost view = { λ r. record { list = r.list.items; out = r.out } };

    ghost invariant = { λ r. vec_len r.list + r.out ≤ vec_capacity r.list };
}

impl<T: Drop> Returned<T> {
    // Nothing is out. Takes no memory.
    pub(crate) fn new(alloc: Global) -> Self
        ensures { result ≡ record { list = []; out = 0 } }
    {
        Returned {
            list: Vec::new(alloc),
            out: 0,
        }
    }

    // One goes out, and there is room for it to come back.
    pub(crate) fn lend(&mut self) -> Result<(), Memory>
        ensures ok { OnOk result (self.new ≡ record self.old { out = self.old.out + 1 }) }
        ensures err { OnErr result (self.new ≡ self.old) }
    {
        let Some(places) = self.out.checked_add(1) else {
            return Err(Memory);
        };
        self.list.reserve(places)?;
        self.out = places;
        Ok(())
    }

    // One didn't go out after all.
    pub(crate) fn keep(&mut self)
        requires { 0 < self.old.out }
        ensures { self.new ≡ record self.old { out = self.old.out - 1 } }
    {
        self.out -= 1;
    }

    // One comes back.
    pub(crate) fn take_back(&mut self, object: T)
        requires { 0 < self.old.out }
        ensures { self.new ≡ record self.old { list = self.old.list ++ object ∷ []; out = self.old.out - 1 } }
    {
        self.out -= 1;
        self.list.push_reserved(object);
    }

    // What came back, in order.
    pub(crate) fn list(&self) -> &[T]
        ensures { result.now ≡ self.now.list }
    {
        self.list.as_slice()
    }
}
