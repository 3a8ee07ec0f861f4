// The state under the lock.
use crate::entry::Entry;
use std::marker::Model;
use turn_lock::Logged;
use valid_writes::Store;

/// A store under the lock. Contracts see the history.
#[derive(Debug, Drop)]
pub struct Kept {
    // Away only within a turn.
    pub(crate) store: Option<Store>,
}

impl Model for Kept {
    ghost use Rattle.history_core.specs.Chronicle.{Chronicle};
    ghost use Rattle.std.specs.Coded.{codes};
    ghost use Rattle.sql_tree.specs.contracts.typed_expr.TypedNode as typed_node;
    ghost use Rattle.std.specs.Prelude.{IsSome};
    ghost use Rattle.shared_book.specs.Entries.{history_in};

    ghost Value = { Chronicle };

    ghost coded = { Prim.hlevel (codes, typed_node.the_row.coded) };

    ghost view = { λ k. history_in k.store };

    ghost invariant = { λ k. IsSome k.store };
}

impl Logged for Kept {
    type Entry = Entry;

    ghost use Rattle.shared_book.specs.Entries.{entries_of, key_of};

    ghost entries = { entries_of };

    ghost key = { key_of };
}

impl Kept {
    ghost use Rattle.std.specs.Prelude.{◌≡◌};

    /// The store.
    pub(crate) fn into_store(self) -> Store
        ensures { result ≡ self }
    {
        match self.store {
            Some(store) => store,
            None => unreachable!(),
        }
    }
}
