// A list whose items are taken from its front.
ghost use Rattle.std.specs.Prelude.{◌≡◌, List, [], ◌∷◌, MatchOption};
ghost use Rattle.std.specs.Coded.{coded_list};

use cell_base::Items;
use std::alloc::Global;
use std::collections::VecDeque;
use std::marker::Model;

/// A list whose items are taken from its front.
#[derive(Debug, Drop)]
pub struct Queue<T> {
    items: VecDeque<T>,
}

impl<T> Model for Queue<T> {
    ghost Value = { List T };

    ghost coded = { coded_list T.code };

    ghost view = { λ q. q.items.items };
}

impl<T> Queue<T> {
    /// No item. Takes no memory.
    pub fn new(alloc: Global) -> Queue<T>
        ensures { result ≡ [] }
    {
        Queue {
            items: VecDeque::new(alloc),
        }
    }

    /// The items of a list. Takes no memory.
    pub fn from_items(items: Items<T>) -> Queue<T>
        ensures { result ≡ items }
    {
        Queue {
            items: VecDeque::from(items.into_vec()),
        }
    }
}

impl<T: Drop> Queue<T> {
    /// The first item and the others, where there is one. Takes no memory.
    pub fn split(self) -> Option<(T, Queue<T>)>
        ensures { MatchOption result (self ≡ []) (λ parts. self ≡ parts.0 ∷ parts.1) }
    {
        let Queue { mut items } = self;
        match items.pop_front() {
            Some(first) => Some((first, Queue { items })),
            None => None,
        }
    }
}
