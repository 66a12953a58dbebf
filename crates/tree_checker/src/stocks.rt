//! Lists with room for 4,096 elements, which grow without memory.
ghost use Rattle.std.specs.Prelude.{◌≡◌, ◌++◌, ◌∷◌, ◌<◌, [], length, IfOk};

use ip_defs::Memory;
use std::alloc::Global;
use std::marker::Model;

/// The most elements of a list.
const ROOM: usize = 4096;

/// A list of at most 4,096 elements. Contracts see the list.
#[derive(Drop)]
pub(crate) struct Stock<T> {
    items: Vec<T>,
}

impl<T> Model for Stock<T> {
    ghost use Rattle.std.specs.Prelude.{List, ◌≤◌};
    ghost use Rattle.std.specs.Vec.{vec_capacity};
    ghost use Rattle.std.specs.Coded.{coded_list};

    ghost Value = { List T };

    ghost coded = { coded_list T.code };

    ghost view = { λ s. s.items.items };

    ghost invariant = { λ s. 4096 ≤ vec_capacity s.items };
}

impl<T: Drop> Stock<T> {
    /// An empty list with all of its room. The only call that takes memory.
    pub(crate) fn new(alloc: Global) -> Result<Stock<T>, Memory>
        ensures { IfOk result (λ s. s ≡ []) }
    {
        Ok(Stock {
            items: Vec::with_capacity(alloc, ROOM)?,
        })
    }

    /// The elements.
    pub(crate) fn as_slice(&self) -> &[T]
        ensures { result.now ≡ self.now }
    {
        self.items.as_slice()
    }

    /// Appends an element.
    pub(crate) fn push(&mut self, item: T)
        requires { length self.old < 4096 }
        ensures { self.new ≡ self.old ++ item ∷ [] }
    {
        self.items.push_reserved(item);
    }

    /// Removes all elements.
    pub(crate) fn clear(&mut self)
        ensures { self.new ≡ [] }
    {
        self.items.clear();
    }

    /// The vector of the elements.
    pub(crate) fn into_vec(self) -> Vec<T>
        ensures { result.items ≡ self }
    {
        let Stock { items } = self;
        items
    }
}
