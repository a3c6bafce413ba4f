// A list with room kept for items to come, so that putting them in takes no memory.
ghost use Rattle.std.specs.Prelude.{◌≡◌, ◌+◌, ◌≤◌, ◌<◌, [], ◌∷◌, ◌++◌, OnOk, OnErr};

use crate::{List, NoMemory};
use std::alloc::Global;
use std::marker::Model;

/// A list seen as its items and `spare`, the number of items that it has room for at least.
#[derive(Drop)]
pub struct Roomy<T> {
    items: Vec<T>,
}

impl<T> Model for Roomy<T> {
    ghost use Rattle.std.specs.Prelude.{◌-◌, vec_len, vec_capacity};
    ghost use Rattle.stx_scenario.specs.Rooms.{Room};

    ghost Value = { Room T };

    ghost view = { λ l. record { items = l.items.items; spare = vec_capacity l.items - vec_len l.items } };
}

impl<T> Roomy<T> {
    /// The empty list, with no room. It takes no memory.
    pub fn new(alloc: Global) -> Self
        ensures { result.items ≡ [] }
    {
        Roomy {
            items: Vec::new(alloc),
        }
    }

    /// Makes room for so many items. It fails only where there was less, and the list then stays as it was.
    pub fn reserve(&mut self, more: usize) -> Result<(), NoMemory>
        ensures items { self.new.items ≡ self.old.items }
        ensures room { OnOk result (more ≤ self.new.spare) }
        ensures kept { self.old.spare ≤ self.new.spare }
        ensures full { OnErr result (self.old.spare < more) }
    {
        self.items.reserve(more)?;
        Ok(())
    }

    /// Puts an item at the end, in the room that there is.
    pub fn push(&mut self, item: T)
        requires { 0 < self.old.spare }
        ensures items { self.new.items ≡ self.old.items ++ item ∷ [] }
        ensures room { self.old.spare ≡ self.new.spare + 1 }
    {
        self.items.push_reserved(item);
    }

    pub fn as_slice(&self) -> &[T]
        ensures { result.now ≡ self.now.items }
    {
        self.items.as_slice()
    }

    /// The items, as a list. It takes no memory.
    pub fn into_list(self) -> List<T>
        ensures { result ≡ self.items }
    {
        List::from_vec(self.items)
    }
}
