// Names that all differ, each with its number.
ghost use Rattle.std.specs.Prelude.{◌≡◌, ◌^◌, ◌<◌, [], length, not, IfOk, OnOk, OnErr};
ghost use Rattle.stx_scenario.specs.Names.{has_name};
ghost use Rattle.stx_names.specs.Numbers.{with_name, number_of};

use indexmap::IndexSet;
use std::alloc::Global;
use std::marker::Model;
use stx_scenario::{List, Name, NoMemory};

/// The number of a name that isn't there: no list is so long.
pub const NOTHING: u32 = u32::MAX;

/// Names that all differ, in the order in which they came, which is that of their numbers from 0. A name is looked up
/// by its hash.
#[derive(Drop)]
pub struct Numbers {
    names: IndexSet<String>,
}

impl Model for Numbers {
    ghost use Rattle.std.specs.Prelude.{List, ℕ, ◌^◌, ◌<◌, map, length, string_bytes};

    ghost Value = { List (List ℕ) };

    ghost view = { λ n. map string_bytes n.names.keys };

    ghost invariant = { λ n. length n.names.keys < 2 ^ 32 };
}

impl Numbers {
    /// No names. It takes no memory.
    pub fn new(alloc: Global) -> Self
        ensures { result ≡ [] }
    {
        Numbers {
            names: IndexSet::new(alloc),
        }
    }

    /// Puts a name at the end, unless it is there already, and says whether it did. Where its number would not fit, that
    /// is want of memory too.
    pub fn add(&mut self, alloc: Global, name: &str) -> Result<bool, NoMemory>
        ensures new { IfOk result (λ new. new ≡ not (has_name self.old name.now)) }
        ensures names { OnOk result (self.new ≡ with_name self.old name.now) }
    {
        if self.has(name) {
            return Ok(false);
        }
        if self.names.len() >= NOTHING as usize {
            return Err(NoMemory::uncountable(self.names.len(), 1));
        }
        self.names.insert_full(String::from_str(alloc, name)?)?;
        Ok(true)
    }

    /// The number of a name, which goes to the end unless it is there already.
    pub fn number_for(&mut self, alloc: Global, name: &str) -> Result<u32, NoMemory>
        ensures names { OnOk result (self.new ≡ with_name self.old name.now) }
        ensures number { IfOk result (λ number. number ≡ number_of self.new name.now) }
    {
        match self.names.get_index_of(name) {
            Some(place) => Ok(place as u32),
            None => {
                self.add(alloc, name)?;
                Ok(self.number_of(name))
            }
        }
    }

    pub fn has(&self, name: &str) -> bool
        ensures { result ≡ has_name self.now name.now }
    {
        self.names.contains(name)
    }

    /// The number of a name.
    pub fn number_of(&self, name: &str) -> u32
        ensures { result ≡ number_of self.now name.now }
    {
        match self.names.get_index_of(name) {
            Some(place) => place as u32,
            None => NOTHING,
        }
    }

    /// The names, in the order of their numbers.
    pub fn names(&self, alloc: Global) -> Result<List<Name>, NoMemory>
        ensures names { IfOk result (λ names. names ≡ self.now) }
        ensures few { IfOk result (λ names. length names < 2 ^ 32) }
    {
        let mut names = List::new(alloc);
        for name in self.names.as_slice() {
            names.push(Name::new(alloc, name.as_str())?)?;
        }
        Ok(names)
    }
}
