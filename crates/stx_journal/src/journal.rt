// The list of all commits.
ghost use Rattle.std.specs.Prelude.{◌≡◌, [], ◌∷◌, ◌++◌, ◌+◌, ◌-◌, ◌≤◌, length, slice_get, OnOk, OnErr};
ghost use Rattle.std.specs.Option.{option_copied};

use crate::Committed;
use std::alloc::Global;
use std::marker::Model;
use stx_scenario::NoMemory;

/// The commits so far, in order, seen as their list and how many more there is room for.
#[derive(Drop)]
pub struct Journal {
    list: Vec<Committed>,
}

impl Model for Journal {
    ghost use Rattle.std.specs.Prelude.{◌-◌, vec_len, vec_capacity};
    ghost use Rattle.stx_journal.specs.Journal.{JournalView};

    ghost Value = { JournalView };

    ghost view = { λ j. record { list = j.list.items; spare = vec_capacity j.list - vec_len j.list } };
}

impl Journal {
    /// The empty journal. It takes no memory.
    pub fn new(alloc: Global) -> Journal
        ensures { result.list ≡ [] }
    {
        Journal {
            list: Vec::new(alloc),
        }
    }

    /// Makes room for so many commits more.
    pub fn reserve(&mut self, n: usize) -> Result<(), NoMemory>
        ensures list { self.new.list ≡ self.old.list }
        ensures spare { self.old.spare ≤ self.new.spare }
        ensures ok { OnOk result (n ≤ self.new.spare) }
    {
        self.list.reserve(n)?;
        Ok(())
    }

    /// The last commit.
    pub fn last(&self) -> Option<&Committed>
        ensures { option_copied result ≡ slice_get self.now.list (length self.now.list - 1) }
    {
        self.list.as_slice().last()
    }

    /// All commits, in order.
    pub fn list(&self) -> &[Committed]
        ensures { result.now ≡ self.now.list }
    {
        self.list.as_slice()
    }

    /// Puts a commit at the end, in room that was kept.
    pub fn append(&mut self, committed: Committed)
        requires { 1 ≤ self.old.spare }
        ensures list { self.new.list ≡ self.old.list ++ committed ∷ [] }
        ensures spare { self.old.spare ≤ self.new.spare + 1 }
    {
        self.list.push_reserved(committed);
    }
}
