// The registrations themselves, in the order of their registering.
ghost use Rattle.std.specs.Prelude.{◌≡◌, ◌+◌, ◌≤◌, [], ◌∷◌, ◌++◌, map, IfOk, IfErr, OnOk, OnErr};
ghost use Rattle.stx_model.specs.Contexts.{ordered};
ghost use Rattle.stx_sync.specs.Registries.{registration, new_registry};

use crate::Registered;
use std::alloc::Global;
use std::marker::Model;
use stx_scenario::{List, NoMemory};

/// Registrations, seen as their list in the order of registering, and the room for more.
#[derive(Drop)]
pub struct Registry {
    registrations: Vec<Registered>,
}

impl Model for Registry {
    ghost use Rattle.std.specs.Prelude.{◌-◌, map, vec_len, vec_capacity};
    ghost use Rattle.stx_sync.specs.Registries.{Registrations, registration};

    ghost Value = { Registrations };

    ghost view = { λ r. record {
      list = map registration r.registrations.items;
      spare = vec_capacity r.registrations - vec_len r.registrations;
    } };
}

impl Registry {
    /// No registrations. It takes no memory.
    pub fn new(alloc: Global) -> Registry
        ensures { result ≡ new_registry }
    {
        Registry {
            registrations: Vec::new(alloc),
        }
    }

    /// Makes room for one registration more. It fails only where there was none.
    pub fn reserve(&mut self, _alloc: Global) -> Result<(), NoMemory>
        ensures list { self.new.list ≡ self.old.list }
        ensures room { OnOk result (1 ≤ self.new.spare) }
        ensures kept { self.old.spare ≤ self.new.spare }
        ensures full { OnErr result (self.old.spare ≡ 0) }
    {
        self.registrations.reserve(1)?;
        Ok(())
    }

    /// Puts a registration at the end, in the room that there is.
    pub fn register(&mut self, r: Registered)
        requires { 1 ≤ self.old.spare }
        ensures list { self.new.list ≡ self.old.list ++ registration r ∷ [] }
        ensures room { self.old.spare ≡ self.new.spare + 1 }
    {
        self.registrations.push_reserved(r);
    }

    /// The registrations by ascending order value, ties in the order of their registering.
    pub fn snapshot(&self, alloc: Global) -> Result<List<Registered>, NoMemory>
        ensures { IfOk result (λ list. map registration list ≡ ordered self.now.list) }
    {
        let mut list = Vec::from_slice(alloc, self.registrations.as_slice())?;
        list.sort_by_key(|r| r.order)?;
        Ok(List::from_vec(list))
    }

    /// Takes the registrations out, in the same order. For want of memory it hands the registry back as it was.
    pub fn take_all(self, _alloc: Global) -> Result<List<Registered>, Registry>
        ensures ok { IfOk result (λ list. map registration list ≡ ordered self.list) }
        ensures err { IfErr result (λ registry. registry ≡ self) }
    {
        let mut list = self.registrations;
        match list.sort_by_key(|r| r.order) {
            Ok(()) => Ok(List::from_vec(list)),
            Err(_) => Err(Registry {
                registrations: list,
            }),
        }
    }
}
