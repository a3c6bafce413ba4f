// The entries of a scenario's lists, one by one.
ghost use Rattle.std.specs.Prelude.{◌≡◌, codes, IfOk};
ghost use Rattle.stx_refusals.specs.Faults.{entry as path_of_entry};
ghost use Rattle.stx_judge.specs.Judge.{name_faults, turn_faults, class_faults, bean_faults, method_faults, sync_faults, listener_faults, client_faults};

use crate::checks::{Checks, Faults, check_array};
use crate::references::parent_known;
use crate::tables::Place;
use std::alloc::Global;
use stx_names::{is_class_name, is_name};
use stx_refusals::{Argument, Stage, check_entry, entry, refuse, under};
use stx_scenario::{
    Bean, Calls, ClassDecl, Listener, MOST_CALLS, MOST_CLIENTS, Method, Name, NoMemory, Scenario,
    SyncDecl,
};

/// The parts of a scenario, and where paths take their memory.
#[derive(Drop)]
pub struct Parts<'a> {
    pub alloc: Global,
    pub scenario: &'a Scenario,
}

impl<'a> Parts<'a> {
    /// The place at a path.
    pub fn place(&self, path: Argument) -> Place<'a>
        ensures scenario { result.scenario.now ≡ self.now.scenario.now }
        ensures path { result.path ≡ path }
    {
        Place {
            alloc: self.alloc,
            scenario: self.scenario,
            path,
        }
    }

    /// The table that an entry of the array under a key is.
    fn table(&self, key: &str, at: usize) -> Result<Place<'a>, NoMemory>
        ensures scenario { IfOk result (λ table. table.scenario.now ≡ self.now.scenario.now) }
        ensures path { IfOk result (λ table. table.path ≡ path_of_entry key.now at) }
    {
        let path = entry(self.alloc, key, at)?;
        Ok(self.place(path))
    }
}

// The rows. No path is made where it is a name: there may be many.
impl<'a> Checks<Name> for Parts<'a> {
    ghost finds = { λ _ n name. name_faults (path_of_entry (codes "rows") n) name };

    fn check(&self, faults: &mut Faults, at: usize, name: &Name) -> Result<(), NoMemory> {
        if is_name(name.as_str()) {
            return Ok(());
        }
        let path = entry(self.alloc, "rows", at)?;
        let path = under(self.alloc, path.as_str(), "name")?;
        refuse(faults, Stage::BadName, path)
    }
}

// The turns of the schedule.
impl<'a> Checks<u32> for Parts<'a> {
    ghost finds = { λ parts. turn_faults parts.scenario.now };

    fn check(&self, faults: &mut Faults, at: usize, client: &u32) -> Result<(), NoMemory> {
        let path = "schedule";
        let passed = (*client as usize) < MOST_CLIENTS;
        check_entry(self.alloc, faults, path, at, passed, Stage::OutOfRange)?;
        let passed = (*client as usize) < self.scenario.clients.len();
        check_entry(self.alloc, faults, path, at, passed, Stage::UnknownRef)
    }
}

impl<'a> Checks<ClassDecl> for Parts<'a> {
    ghost finds = { λ parts. class_faults parts.scenario.now };

    fn check(&self, faults: &mut Faults, at: usize, class: &ClassDecl) -> Result<(), NoMemory> {
        let table = self.table("classes", at)?;
        let passed = is_class_name(class.name.as_str());
        table.check_key(faults, "name", passed, Stage::BadName)?;
        let passed = parent_known(self.scenario, class.parent);
        table.check_key(faults, "parent", passed, Stage::UnknownRef)
    }
}

impl<'a> Checks<Bean> for Parts<'a> {
    ghost finds = { λ parts. bean_faults parts.scenario.now };

    fn check(&self, faults: &mut Faults, at: usize, bean: &Bean) -> Result<(), NoMemory> {
        let table = self.table("beans", at)?;
        table.check_name(faults, &bean.name)?;
        table.check_tx(faults, &bean.tx)
    }
}

impl<'a> Checks<Method> for Parts<'a> {
    ghost finds = { λ parts. method_faults parts.scenario.now };

    fn check(&self, faults: &mut Faults, at: usize, method: &Method) -> Result<(), NoMemory> {
        let table = self.table("methods", at)?;
        let passed = (method.bean.0 as usize) < self.scenario.beans.len();
        table.check_key(faults, "bean", passed, Stage::UnknownRef)?;
        table.check_name(faults, &method.name)?;
        table.check_tx(faults, &method.tx)?;
        table.check_body(faults, method.bean, &method.body)
    }
}

impl<'a> Checks<SyncDecl> for Parts<'a> {
    ghost finds = { λ parts. sync_faults parts.scenario.now };

    fn check(&self, faults: &mut Faults, at: usize, sync: &SyncDecl) -> Result<(), NoMemory> {
        let table = self.table("syncs", at)?;
        table.check_name(faults, &sync.name)?;
        table.check_callback(faults, "before_commit", &sync.before_commit)?;
        table.check_callback(faults, "before_completion", &sync.before_completion)?;
        table.check_callback(faults, "after_commit", &sync.after_commit)?;
        table.check_callback(faults, "after_completion", &sync.after_completion)?;
        Ok(())
    }
}

impl<'a> Checks<Listener> for Parts<'a> {
    ghost finds = { λ parts. listener_faults parts.scenario.now };

    fn check(&self, faults: &mut Faults, at: usize, listener: &Listener) -> Result<(), NoMemory> {
        let table = self.table("listeners", at)?;
        table.check_name(faults, &listener.name)?;
        let passed = (listener.event.0 as usize) < self.scenario.events.len();
        table.check_key(faults, "event", passed, Stage::UnknownRef)?;
        table.check_callback(faults, "body", &listener.body)
    }
}

impl<'a> Checks<Calls> for Parts<'a> {
    ghost finds = { λ parts. client_faults parts.scenario.now };

    fn check(&self, faults: &mut Faults, at: usize, calls: &Calls) -> Result<(), NoMemory> {
        let array = self.table("clients", at)?.under("calls")?;
        let path = array.path.as_str();
        let calls = calls.as_slice();
        check_array(self.alloc, faults, path, MOST_CALLS, &array, calls)
    }
}
