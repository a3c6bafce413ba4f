// The lists of a scenario, in the order in which a document has them.
ghost use Rattle.std.specs.Prelude.{◌≡◌, ◌++◌, OnOk, IfOk};
ghost use Rattle.stx_base.specs.Valid.{first_rows, own_classes};
ghost use Rattle.stx_judge.specs.Judge.{events_faults, schedule_faults, settings_faults, rows_faults, classes_faults, beans_faults, methods_faults, syncs_faults, listeners_faults, clients_faults, scenario_faults};

use crate::checks::{Faults, check_array, check_each};
use crate::parts::Parts;
use std::alloc::Global;
use stx_refusals::{Argument, Fault, Stage, check_count, check_place};
use stx_scenario::{
    BUILT_IN_CLASSES, ClassDecl, List, MOST_BEANS, MOST_CLASSES, MOST_CLIENTS, MOST_CONNECTIONS,
    MOST_EVENTS, MOST_LISTENERS, MOST_METHODS, MOST_ROWS, MOST_SYNCS, MOST_TURNS, Name, NoMemory,
    Scenario,
};

/// What the stages on single places refuse in a scenario, in walk order.
#[tactic(auto, unfolding(crate::specs::Judge::scenario_faults))]
pub fn scenario_faults(alloc: Global, scenario: &Scenario) -> Result<List<Fault>, NoMemory>
    ensures { IfOk result (λ faults. faults ≡ scenario_faults scenario.now) }
{
    let mut faults = List::new(alloc);
    let parts = Parts { alloc, scenario };
    first_faults(&mut faults, &parts)?;
    last_faults(&mut faults, &parts)?;
    Ok(faults)
}

// Up to the beans.
fn first_faults(faults: &mut Faults, parts: &Parts) -> Result<(), NoMemory>
    ensures { OnOk result (faults.new ≡ faults.old ++ events_faults parts.now.scenario.now ++ schedule_faults parts.now.scenario.now ++ settings_faults parts.now.scenario.now ++ rows_faults parts.now.scenario.now ++ classes_faults parts.now.scenario.now) }
{
    let alloc = parts.alloc;
    events_faults(faults, parts)?;
    let schedule = parts.scenario.schedule.as_slice();
    check_array(alloc, faults, "schedule", MOST_TURNS, parts, schedule)?;
    settings_faults(faults, parts)?;
    rows_faults(faults, parts)?;
    let classes = own_classes(parts.scenario);
    check_array(alloc, faults, "classes", MOST_CLASSES, parts, classes)
}

// From the beans on.
fn last_faults(faults: &mut Faults, parts: &Parts) -> Result<(), NoMemory>
    ensures { OnOk result (faults.new ≡ faults.old ++ beans_faults parts.now.scenario.now ++ methods_faults parts.now.scenario.now ++ syncs_faults parts.now.scenario.now ++ listeners_faults parts.now.scenario.now ++ clients_faults parts.now.scenario.now) }
{
    let alloc = parts.alloc;
    let beans = parts.scenario.beans.as_slice();
    check_array(alloc, faults, "beans", MOST_BEANS, parts, beans)?;
    let methods = parts.scenario.methods.as_slice();
    check_array(alloc, faults, "methods", MOST_METHODS, parts, methods)?;
    let syncs = parts.scenario.syncs.as_slice();
    check_array(alloc, faults, "syncs", MOST_SYNCS, parts, syncs)?;
    let listeners = parts.scenario.listeners.as_slice();
    check_array(alloc, faults, "listeners", MOST_LISTENERS, parts, listeners)?;
    clients_faults(faults, parts)
}

fn events_faults(faults: &mut Faults, parts: &Parts) -> Result<(), NoMemory>
    ensures { OnOk result (faults.new ≡ faults.old ++ events_faults parts.now.scenario.now) }
{
    let alloc = parts.alloc;
    let array = parts.place(Argument::from_text(String::from_str(alloc, "events")?));
    let path = array.path.as_str();
    let names = parts.scenario.events.as_slice();
    check_array(alloc, faults, path, MOST_EVENTS, &array, names)
}

fn settings_faults(faults: &mut Faults, parts: &Parts) -> Result<(), NoMemory>
    ensures { OnOk result (faults.new ≡ faults.old ++ settings_faults parts.now.scenario.now) }
{
    let alloc = parts.alloc;
    let pool = parts.scenario.settings.pool;
    let passed = 1 <= pool && pool <= MOST_CONNECTIONS;
    check_place(alloc, faults, "settings.pool", passed, Stage::OutOfRange)
}

fn rows_faults(faults: &mut Faults, parts: &Parts) -> Result<(), NoMemory>
    ensures { OnOk result (faults.new ≡ faults.old ++ rows_faults parts.now.scenario.now) }
{
    let names = first_rows(parts.scenario);
    let count = parts.scenario.values.len();
    check_count(parts.alloc, faults, "rows", MOST_ROWS, count)?;
    check_each(faults, parts, names)
}

fn clients_faults(faults: &mut Faults, parts: &Parts) -> Result<(), NoMemory>
    ensures { OnOk result (faults.new ≡ faults.old ++ clients_faults parts.now.scenario.now) }
{
    let alloc = parts.alloc;
    let count = parts.scenario.clients.len();
    let passed = 1 <= count;
    check_place(alloc, faults, "clients", passed, Stage::OutOfRange)?;
    check_count(alloc, faults, "clients", MOST_CLIENTS, count)?;
    check_each(faults, parts, parts.scenario.clients.as_slice())
}

// The names that the rows section gives.
fn first_rows(scenario: &Scenario) -> &[Name]
    ensures { result.now ≡ first_rows scenario.now }
{
    let names = scenario.row_names.as_slice();
    let count = scenario.values.len();
    if names.len() <= count {
        return names;
    }
    &names[..count]
}

fn own_classes(scenario: &Scenario) -> &[ClassDecl]
    ensures { result.now ≡ own_classes scenario.now }
{
    let classes = scenario.classes.as_slice();
    if classes.len() <= BUILT_IN_CLASSES {
        return &[];
    }
    &classes[BUILT_IN_CLASSES..]
}
