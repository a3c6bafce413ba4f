// What is refused at single places. A path is made only where its place is refused.
ghost use Rattle.std.specs.Prelude.{◌≡◌, ◌++◌, OnOk};
ghost use Rattle.stx_refusals.specs.Faults.{under as path_under, entry as path_of_entry, refused, unless, count_faults};

use crate::fault::{Argument, Fault, Stage};
use crate::faults::refuse;
use crate::path::{entry, under};
use std::alloc::Global;
use stx_scenario::{List, NoMemory};

/// Refuses an entry of the array at a path, unless it passed.
pub fn check_entry(
    alloc: Global,
    faults: &mut List<Fault>,
    path: &str,
    at: usize,
    passed: bool,
    stage: Stage,
) -> Result<(), NoMemory>
    ensures { OnOk result (faults.new ≡ faults.old ++ refused (path_of_entry path.now at) (unless passed stage)) }
{
    if passed {
        return Ok(());
    }
    refuse(faults, stage, entry(alloc, path, at)?)
}

/// Refuses the value under a key of the table at a path, unless it passed.
pub fn check_key(
    alloc: Global,
    faults: &mut List<Fault>,
    path: &str,
    key: &str,
    passed: bool,
    stage: Stage,
) -> Result<(), NoMemory>
    ensures { OnOk result (faults.new ≡ faults.old ++ refused (path_under path.now key.now) (unless passed stage)) }
{
    if passed {
        return Ok(());
    }
    refuse(faults, stage, under(alloc, path, key)?)
}

/// Refuses a place, unless it passed.
pub fn check_place(
    alloc: Global,
    faults: &mut List<Fault>,
    path: &str,
    passed: bool,
    stage: Stage,
) -> Result<(), NoMemory>
    ensures { OnOk result (faults.new ≡ faults.old ++ refused path.now (unless passed stage)) }
{
    if passed {
        return Ok(());
    }
    refuse(
        faults,
        stage,
        Argument::from_text(String::from_str(alloc, path)?),
    )
}

/// Refuses an array with more entries than it may have.
pub fn check_count(
    alloc: Global,
    faults: &mut List<Fault>,
    path: &str,
    most: usize,
    count: usize,
) -> Result<(), NoMemory>
    ensures { OnOk result (faults.new ≡ faults.old ++ count_faults most path.now count) }
{
    check_place(alloc, faults, path, count <= most, Stage::TooMany)
}
