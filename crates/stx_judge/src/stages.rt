// The stages that look at single places and at names, one after the other.
ghost use Rattle.std.specs.Prelude.{◌≡◌, IfOk};
ghost use Rattle.stx_judge.specs.Stages.{place_refusal};

use crate::arrays::scenario_faults;
use std::alloc::Global;
use stx_names::{duplicate_among, names_of};
use stx_refusals::{ReadFault, Stage, first_at};
use stx_scenario::{NoMemory, Scenario};

/// The refusal of the stages up to the look-up of names.
pub fn place_fault(alloc: Global, scenario: &Scenario) -> Result<Option<ReadFault>, NoMemory>
    ensures { IfOk result (λ fault. fault ≡ place_refusal scenario.now) }
{
    let faults = scenario_faults(alloc, scenario)?;
    let faults = faults.as_slice();
    if let Some(fault) = first_at(alloc, Stage::BadName, faults)? {
        return Ok(Some(fault));
    }
    if let Some(fault) = first_at(alloc, Stage::OutOfRange, faults)? {
        return Ok(Some(fault));
    }
    if let Some(fault) = first_at(alloc, Stage::TooMany, faults)? {
        return Ok(Some(fault));
    }
    let names = names_of(alloc, scenario)?;
    if let Some(fault) = duplicate_among(alloc, &names)? {
        return Ok(Some(fault));
    }
    if let Some(fault) = first_at(alloc, Stage::BadWord, faults)? {
        return Ok(Some(fault));
    }
    first_at(alloc, Stage::UnknownRef, faults)
}
