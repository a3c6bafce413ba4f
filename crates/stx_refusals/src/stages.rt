// What some stages refuse, one after the other.
ghost use Rattle.std.specs.Prelude.{◌≡◌, IfOk};
ghost use Rattle.stx_refusals.specs.Stages.{first_among as first_of_stages};

use crate::fault::{Fault, ReadFault, Stage};
use crate::faults::first_at;
use std::alloc::Global;
use stx_scenario::NoMemory;

/// The first place of the first of these stages that refuses any.
pub fn first_among(
    alloc: Global,
    stages: &[Stage],
    faults: &[Fault],
) -> Result<Option<ReadFault>, NoMemory>
    ensures { IfOk result (λ first. first ≡ first_of_stages stages.now faults.now) }
{
    for stage in stages {
        if let Some(fault) = first_at(alloc, *stage, faults)? {
            return Ok(Some(fault));
        }
    }
    Ok(None)
}
