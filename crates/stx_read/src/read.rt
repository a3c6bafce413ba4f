// Reads a scenario: the stages of refusal, one after the other.
ghost use Rattle.std.specs.Prelude.{◌≡◌, ◌≢◌, IfOk, IfErr, Ok, Err};
ghost use Rattle.stx_scenario.specs.Memory.{no_memory};
ghost use Rattle.stx_judge.specs.Judge.{IsValid};
ghost use Rattle.stx_read.specs.Reading.{scenario_of};

use std::alloc::Global;
use stx_draft::{document_of, drafted, refused_in};
use stx_judge::looked_up_fault;
use stx_refusals::ReadFault;
use stx_scenario::Scenario;

/// Reads the scenario that the bytes of a file state: a TOML document of the format's keys and types, whose names, words
/// and numbers are right, and that is valid. The refusal is that of the first stage that refuses anything, at the first
/// place that it refuses.
#[tactic(auto, unfolding(crate::specs::Reading::scenario_of))]
pub fn read_scenario(alloc: Global, bytes: &[u8]) -> Result<Scenario, ReadFault>
    ensures ok { IfOk result (λ scenario. scenario_of bytes.now ≡ Ok scenario) }
    ensures valid { IfOk result (λ scenario. IsValid scenario) }
    ensures refused { IfErr result (λ fault. fault ≢ ReadFault.NoMemory no_memory → scenario_of bytes.now ≡ Err fault) }
{
    let root = match document_of(alloc, bytes) {
        Ok(root) => root,
        Err(fault) => return Err(fault),
    };
    if let Some(fault) = refused_in(alloc, &root)? {
        return Err(fault);
    }
    let scenario = drafted(alloc, &root)?;
    match looked_up_fault(alloc, &scenario)? {
        Some(fault) => Err(fault),
        None => Ok(scenario),
    }
}
