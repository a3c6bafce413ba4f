// What the bytes of an input are read as: a scenario, or why there is none.
ghost use Rattle.std.specs.Prelude.{◌≡◌, ◌≢◌, IfOk, OnOk};
ghost use Rattle.stx_scenario.specs.Memory.{no_memory};
ghost use Rattle.stx_refusals.specs.Refusals.{refusal_text as text_of_refusal};
ghost use Rattle.stx_tool.specs.Readings.{IsReading};

use std::alloc::Global;
use stx_read::{ReadFault, read_scenario};
use stx_report::refusal_text;
use stx_scenario::{NoMemory, Scenario};

/// What the bytes of an input are read as.
#[derive(Debug, Drop)]
pub enum Reading {
    /// A valid scenario.
    Accepted(Scenario),
    /// None: the refusal's text.
    Refused(Vec<u8>),
}

/// Reads a scenario.
pub fn read(alloc: Global, bytes: &[u8]) -> Result<Reading, NoMemory>
    ensures { IfOk result (λ reading. IsReading bytes.now reading) }
{
    match read_scenario(alloc, bytes) {
        Ok(scenario) => Ok(Reading::Accepted(scenario)),
        Err(fault) => Ok(Reading::Refused(refusal(alloc, &fault)?)),
    }
}

/// The text of a refusal. For want of memory there is none.
fn refusal(alloc: Global, fault: &ReadFault) -> Result<Vec<u8>, NoMemory>
    ensures text { IfOk result (λ text. text.items ≡ text_of_refusal fault.now) }
    ensures refused { OnOk result (fault.now ≢ ReadFault.NoMemory no_memory) }
{
    if let ReadFault::NoMemory(refused) = fault {
        return Err(*refused);
    }
    refusal_text(alloc, fault)
}
