// The call graph, or why there is none.
ghost use Rattle.std.specs.Prelude.{◌≡◌, IfOk};
ghost use Rattle.stx_base.specs.Weight.{InRange};
ghost use Rattle.stx_judge.specs.Stages.{call_refusal};

use crate::texts::Names;
use std::alloc::Global;
use stx_graph::{Graph, GraphFault};
use stx_refusals::ReadFault;
use stx_scenario::{NoMemory, Scenario};

/// The first method that leads to itself, or that is too deep, or that the whole is too large.
pub fn call_fault(alloc: Global, scenario: &Scenario) -> Result<Option<ReadFault>, NoMemory>
    requires { InRange scenario.now }
    ensures { IfOk result (λ fault. fault ≡ call_refusal scenario.now) }
{
    let names = Names { alloc, scenario };
    match Graph::of(alloc, scenario) {
        Ok(_) => Ok(None),
        Err(GraphFault::CallCycle(method)) => Ok(Some(ReadFault::CallCycle(names.method(method)?))),
        Err(GraphFault::TooDeep(method)) => Ok(Some(ReadFault::CallDepth(names.method(method)?))),
        Err(GraphFault::TooLarge) => Ok(Some(ReadFault::TooLarge)),
        Err(GraphFault::NoMemory(refused)) => Err(refused),
    }
}
