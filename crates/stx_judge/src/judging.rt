// Whether a scenario that is a value is valid, and else why it isn't.
ghost use Rattle.std.specs.Prelude.{◌≡◌, ◌≢◌, length, take, Some, None, IfOk, IfErr, OnOk};
ghost use Rattle.std.specs.Option.{option_or};
ghost use Rattle.stx_scenario.specs.BuiltIn.{built_in};
ghost use Rattle.stx_scenario.specs.Memory.{no_memory};
ghost use Rattle.stx_refusals.specs.declared.fault.ReadFault.{ReadFault as Fault};
ghost use Rattle.stx_refusals.specs.declared.fault.Stage.{Stage};
ghost use Rattle.stx_refusals.specs.Faults.{first_at as first_of_stage};
ghost use Rattle.stx_judge.specs.Stages.{linked_refusal, looked_up, PlacesQuiet};
ghost use Rattle.stx_judge.specs.Judge.{judged as refusal_of, scenario_faults as faults_of};
ghost use Rattle.stx_base.specs.Valid.{IsShaped, PlacesInOrder};

use crate::arrays::scenario_faults;
use crate::callbacks::callback_fault;
use crate::calls::call_fault;
use crate::classes::class_tree;
use crate::stages::place_fault;
use std::alloc::Global;
use stx_refusals::{ReadFault, Stage, first_at};
use stx_scenario::{NoMemory, Scenario};

/// Whether a scenario is valid: the first stage that refuses anything, at its first place, is the refusal.
pub fn judge(alloc: Global, scenario: &Scenario) -> Result<(), ReadFault>
    requires { IsShaped scenario.now }
    ensures ok { OnOk result (refusal_of scenario.now ≡ None) }
    ensures refused { IfErr result (λ fault. fault ≢ Fault.NoMemory no_memory → refusal_of scenario.now ≡ Some fault) }
{
    match judged(alloc, scenario) {
        Ok(None) => Ok(()),
        Ok(Some(fault)) => Err(fault),
        Err(refused) => Err(ReadFault::NoMemory(refused)),
    }
}

/// The refusal of a scenario, of which only what the stages need is asked.
pub fn judged(alloc: Global, scenario: &Scenario) -> Result<Option<ReadFault>, NoMemory>
    requires { take (length built_in) scenario.now.classes ≡ built_in }
    ensures { IfOk result (λ fault. fault ≡ refusal_of scenario.now) }
{
    let fault = place_fault(alloc, scenario)?;
    or_linked_fault(alloc, scenario, fault)
}

/// The refusal of a scenario whose single places are right: that of the stages from the look-up of names on.
pub fn looked_up_fault(alloc: Global, scenario: &Scenario) -> Result<Option<ReadFault>, NoMemory>
    requires built_in { take (length built_in) scenario.now.classes ≡ built_in }
    requires places { PlacesQuiet scenario.now }
    ensures { IfOk result (λ fault. fault ≡ looked_up scenario.now) }
{
    let fault = unknown_reference(alloc, scenario)?;
    or_linked_fault(alloc, scenario, fault)
}

/// The first place that names nothing.
pub fn unknown_reference(alloc: Global, scenario: &Scenario) -> Result<Option<ReadFault>, NoMemory>
    ensures { IfOk result (λ fault. fault ≡ first_of_stage Stage.UnknownRef (faults_of scenario.now)) }
{
    let faults = scenario_faults(alloc, scenario)?;
    first_at(alloc, Stage::UnknownRef, faults.as_slice())
}

/// This refusal, or else that of the stages that come after single places.
fn or_linked_fault(
    alloc: Global,
    scenario: &Scenario,
    fault: Option<ReadFault>,
) -> Result<Option<ReadFault>, NoMemory>
    requires built_in { take (length built_in) scenario.now.classes ≡ built_in }
    requires order { fault ≡ None → PlacesInOrder scenario.now }
    ensures { IfOk result (λ first. first ≡ option_or fault (linked_refusal scenario.now)) }
{
    match fault {
        Some(fault) => Ok(Some(fault)),
        None => linked_fault(alloc, scenario),
    }
}

/// The refusal of the stages that look at how classes, callbacks and calls hang together.
fn linked_fault(alloc: Global, scenario: &Scenario) -> Result<Option<ReadFault>, NoMemory>
    requires built_in { take (length built_in) scenario.now.classes ≡ built_in }
    requires order { PlacesInOrder scenario.now }
    ensures { IfOk result (λ fault. fault ≡ linked_refusal scenario.now) }
{
    let tree = match class_tree(alloc, scenario)? {
        Ok(tree) => tree,
        Err(fault) => return Ok(Some(fault)),
    };
    if let Some(fault) = callback_fault(alloc, scenario, &tree)? {
        return Ok(Some(fault));
    }
    let fault = call_fault(alloc, scenario)?;
    Ok(fault)
}
