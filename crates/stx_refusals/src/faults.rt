// The faults that a walk meets, and which of them is the refusal.
ghost use Rattle.std.specs.Prelude.{◌≡◌, ◌++◌, IfOk, OnOk, Some, find};
ghost use Rattle.std.specs.Option.{option_copied};
ghost use Rattle.stx_refusals.specs.Faults.{refused, is_stage, first_at as first_of_stage, refusal_at as refusal_of};

use crate::fault::{Argument, Fault, ReadFault, Stage};
use std::alloc::Global;
use stx_scenario::{List, NoMemory};

/// Puts a fault at the end.
pub fn refuse(faults: &mut List<Fault>, stage: Stage, path: Argument) -> Result<(), NoMemory>
    ensures { OnOk result (faults.new ≡ faults.old ++ refused path (Some stage)) }
{
    faults.push(Fault { stage, path })
}

/// The first place that a stage refuses.
#[tactic(auto, unfolding(crate::specs::Faults::first_at))]
pub fn first_at(
    alloc: Global,
    stage: Stage,
    faults: &[Fault],
) -> Result<Option<ReadFault>, NoMemory>
    ensures { IfOk result (λ first. first ≡ first_of_stage stage faults.now) }
{
    match first_fault(stage, faults) {
        Some(fault) => {
            let path = Argument::from_text(String::from_str(alloc, fault.path.as_str())?);
            Ok(Some(refusal_at(stage, path)))
        }
        None => Ok(None),
    }
}

fn first_fault(stage: Stage, faults: &[Fault]) -> Option<&Fault>
    ensures { option_copied result ≡ find (λ fault. is_stage stage fault.stage) faults.now }
{
    faults.iter().find(|fault| is_same(stage, fault.stage))
}

fn is_same(stage: Stage, other: Stage) -> bool
    ensures { result ≡ is_stage stage other }
{
    stage == other
}

fn refusal_at(stage: Stage, path: Argument) -> ReadFault
    ensures { result ≡ refusal_of stage path }
{
    match stage {
        Stage::UnknownKey => ReadFault::UnknownKey(path),
        Stage::Missing => ReadFault::Missing(path),
        Stage::WrongType => ReadFault::WrongType(path),
        Stage::BadName => ReadFault::BadName(path),
        Stage::OutOfRange => ReadFault::OutOfRange(path),
        Stage::TooMany => ReadFault::TooMany(path),
        Stage::BadWord => ReadFault::BadWord(path),
        Stage::UnknownRef => ReadFault::UnknownRef(path),
        Stage::CallbackBody => ReadFault::CallbackBody(path),
    }
}
