// The tree of the classes, or why they make none.
ghost use Rattle.std.specs.Prelude.{◌≡◌, length, take, Some, IfOk, MatchResult};
ghost use Rattle.stx_scenario.specs.BuiltIn.{built_in};
ghost use Rattle.stx_base.specs.Classes.{parents_of, IsTree};
ghost use Rattle.stx_base.specs.Valid.{PlacesInOrder};
ghost use Rattle.stx_judge.specs.Stages.{class_refusal};

use crate::texts::Names;
use std::alloc::Global;
use stx_classes::{ClassFault, ClassTree};
use stx_refusals::ReadFault;
use stx_scenario::{NoMemory, Scenario};

/// The tree of a scenario's classes, each of which has a parent, or the refusal where they make none.
pub fn class_tree(
    alloc: Global,
    scenario: &Scenario,
) -> Result<Result<ClassTree, ReadFault>, NoMemory>
    requires built_in { take (length built_in) scenario.now.classes ≡ built_in }
    requires order { PlacesInOrder scenario.now }
    ensures { IfOk result (λ made. MatchResult made (λ tree. (tree ≡ parents_of scenario.now.classes) × IsTree scenario.now.classes) (λ fault. class_refusal scenario.now ≡ Some fault)) }
{
    let names = Names { alloc, scenario };
    match ClassTree::build(alloc, &scenario.classes) {
        Ok(tree) => Ok(Ok(tree)),
        Err(ClassFault::UnknownParent(_)) => unreachable!(),
        Err(ClassFault::Cycle(class)) => Ok(Err(ReadFault::ClassCycle(names.class(class)?))),
        Err(ClassFault::TooDeep(class)) => Ok(Err(ReadFault::ClassDepth(names.class(class)?))),
        Err(ClassFault::NoMemory(refused)) => Err(refused),
    }
}
