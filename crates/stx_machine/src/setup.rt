// What all clients of a scenario share.
ghost use Rattle.std.specs.Prelude.{◌≡◌, ◌<◌, ◌^◌, IfOk, length, take};
ghost use Rattle.stx_scenario.specs.BuiltIn.{built_in};
ghost use Rattle.stx_base.specs.Attributes.{attributes as attributes_of};
ghost use Rattle.stx_base.specs.Classes.{IsTree, parents_of};

use std::alloc::Global;
use stx_attr::Attributes;
use stx_classes::{ClassFault, ClassTree};
use stx_scenario::{NoMemory, Scenario};

/// A scenario, ready to be played: with the tree of its classes and the attributes of its methods.
#[derive(Drop)]
pub struct Setup {
    pub scenario: Scenario,
    pub classes: ClassTree,
    pub attributes: Attributes,
    pub ghost classes_are: { classes ≡ parents_of scenario.classes },
    pub ghost attributes_are: { attributes ≡ attributes_of scenario },
}

impl Setup {
    /// The scenario with its tree and its attributes.
    pub fn new(alloc: Global, scenario: Scenario) -> Result<Setup, NoMemory>
        requires built_in { take (length built_in) scenario.classes ≡ built_in }
        requires few_classes { length scenario.classes < 2 ^ 32 }
        requires tree { IsTree scenario.classes }
        ensures { IfOk result (λ setup. setup.scenario ≡ scenario) }
    {
        let classes = match ClassTree::build(alloc, &scenario.classes) {
            Ok(classes) => classes,
            Err(ClassFault::NoMemory(refused)) => return Err(refused),
            Err(_) => unreachable!(),
        };
        let attributes = Attributes::resolve(alloc, &scenario)?;
        Ok(Setup {
            scenario,
            classes,
            attributes,
        })
    }
}
