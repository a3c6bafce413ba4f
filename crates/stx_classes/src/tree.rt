// The tree itself, made from the declarations of the classes.
ghost use Rattle.std.specs.Prelude.{◌≡◌, ◌<◌, ◌^◌, length, take, IfOk, IfErr, OnOk};
ghost use Rattle.stx_scenario.specs.BuiltIn.{built_in};
ghost use Rattle.stx_base.specs.Classes.{parents_of, depth_in, is_below_in, IsTree};
ghost use Rattle.stx_classes.specs.Tree.{IsDue};

use crate::ClassFault;
use crate::steps::{Flaw, first_with, steps_between};
use std::alloc::Global;
use std::marker::Model;
use stx_scenario::{ClassDecl, ClassNo, List, NoMemory};

/// A tree of exception classes, seen as the class above each, in the order of the numbers.
#[derive(Drop)]
pub struct ClassTree {
    parents: Vec<Option<ClassNo>>,
}

impl Model for ClassTree {
    ghost use Rattle.std.specs.Prelude.{length, ◌<◌, ◌^◌};
    ghost use Rattle.stx_base.specs.Classes.{Parents};

    ghost Value = { Parents };

    ghost view = { λ t. t.parents.items };

    ghost invariant = { λ t. length t.parents.items < 2 ^ 32 };
}

impl ClassTree {
    /// The tree of these classes, or why they make none.
    pub fn build(alloc: Global, classes: &List<ClassDecl>) -> Result<ClassTree, ClassFault>
        requires built_in { take (length built_in) classes.now ≡ built_in }
        requires few { length classes.now < 2 ^ 32 }
        ensures ok { IfOk result (λ tree. tree ≡ parents_of classes.now) }
        ensures sound { OnOk result (IsTree classes.now) }
        ensures refused { IfErr result (λ fault. IsDue classes.now fault) }
    {
        let parents = parents_of(alloc, classes)?;
        if let Some(class) = first_with(&parents, Flaw::UnknownParent) {
            return Err(ClassFault::UnknownParent(class));
        }
        if let Some(class) = first_with(&parents, Flaw::OwnAncestor) {
            return Err(ClassFault::Cycle(class));
        }
        if let Some(class) = first_with(&parents, Flaw::TooDeep) {
            return Err(ClassFault::TooDeep(class));
        }
        Ok(ClassTree { parents })
    }

    /// Whether a is b or below it.
    pub fn is_below(&self, a: ClassNo, b: ClassNo) -> bool
        requires a { a.0 < length self.now }
        requires b { b.0 < length self.now }
        ensures { result ≡ is_below_in self.now a.0 b.0 }
    {
        self.depth_to(a, b).is_some()
    }

    /// The steps from a up to b, or `None` where a isn't b or below it.
    pub fn depth_to(&self, a: ClassNo, b: ClassNo) -> Option<u32>
        requires a { a.0 < length self.now }
        requires b { b.0 < length self.now }
        ensures { result ≡ depth_in self.now a.0 b.0 }
    {
        steps_between(&self.parents, a, b)
    }
}

fn parents_of(alloc: Global, classes: &List<ClassDecl>) -> Result<Vec<Option<ClassNo>>, NoMemory>
    ensures { IfOk result (λ parents. parents.items ≡ parents_of classes.now) }
{
    Ok(
        classes
            .as_slice()
            .iter()
            .map(|class| class.parent)
            .collect(alloc)?,
    )
}
