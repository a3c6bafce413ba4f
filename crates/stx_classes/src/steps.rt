// Steps from a class up to those above it, and the classes that make no tree.
ghost use Rattle.std.specs.Prelude.{◌≡◌, ◌<◌, ◌^◌, length};
ghost use Rattle.stx_classes.specs.inner.Flaws.{has_flaw};
ghost use Rattle.stx_base.specs.Classes.{number_above, parent_in, depth_in, has_unknown_parent, is_own_ancestor, is_too_deep, first_class};

use stx_scenario::{ClassNo, DEEPEST_CLASS, THROWABLE};

/// What keeps a class, and so all of them, from standing in a tree.
#[derive(Clone, Copy)]
pub(crate) enum Flaw {
    UnknownParent,
    OwnAncestor,
    TooDeep,
}

/// The class above; `None` for a number out of range too.
fn parent_in(parents: &[Option<ClassNo>], class: ClassNo) -> Option<ClassNo>
    ensures { number_above result ≡ parent_in parents.now class.0 }
{
    match parents.get(class.0 as usize) {
        Some(parent) => *parent,
        None => None,
    }
}

/// The steps from a class up to another, if that one is above it or the same.
pub(crate) fn steps_between(parents: &[Option<ClassNo>], from: ClassNo, to: ClassNo) -> Option<u32>
    requires { length parents.now < 2 ^ 32 }
    ensures { result ≡ depth_in parents.now from.0 to.0 }
{
    let mut class = from;
    for steps in 0..parents.len() as u32 {
        if class == to {
            return Some(steps);
        }
        match parent_in(parents, class) {
            Some(parent) => class = parent,
            None => return None,
        }
    }
    None
}

fn has_unknown_parent(parents: &[Option<ClassNo>], class: ClassNo) -> bool
    ensures { result ≡ has_unknown_parent parents.now class.0 }
{
    match parent_in(parents, class) {
        Some(parent) => parent.0 as usize >= parents.len(),
        None => class != THROWABLE,
    }
}

fn is_own_ancestor(parents: &[Option<ClassNo>], class: ClassNo) -> bool
    requires { length parents.now < 2 ^ 32 }
    ensures { result ≡ is_own_ancestor parents.now class.0 }
{
    match parent_in(parents, class) {
        Some(parent) => steps_between(parents, parent, class).is_some(),
        None => false,
    }
}

fn is_too_deep(parents: &[Option<ClassNo>], class: ClassNo) -> bool
    requires { length parents.now < 2 ^ 32 }
    ensures { result ≡ is_too_deep parents.now class.0 }
{
    match steps_between(parents, class, THROWABLE) {
        Some(steps) => steps > DEEPEST_CLASS,
        None => false,
    }
}

fn has_flaw(parents: &[Option<ClassNo>], flaw: Flaw, class: ClassNo) -> bool
    requires { length parents.now < 2 ^ 32 }
    ensures { result ≡ has_flaw flaw parents.now class.0 }
{
    match flaw {
        Flaw::UnknownParent => has_unknown_parent(parents, class),
        Flaw::OwnAncestor => is_own_ancestor(parents, class),
        Flaw::TooDeep => is_too_deep(parents, class),
    }
}

/// The first class, in the order of the numbers, that has the flaw.
pub(crate) fn first_with(parents: &[Option<ClassNo>], flaw: Flaw) -> Option<ClassNo>
    requires { length parents.now < 2 ^ 32 }
    ensures { number_above result ≡ first_class parents.now (has_flaw flaw parents.now) }
{
    for number in 0..parents.len() as u32 {
        if has_flaw(parents, flaw, ClassNo(number)) {
            return Some(ClassNo(number));
        }
    }
    None
}
