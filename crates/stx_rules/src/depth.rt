// How deep a rule is for a thrown class: the steps up to the first class that it matches.
ghost use Rattle.std.specs.Prelude.{◌≡◌, ◌<◌, ◌^◌, length};
ghost use Rattle.stx_base.specs.Classes.{number_above, parent_of};
ghost use Rattle.stx_base.specs.Rules.{has_part, matches, rule_depth};

use stx_scenario::{ClassDecl, ClassNo, Name, Rule, RuleBy};

fn is_named_with(part: &Name, class: &ClassDecl) -> bool
    ensures { result ≡ has_part part.now class.now.name }
{
    class.name.as_str().contains(part.as_str())
}

fn matches(classes: &[ClassDecl], by: &RuleBy, class: ClassNo) -> bool
    ensures { result ≡ matches classes.now by.now class.0 }
{
    match by {
        RuleBy::Class(wanted) => class == *wanted,
        RuleBy::Pattern(part) => match classes.get(class.0 as usize) {
            Some(declared) => is_named_with(part, declared),
            None => false,
        },
    }
}

fn parent_of(classes: &[ClassDecl], class: ClassNo) -> Option<ClassNo>
    ensures { number_above result ≡ parent_of classes.now class.0 }
{
    match classes.get(class.0 as usize) {
        Some(declared) => declared.parent,
        None => None,
    }
}

/// The steps from the thrown class up to the first that the rule matches (`RollbackRuleAttribute.getDepth`).
pub(crate) fn rule_depth(classes: &[ClassDecl], rule: &Rule, thrown: ClassNo) -> Option<u32>
    requires { length classes.now < 2 ^ 32 }
    ensures { result ≡ rule_depth classes.now thrown.0 rule.now }
{
    let mut class = thrown;
    for steps in 0..classes.len() as u32 {
        if matches(classes, &rule.by, class) {
            return Some(steps);
        }
        match parent_of(classes, class) {
            Some(parent) => class = parent,
            None => return None,
        }
    }
    None
}
