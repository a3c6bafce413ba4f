// The text of the rules: what is decided where each class is thrown out of each method that has an attribute.
ghost use Rattle.std.specs.Prelude.{◌≡◌, ◌<◌, ◌^◌, ◌++◌, IfOk, OnOk, IfSome, Some, length, string_bytes, take};
ghost use Rattle.stx_scenario.specs.BuiltIn.{built_in};
ghost use Rattle.stx_scenario.specs.declared.numbers.MethodNo.{MethodNo as MethodNumber};
ghost use Rattle.stx_base.specs.Attributes.{attribute as attribute_of, attributes as attributes_of};
ghost use Rattle.stx_base.specs.Classes.{parents_of};
ghost use Rattle.stx_base.specs.Lines as texts;
ghost use Rattle.stx_base.specs.RulesText.{rules_text, method_decisions, decisions_text};
ghost use Rattle.stx_report.specs.inner.Decisions.{decision_line};

use crate::text::push_text;
use std::alloc::Global;
use stx_attr::Attributes;
use stx_classes::ClassTree;
use stx_rules::{Decision, decide};
use stx_scenario::{ClassNo, MethodNo, NoMemory, Scenario, TxAttr};
use stx_trace::{class_name, decision_word, method_name};

/// The text of what the rules decide: a line for each class and each method that has an attribute, in the order of the
/// numbers. The tree and the attributes are those of the scenario.
pub fn rules_text(
    alloc: Global,
    scenario: &Scenario,
    tree: &ClassTree,
    attributes: &Attributes,
) -> Result<Vec<u8>, NoMemory>
    requires tree { tree.now ≡ parents_of scenario.now.classes }
    requires attributes { attributes.now ≡ attributes_of scenario.now }
    requires built_in { take (length built_in) scenario.now.classes ≡ built_in }
    requires few_classes { length scenario.now.classes < 2 ^ 32 }
    requires few_methods { length scenario.now.methods < 2 ^ 32 }
    requires few_rules { (m : MethodNumber) →
        IfSome (attribute_of scenario.now m) (λ attribute. length attribute.rules < 2 ^ 32) }
    ensures { IfOk result (λ text. text.items ≡ rules_text scenario.now) }
{
    let mut out = Vec::new(alloc);
    for method in 0..scenario.methods.len() as u32 {
        push_method(
            alloc,
            &mut out,
            scenario,
            tree,
            attributes,
            MethodNo(method),
        )?;
    }
    push_text(&mut out, "end\n")?;
    Ok(out)
}

/// Appends a method's lines; none where it has no attribute.
fn push_method(
    alloc: Global,
    out: &mut Vec<u8>,
    scenario: &Scenario,
    tree: &ClassTree,
    attributes: &Attributes,
    method: MethodNo,
) -> Result<(), NoMemory>
    requires tree { tree.now ≡ parents_of scenario.now.classes }
    requires attributes { attributes.now ≡ attributes_of scenario.now }
    requires built_in { take (length built_in) scenario.now.classes ≡ built_in }
    requires few_classes { length scenario.now.classes < 2 ^ 32 }
    requires few_rules { IfSome (attribute_of scenario.now method)
        (λ attribute. length attribute.rules < 2 ^ 32) }
    ensures { OnOk result
        (out.new.items ≡ out.old.items ++ method_decisions scenario.now method) }
{
    match attributes.of(method) {
        Some(attribute) => push_decisions(alloc, out, scenario, tree, method, attribute),
        None => Ok(()),
    }
}

/// Appends a line for each class that is thrown out of a method with this attribute.
fn push_decisions(
    alloc: Global,
    out: &mut Vec<u8>,
    scenario: &Scenario,
    tree: &ClassTree,
    method: MethodNo,
    attribute: &TxAttr,
) -> Result<(), NoMemory>
    requires tree { tree.now ≡ parents_of scenario.now.classes }
    requires built_in { take (length built_in) scenario.now.classes ≡ built_in }
    requires few_classes { length scenario.now.classes < 2 ^ 32 }
    requires few_rules { length attribute.now.rules < 2 ^ 32 }
    ensures { OnOk result (out.new.items ≡
        out.old.items ++ decisions_text scenario.now method (Some attribute.now)) }
{
    let name = method_name(alloc, scenario, method)?;
    for class in 0..scenario.classes.len() as u32 {
        let class = ClassNo(class);
        let decision = decide(tree, scenario, &attribute.rules, class);
        let text = line(alloc, name.as_str(), class_name(scenario, class), decision)?;
        push_text(out, text.as_str())?;
    }
    Ok(())
}

/// The line of a class that is thrown out of a method, by their names.
fn line(alloc: Global, method: &str, class: &str, decision: Decision) -> Result<String, NoMemory>
    ensures { IfOk result (λ text. string_bytes text ≡
        decision_line method.now class.now decision.rollback decision.winner) }
{
    let word = decision_word(decision.rollback);
    let winner = winner_text(alloc, decision.winner)?;
    Ok(format!(in alloc; "rules {method} {class} {word} by {winner}\n")?)
}

/// The place of the rule that decides, or the word where none does.
fn winner_text(alloc: Global, winner: Option<u32>) -> Result<String, NoMemory>
    ensures { IfOk result (λ text. string_bytes text ≡ texts.winner_text winner) }
{
    match winner {
        Some(place) => Ok(format!(in alloc; "{place}")?),
        None => Ok(String::from_str(alloc, "default")?),
    }
}
