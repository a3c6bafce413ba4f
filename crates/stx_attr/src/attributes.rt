// The attributes of a scenario's methods, as copies, so that they stand beside the scenario.
ghost use Rattle.std.specs.Prelude.{◌≡◌, IfOk, slice_get};
ghost use Rattle.std.specs.Option.{option_and_then, option_copied};
ghost use Rattle.stx_scenario.specs.declared.scenario.Scenario.{Scenario as ScenarioData};
ghost use Rattle.stx_base.specs.Attributes.{attribute, attributes, method_attribute};

use std::alloc::Global;
use std::marker::Model;
use stx_scenario::{Method, MethodNo, NoMemory, Scenario, TxAttr};

/// The transaction attributes of methods, seen as the list of each method's, in the order of the methods' numbers.
#[derive(Drop)]
pub struct Attributes {
    of_methods: Vec<Option<TxAttr>>,
}

impl Model for Attributes {
    ghost use Rattle.std.specs.Prelude.{List, Option};
    ghost use Rattle.stx_scenario.specs.declared.scenario.TxAttr.{TxAttr as Attribute};

    ghost Value = { List (Option Attribute) };

    ghost view = { λ a. a.of_methods.items };
}

impl Attributes {
    /// The attributes of a scenario's methods: a method's own, else its bean's, else none.
    pub fn resolve(alloc: Global, scenario: &Scenario) -> Result<Attributes, NoMemory>
        ensures { IfOk result (λ resolved. resolved ≡ attributes scenario.now) }
    {
        let mut of_methods = Vec::new(alloc);
        for method in scenario.methods.as_slice() {
            of_methods.push(copied_attribute(alloc, scenario, method)?)?;
        }
        Ok(Attributes { of_methods })
    }

    /// The attribute of a method, or `None` where it has none.
    pub fn of(&self, method: MethodNo) -> Option<&TxAttr>
        ensures listed { option_copied result ≡ option_and_then (λ listed. listed) (slice_get self.now method.0) }

        // In the scenario whose attributes these are, it is the method's attribute.
        ensures attribute { (S : ScenarioData) → self.now ≡ attributes S → option_copied result ≡ attribute S method }
    {
        match self.of_methods.get(method.0 as usize) {
            Some(listed) => listed.as_ref(),
            None => None,
        }
    }
}

fn copied_attribute(
    alloc: Global,
    scenario: &Scenario,
    method: &Method,
) -> Result<Option<TxAttr>, NoMemory>
    ensures { IfOk result (λ copied. copied ≡ method_attribute scenario.now method.now) }
{
    match attribute_in(scenario, method) {
        Some(attribute) => Ok(Some(attribute.copy(alloc)?)),
        None => Ok(None),
    }
}

// The method's own attribute, else its bean's.
fn attribute_in<'a>(scenario: &'a Scenario, method: &'a Method) -> Option<&'a TxAttr>
    ensures { option_copied result ≡ method_attribute scenario.now method.now }
{
    match &method.tx {
        Some(own) => Some(own),
        None => match scenario.beans.get(method.bean.0 as usize) {
            Some(bean) => bean.tx.as_ref(),
            None => None,
        },
    }
}
