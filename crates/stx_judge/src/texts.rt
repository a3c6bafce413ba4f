// The texts of names by number, as refusals give them.
ghost use Rattle.std.specs.Prelude.{◌≡◌, ◌<◌, length, IfOk};
ghost use Rattle.stx_base.specs.Lines.{bean_name, class_name, method_name};

use std::alloc::Global;
use stx_refusals::Argument;
use stx_scenario::{BeanNo, ClassNo, MethodNo, NoMemory, Scenario};

/// What refusals call the parts of a scenario.
#[derive(Drop)]
pub struct Names<'a> {
    pub alloc: Global,
    pub scenario: &'a Scenario,
}

impl<'a> Names<'a> {
    pub fn class(&self, class: ClassNo) -> Result<Argument, NoMemory>
        requires { class.0 < length self.now.scenario.now.classes }
        ensures { IfOk result (λ name. name ≡ class_name self.now.scenario.now class) }
    {
        let name = self.scenario.class(class).name.as_str();
        Ok(Argument::from_text(String::from_str(self.alloc, name)?))
    }

    /// A method as `BEAN.METHOD`.
    pub fn method(&self, method: MethodNo) -> Result<Argument, NoMemory>
        requires { method.0 < length self.now.scenario.now.methods }
        ensures { IfOk result (λ name. name ≡ method_name self.now.scenario.now method) }
    {
        let method = self.scenario.method(method);
        let bean = bean_name(self.scenario, method.bean);
        let name = method.name.as_str();
        Ok(Argument::from_text(format!(in self.alloc; "{bean}.{name}")?))
    }
}

fn bean_name(scenario: &Scenario, bean: BeanNo) -> &str
    ensures { result.now ≡ bean_name scenario.now bean }
{
    match scenario.beans.get(bean.0 as usize) {
        Some(bean) => bean.name.as_str(),
        None => "",
    }
}
