// The names that lines print, looked up by number; where nothing has the number the name is empty.
ghost use Rattle.std.specs.Prelude.{◌≡◌, [], IfOk, string_bytes, slice_get, unwrap_or, option_map};
ghost use Rattle.std.specs.Option.{option_copied};
ghost use Rattle.stx_base.specs.Lines as texts;

use std::alloc::Global;
use stx_base::Label;
use stx_scenario::{
    BeanNo, ClassNo, HasName, List, ListenerNo, Method, MethodNo, Name, NoMemory, Scenario,
};

/// The name of the part with this number, in a list of them.
fn name_at<T: HasName>(parts: &List<T>, number: u32) -> &str
    ensures { result.now ≡ unwrap_or (option_map T.name_of (slice_get parts.now number)) [] }
{
    match parts.get(number as usize) {
        Some(part) => part.name(),
        None => "",
    }
}

/// The name with this number, in a list of names.
pub(crate) fn text_at(names: &List<Name>, number: u32) -> &str
    ensures { result.now ≡ unwrap_or (slice_get names.now number) [] }
{
    match names.get(number as usize) {
        Some(name) => name.as_str(),
        None => "",
    }
}

pub(crate) fn bean_name(scenario: &Scenario, no: BeanNo) -> &str
    ensures { result.now ≡ texts.bean_name scenario.now no }
{
    name_at(&scenario.beans, no.0)
}

pub fn class_name(scenario: &Scenario, no: ClassNo) -> &str
    ensures { result.now ≡ texts.class_name scenario.now no }
{
    name_at(&scenario.classes, no.0)
}

pub fn listener_name(scenario: &Scenario, no: ListenerNo) -> &str
    ensures { result.now ≡ texts.listener_name scenario.now no }
{
    name_at(&scenario.listeners, no.0)
}

/// The name of a registration's synchronisation or listener.
pub fn label_name(scenario: &Scenario, label: Label) -> &str
    ensures { result.now ≡ texts.label_name scenario.now label }
{
    match label {
        Label::Sync(sync) => name_at(&scenario.syncs, sync.0),
        Label::Listener(listener) => listener_name(scenario, listener),
    }
}

/// The method with this number.
pub(crate) fn method_at(scenario: &Scenario, no: MethodNo) -> Option<&Method>
    ensures { option_copied result ≡ slice_get scenario.now.methods no.0 }
{
    scenario.methods.get(no.0 as usize)
}

/// The name of a method after that of its bean, as `bean.method`.
pub fn method_name(alloc: Global, scenario: &Scenario, no: MethodNo) -> Result<String, NoMemory>
    ensures { IfOk result (λ name. string_bytes name ≡ texts.method_name scenario.now no) }
{
    match method_at(scenario, no) {
        Some(method) => {
            let bean = bean_name(scenario, method.bean);
            let name = method.name.as_str();
            Ok(format!(in alloc; "{bean}.{name}")?)
        }
        None => Ok(String::new(alloc)),
    }
}
