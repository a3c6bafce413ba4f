// The names of a scenario, in the order of the numbers that they stand for.
ghost use Rattle.std.specs.Prelude.{◌≡◌, IfOk, map, string_bytes, take, drop};
ghost use Rattle.stx_names.specs.Duplicates.{names_of as names_of_scenario, method_text as text_of_method_name, number_of_method};

use std::alloc::{AllocError, Global};
use stx_scenario::{BUILT_IN_CLASSES, HasName, List, Method, Name, NoMemory, Scenario};

/// The names of a scenario, group by group. A method's is its bean's and its own, as the group says them.
#[derive(Debug, Drop)]
pub struct Named {
    pub events: List<Name>,
    pub rows: List<Name>,
    pub classes: List<Name>,
    pub beans: List<Name>,
    pub methods: List<Name>,
    pub syncs: List<Name>,
    pub listeners: List<Name>,
}

/// `BEAN.METHOD`.
pub fn method_text(alloc: Global, bean: &str, method: &str) -> Result<String, AllocError>
    ensures { IfOk result (λ text. string_bytes text ≡ text_of_method_name bean.now method.now) }
{
    Ok(format!(in alloc; "{bean}.{method}")?)
}

/// The names of a scenario, without the built-in classes and the rows that only statements name. A method's bean stands
/// there by its number.
pub fn names_of(alloc: Global, scenario: &Scenario) -> Result<Named, NoMemory>
    ensures { IfOk result (λ named. named ≡ names_of_scenario scenario.now) }
{
    let rows = first(scenario.row_names.as_slice(), scenario.values.len());
    let classes = past(scenario.classes.as_slice(), BUILT_IN_CLASSES);
    Ok(Named {
        events: names_from(alloc, scenario.events.as_slice())?,
        rows: names_from(alloc, rows)?,
        classes: names_from(alloc, classes)?,
        beans: names_from(alloc, scenario.beans.as_slice())?,
        methods: numbers_of_methods(alloc, scenario.methods.as_slice())?,
        syncs: names_from(alloc, scenario.syncs.as_slice())?,
        listeners: names_from(alloc, scenario.listeners.as_slice())?,
    })
}

/// The names of some things.
pub fn names_from<T: HasName>(alloc: Global, items: &[T]) -> Result<List<Name>, NoMemory>
    ensures { IfOk result (λ names. names ≡ map T.name_of items.now) }
{
    let mut names = List::new(alloc);
    for item in items {
        names.push(Name::new(alloc, item.name())?)?;
    }
    Ok(names)
}

fn numbers_of_methods(alloc: Global, methods: &[Method]) -> Result<List<Name>, NoMemory>
    ensures { IfOk result (λ names. names ≡ map number_of_method methods.now) }
{
    let mut names = List::new(alloc);
    for method in methods {
        names.push(number_of(alloc, method)?)?;
    }
    Ok(names)
}

/// `BEAN.METHOD`, with the bean's number.
fn number_of(alloc: Global, method: &Method) -> Result<Name, NoMemory>
    ensures { IfOk result (λ name. name ≡ number_of_method method.now) }
{
    let bean = method.bean.0;
    let name = method.name.as_str();
    Ok(Name::from_text(format!(in alloc; "{bean}.{name}")?))
}

/// The first so many items, or all of them.
fn first<T>(items: &[T], count: usize) -> &[T]
    ensures { result.now ≡ take count items.now }
{
    &items[..count.min(items.len())]
}

/// The items but the first so many.
fn past<T>(items: &[T], count: usize) -> &[T]
    ensures { result.now ≡ drop count items.now }
{
    &items[count.min(items.len())..]
}
