// Names that stand twice.
ghost use Rattle.std.specs.Prelude.{◌≡◌, ◌++◌, [], IfOk, None, codes};
ghost use Rattle.stx_scenario.specs.Names.{duplicate_from, built_in_names};
ghost use Rattle.stx_names.specs.Duplicates.{duplicate, duplicate_among as first_duplicate, entry_name as path_of_name};
ghost use Rattle.stx_refusals.specs.Faults.{entry as path_of_entry};

use crate::named::{Named, names_from};
use crate::numbers::Numbers;
use std::alloc::Global;
use stx_refusals::{Argument, ReadFault, entry, under};
use stx_scenario::{Name, NoMemory, built_in_classes};

/// The first name of these that an earlier one has, or one of its group that is told elsewhere; by its path.
pub fn duplicate_among(alloc: Global, named: &Named) -> Result<Option<ReadFault>, NoMemory>
    ensures { IfOk result (λ fault. fault ≡ first_duplicate named.now) }
{
    if let Some(fault) = duplicate_event(alloc, named.events.as_slice())? {
        return Ok(Some(fault));
    }
    if let Some(fault) = duplicate_name(alloc, "rows", named.rows.as_slice())? {
        return Ok(Some(fault));
    }
    if let Some(fault) = duplicate_class(alloc, named.classes.as_slice())? {
        return Ok(Some(fault));
    }
    if let Some(fault) = duplicate_name(alloc, "beans", named.beans.as_slice())? {
        return Ok(Some(fault));
    }
    if let Some(fault) = duplicate_name(alloc, "methods", named.methods.as_slice())? {
        return Ok(Some(fault));
    }
    let mut callbacks = Numbers::new(alloc);
    if let Some(fault) = name_again(alloc, &mut callbacks, "syncs", named.syncs.as_slice())? {
        return Ok(Some(fault));
    }
    name_again(
        alloc,
        &mut callbacks,
        "listeners",
        named.listeners.as_slice(),
    )
}

fn duplicate_event(alloc: Global, events: &[Name]) -> Result<Option<ReadFault>, NoMemory>
    ensures { IfOk result (λ fault. fault ≡ duplicate (path_of_entry (codes "events")) (duplicate_from [] 0 events.now)) }
{
    let mut numbers = Numbers::new(alloc);
    match first_seen(alloc, &mut numbers, events)? {
        Some(at) => Ok(Some(ReadFault::Duplicate(entry(alloc, "events", at)?))),
        None => Ok(None),
    }
}

/// A class that has the name of an earlier one, or of a built-in one.
fn duplicate_class(alloc: Global, classes: &[Name]) -> Result<Option<ReadFault>, NoMemory>
    ensures { IfOk result (λ fault. fault ≡ duplicate (path_of_name (codes "classes")) (duplicate_from built_in_names 0 classes.now)) }
{
    let mut numbers = built_in_numbers(alloc)?;
    name_again(alloc, &mut numbers, "classes", classes)
}

fn duplicate_name(alloc: Global, array: &str, names: &[Name]) -> Result<Option<ReadFault>, NoMemory>
    ensures { IfOk result (λ fault. fault ≡ duplicate (path_of_name array.now) (duplicate_from [] 0 names.now)) }
{
    let mut numbers = Numbers::new(alloc);
    name_again(alloc, &mut numbers, array, names)
}

/// The first entry of an array whose name is among these, or an earlier entry's; where there is none, all are among
/// these.
fn name_again(
    alloc: Global,
    numbers: &mut Numbers,
    array: &str,
    names: &[Name],
) -> Result<Option<ReadFault>, NoMemory>
    ensures fault { IfOk result (λ fault. fault ≡ duplicate (path_of_name array.now) (duplicate_from numbers.old 0 names.now)) }
    ensures names { IfOk result (λ fault. fault ≡ None → numbers.new ≡ numbers.old ++ names.now) }
{
    match first_seen(alloc, numbers, names)? {
        Some(at) => Ok(Some(ReadFault::Duplicate(entry_name(alloc, array, at)?))),
        None => Ok(None),
    }
}

/// The path of the name of an entry.
fn entry_name(alloc: Global, array: &str, at: usize) -> Result<Argument, NoMemory>
    ensures { IfOk result (λ path. path ≡ path_of_name array.now at) }
{
    let path = entry(alloc, array, at)?;
    under(alloc, path.as_str(), "name")
}

/// The place of the first name that is among these, or before it; where there is none, all are among these.
pub fn first_seen(
    alloc: Global,
    numbers: &mut Numbers,
    names: &[Name],
) -> Result<Option<usize>, NoMemory>
    ensures place { IfOk result (λ place. place ≡ duplicate_from numbers.old 0 names.now) }
    ensures names { IfOk result (λ place. place ≡ None → numbers.new ≡ numbers.old ++ names.now) }
{
    for (at, name) in names.iter().enumerate() {
        if !numbers.add(alloc, name.as_str())? {
            return Ok(Some(at));
        }
    }
    Ok(None)
}

/// The names of the built-in classes.
pub fn built_in_numbers(alloc: Global) -> Result<Numbers, NoMemory>
    ensures { IfOk result (λ numbers. numbers ≡ built_in_names) }
{
    let classes = built_in_classes(alloc)?;
    let names = names_from(alloc, classes.as_slice())?;
    with_names(alloc, Numbers::new(alloc), names.as_slice())
}

/// Names that all differ, put at the end of others.
pub fn with_names(alloc: Global, numbers: Numbers, names: &[Name]) -> Result<Numbers, NoMemory>
    requires { duplicate_from numbers 0 names.now ≡ None }
    ensures { IfOk result (λ all. all ≡ numbers ++ names.now) }
{
    let mut numbers = numbers;
    first_seen(alloc, &mut numbers, names)?;
    Ok(numbers)
}
