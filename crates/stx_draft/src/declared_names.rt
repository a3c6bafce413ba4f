// The names that the arrays of a document declare, in the order of the numbers that they stand for.
ghost use Rattle.std.specs.Prelude.{◌≡◌, IfOk};
ghost use Rattle.toml.specs.View.{table_view};
ghost use Rattle.stx_draft.specs.DeclaredNames.{names_in as names_of_document, names_at as names_of_array};

use crate::parts::{tables_at, text_at, texts_at};
use std::alloc::Global;
use stx_names::{Named, method_text};
use stx_scenario::{List, Name, NoMemory};
use toml::Table;

/// The names that the arrays of a document declare.
pub fn names_in(alloc: Global, root: &Table) -> Result<Named, NoMemory>
    ensures { IfOk result (λ named. named ≡ names_of_document (table_view root.now)) }
{
    Ok(Named {
        events: event_names(alloc, root)?,
        rows: names_at(alloc, root, "rows")?,
        classes: names_at(alloc, root, "classes")?,
        beans: names_at(alloc, root, "beans")?,
        methods: method_names(alloc, root)?,
        syncs: names_at(alloc, root, "syncs")?,
        listeners: names_at(alloc, root, "listeners")?,
    })
}

fn event_names(alloc: Global, root: &Table) -> Result<List<Name>, NoMemory>
    ensures { IfOk result (λ names. names ≡ (names_of_document (table_view root.now)).events) }
{
    let texts = texts_at(alloc, root, "events")?;
    let mut names = List::new(alloc);
    for text in texts.as_slice() {
        names.push(Name::new(alloc, text)?)?;
    }
    Ok(names)
}

/// The names of the tables of an array.
fn names_at(alloc: Global, root: &Table, array: &str) -> Result<List<Name>, NoMemory>
    ensures { IfOk result (λ names. names ≡ names_of_array array.now (table_view root.now)) }
{
    let tables = tables_at(alloc, root, array)?;
    let mut names = List::new(alloc);
    for table in tables.as_slice() {
        names.push(Name::new(alloc, text_at(table, "name"))?)?;
    }
    Ok(names)
}

fn method_names(alloc: Global, root: &Table) -> Result<List<Name>, NoMemory>
    ensures { IfOk result (λ names. names ≡ (names_of_document (table_view root.now)).methods) }
{
    let tables = tables_at(alloc, root, "methods")?;
    let mut names = List::new(alloc);
    for table in tables.as_slice() {
        let text = method_text(alloc, text_at(table, "bean"), text_at(table, "name"))?;
        names.push(Name::from_text(text))?;
    }
    Ok(names)
}
