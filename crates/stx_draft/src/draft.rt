// The scenario that a document states: names become numbers, and a name of nothing becomes a number that nothing has.
ghost use Rattle.std.specs.Prelude.{◌≡◌, ◌++◌, ◌<◌, ◌^◌, [], IfOk, OnOk, None, map, length, codes, pos};
ghost use Rattle.std.specs.List.{flat_map};
ghost use Rattle.toml.specs.View.{table_view};
ghost use Rattle.stx_scenario.specs.BuiltIn.{built_in};
ghost use Rattle.stx_scenario.specs.Names.{built_in_names, duplicate_from};
ghost use Rattle.stx_names.specs.Duplicates.{duplicate_among};
ghost use Rattle.stx_draft.specs.DeclaredNames.{names_in as names_of_document};
ghost use Rattle.stx_draft.specs.Draft.{numbered_by, bean_in, calls_in, class_in, drafted as drafted_of, listener_in, method_in_table, sync_in, natural as natural_of, sentences_of};
ghost use Rattle.stx_draft.specs.inner.Growing.{grown, Lasts};
ghost use Rattle.stx_draft.specs.Parts.{numbers_at as numbers_of, tables_at as tables_of, number_at as number_of};

mod settings;
mod statements;
mod tables;
mod tx;

use crate::declared_names::names_in;
use crate::parts::{number_at, numbers_at, tables_at};
use settings::{natural, settings_of};
use std::alloc::Global;
use stx_names::{Named, Numbered, Numbers, built_in_numbers, with_names};
use stx_scenario::{
    Bean, Calls, ClassDecl, List, Listener, Method, Name, NoMemory, Scenario, SyncDecl,
    built_in_classes,
};
use tables::{Bodied, Drafted, draft_each};
use toml::Table;

/// What a document lists.
#[derive(Drop)]
struct Listed {
    events: List<Name>,
    schedule: List<u32>,
    row_names: List<Name>,
    values: List<i64>,
    classes: List<ClassDecl>,
}

/// What a document declares with statements.
#[derive(Drop)]
struct Bodies {
    methods: List<Method>,
    syncs: List<SyncDecl>,
    listeners: List<Listener>,
}

/// The scenario that a document states, whose names all differ.
pub fn drafted(alloc: Global, root: &Table) -> Result<Scenario, NoMemory>
    requires { duplicate_among (names_of_document (table_view root.now)) ≡ None }
    ensures drafted { IfOk result (λ scenario. scenario ≡ drafted_of (table_view root.now)) }
    ensures few_rows { IfOk result (λ scenario. length scenario.row_names < 2 ^ 32) }
{
    let settings = settings_of(root);
    let mut names = declared_numbers(alloc, root)?;
    let bodies = bodies_in(alloc, root, &mut names)?;
    let listed = listed_in(alloc, root, &names)?;
    let beans = tables_of_array(alloc, root, "beans", &names)?;
    let clients = tables_of_array(alloc, root, "clients", &names)?;
    Ok(Scenario {
        settings,
        events: listed.events,
        schedule: listed.schedule,
        row_names: listed.row_names,
        values: listed.values,
        classes: listed.classes,
        beans,
        methods: bodies.methods,
        syncs: bodies.syncs,
        listeners: bodies.listeners,
        clients,
    })
}

fn listed_in(alloc: Global, root: &Table, names: &Numbered) -> Result<Listed, NoMemory>
    ensures events { IfOk result (λ listed. listed.events ≡ names.now.events) }
    ensures schedule { IfOk result (λ listed. listed.schedule ≡ map natural_of (numbers_of (codes "schedule") (table_view root.now))) }
    ensures row_names { IfOk result (λ listed. listed.row_names ≡ names.now.rows) }
    ensures few_rows { IfOk result (λ listed. length listed.row_names < 2 ^ 32) }
    ensures values { IfOk result (λ listed. listed.values ≡ map (number_of (codes "value") (pos 0)) (tables_of (codes "rows") (table_view root.now))) }
    ensures classes { IfOk result (λ listed. listed.classes ≡ built_in ++ map (class_in names.now) (tables_of (codes "classes") (table_view root.now))) }
{
    Ok(Listed {
        events: names.events.names(alloc)?,
        schedule: schedule_in(alloc, root)?,
        row_names: names.rows.names(alloc)?,
        values: values_in(alloc, root)?,
        classes: classes_in(alloc, root, names)?,
    })
}

/// What the tables with statements state. The rows that only statements name go to the end of the names first.
fn bodies_in(alloc: Global, root: &Table, names: &mut Numbered) -> Result<Bodies, NoMemory>
    ensures names { OnOk result (names.new ≡ grown names.old (sentences_of (table_view root.now))) }
    ensures methods { IfOk result (λ bodies. bodies.methods ≡ map (method_in_table names.new) (tables_of (codes "methods") (table_view root.now))) }
    ensures syncs { IfOk result (λ bodies. bodies.syncs ≡ map (sync_in names.new) (tables_of (codes "syncs") (table_view root.now))) }
    ensures listeners { IfOk result (λ bodies. bodies.listeners ≡ map (listener_in names.new) (tables_of (codes "listeners") (table_view root.now))) }
{
    let methods = bodied_of_array(alloc, root, "methods", names)?;
    let syncs = bodied_of_array(alloc, root, "syncs", names)?;
    let listeners = bodied_of_array(alloc, root, "listeners", names)?;
    Ok(Bodies {
        methods,
        syncs,
        listeners,
    })
}

/// What the tables with statements of an array state, one after the other.
fn bodied_of_array<T: Bodied + Drop>(
    alloc: Global,
    root: &Table,
    array: &str,
    names: &mut Numbered,
) -> Result<List<T>, NoMemory>
    ensures names { OnOk result (names.new ≡ grown names.old (flat_map T.said (tables_of array.now (table_view root.now)))) }
    ensures stated { IfOk result (Lasts (λ names. map (T.states names) (tables_of array.now (table_view root.now))) names.new) }
{
    let tables = tables_at(alloc, root, array)?;
    let mut all = List::new(alloc);
    for table in tables.as_slice() {
        all.push(T::from_bodies(alloc, names, table)?)?;
    }
    Ok(all)
}

/// The names that the arrays of a document declare, with their numbers.
fn declared_numbers(alloc: Global, root: &Table) -> Result<Numbered, NoMemory>
    requires { duplicate_among (names_of_document (table_view root.now)) ≡ None }
    ensures { IfOk result (λ names. names ≡ numbered_by (names_of_document (table_view root.now)) (names_of_document (table_view root.now)).rows) }
{
    let named = names_in(alloc, root)?;
    let names = numbered(alloc, &named)?;
    Ok(names)
}

/// These names, which all differ, with their numbers.
fn numbered(alloc: Global, named: &Named) -> Result<Numbered, NoMemory>
    requires { duplicate_among named.now ≡ None }
    ensures { IfOk result (λ names. names ≡ numbered_by named.now named.now.rows) }
{
    Ok(Numbered {
        events: declared(alloc, &named.events)?,
        rows: declared(alloc, &named.rows)?,
        classes: declared_classes(alloc, &named.classes)?,
        beans: declared(alloc, &named.beans)?,
        methods: declared(alloc, &named.methods)?,
        syncs: declared(alloc, &named.syncs)?,
    })
}

fn declared(alloc: Global, names: &List<Name>) -> Result<Numbers, NoMemory>
    requires { duplicate_from [] 0 names.now ≡ None }
    ensures { IfOk result (λ numbers. numbers ≡ names.now) }
{
    with_names(alloc, Numbers::new(alloc), names.as_slice())
}

/// The built-in classes, and after them those that are declared.
fn declared_classes(alloc: Global, names: &List<Name>) -> Result<Numbers, NoMemory>
    requires { duplicate_from built_in_names 0 names.now ≡ None }
    ensures { IfOk result (λ numbers. numbers ≡ built_in_names ++ names.now) }
{
    with_names(alloc, built_in_numbers(alloc)?, names.as_slice())
}

/// The built-in classes, and after them those that the document declares.
fn classes_in(alloc: Global, root: &Table, names: &Numbered) -> Result<List<ClassDecl>, NoMemory>
    ensures { IfOk result (λ classes. classes ≡ built_in ++ map (class_in names.now) (tables_of (codes "classes") (table_view root.now))) }
{
    let tables = tables_at(alloc, root, "classes")?;
    let before = built_in_classes(alloc)?;
    let classes = draft_each(alloc, names, tables.as_slice(), before)?;
    Ok(classes)
}

/// What the tables of an array state.
fn tables_of_array<T: Drafted + Drop>(
    alloc: Global,
    root: &Table,
    array: &str,
    names: &Numbered,
) -> Result<List<T>, NoMemory>
    ensures { IfOk result (λ all. all ≡ map (T.stated names.now) (tables_of array.now (table_view root.now))) }
{
    let tables = tables_at(alloc, root, array)?;
    let before = List::new(alloc);
    let all = draft_each(alloc, names, tables.as_slice(), before)?;
    Ok(all)
}

fn schedule_in(alloc: Global, root: &Table) -> Result<List<u32>, NoMemory>
    ensures { IfOk result (λ turns. turns ≡ map natural_of (numbers_of (codes "schedule") (table_view root.now))) }
{
    let numbers = numbers_at(alloc, root, "schedule")?;
    let mut turns = List::new(alloc);
    for number in numbers.as_slice() {
        turns.push(natural(*number))?;
    }
    Ok(turns)
}

fn values_in(alloc: Global, root: &Table) -> Result<List<i64>, NoMemory>
    ensures { IfOk result (λ values. values ≡ map (number_of (codes "value") (pos 0)) (tables_of (codes "rows") (table_view root.now))) }
{
    let rows = tables_at(alloc, root, "rows")?;
    let mut values = List::new(alloc);
    for row in rows.as_slice() {
        values.push(number_at(row, "value", 0))?;
    }
    Ok(values)
}
