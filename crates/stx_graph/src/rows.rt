// The methods to which each method leads, each once.
ghost use Rattle.std.specs.Prelude.{◌≡◌, ◌<◌, ◌^◌, [], length, fold, IfOk, OnOk, All};
ghost use Rattle.stx_base.specs.Weight.{CallbacksInRange, SyncInRange, StatementInRange, BodyInRange, MethodsInRange, InRange};
ghost use Rattle.stx_graph.specs.inner.Rows.{with_called, with_led, with_listener, sync_order, row_at, RowsInRange, EventRows, SyncRows, MethodRows};

use crate::method_set::MethodSet;
use std::alloc::Global;
use stx_scenario::{List, Listener, MethodNo, NoMemory, Scenario, Stmt, SyncDecl};

/// A list of methods for each method, event or synchronisation, by its number.
pub(crate) type Rows = List<List<MethodNo>>;

/// The methods to which each method leads.
pub(crate) fn method_rows(alloc: Global, scenario: &Scenario) -> Result<Rows, NoMemory>
    requires { InRange scenario.now }
    ensures { IfOk result (λ rows. MethodRows scenario.now rows) }
{
    let events = event_rows(alloc, scenario)?;
    let syncs = sync_rows(alloc, scenario)?;
    let mut rows = List::new(alloc);
    for method in scenario.methods.as_slice() {
        let bound = scenario.methods.len();
        rows.push(method_row(alloc, bound, method.body.as_slice(), &events, &syncs)?)?;
    }
    Ok(rows)
}

/// The methods that the listeners of each event call.
fn event_rows(alloc: Global, scenario: &Scenario) -> Result<Rows, NoMemory>
    requires { InRange scenario.now }
    ensures { IfOk result (λ rows. EventRows scenario.now rows) }
{
    let mut rows = List::new(alloc);
    for event in 0..scenario.events.len() {
        let bound = scenario.methods.len();
        rows.push(event_row(alloc, bound, scenario.listeners.as_slice(), event)?)?;
    }
    Ok(rows)
}

/// The methods that the callbacks of each synchronisation call.
fn sync_rows(alloc: Global, scenario: &Scenario) -> Result<Rows, NoMemory>
    requires { InRange scenario.now }
    ensures { IfOk result (λ rows. SyncRows scenario.now rows) }
{
    let mut rows = List::new(alloc);
    for sync in scenario.syncs.as_slice() {
        rows.push(sync_row(alloc, scenario.methods.len(), sync)?)?;
    }
    Ok(rows)
}

fn method_row(
    alloc: Global,
    bound: usize,
    body: &[Stmt],
    events: &Rows,
    syncs: &Rows,
) -> Result<List<MethodNo>, NoMemory>
    requires body { BodyInRange bound (length events.now) (length syncs.now) body.now }
    requires events { RowsInRange bound events.now }
    requires syncs { RowsInRange bound syncs.now }
    ensures row { IfOk result (λ row. row ≡ fold (with_led events.now syncs.now) [] body.now) }
    ensures range { IfOk result (λ row. MethodsInRange bound row) }
{
    let mut set = MethodSet::new(alloc, bound)?;
    for statement in body {
        add_led(&mut set, *statement, events, syncs)?;
    }
    Ok(List::from_vec(set.order))
}

fn event_row(
    alloc: Global,
    bound: usize,
    listeners: &[Listener],
    event: usize,
) -> Result<List<MethodNo>, NoMemory>
    requires { All (λ listener. CallbacksInRange bound listener.body) listeners.now }
    ensures row { IfOk result (λ row. row ≡ fold (with_listener event) [] listeners.now) }
    ensures range { IfOk result (λ row. MethodsInRange bound row) }
{
    let mut set = MethodSet::new(alloc, bound)?;
    for listener in listeners {
        if listener.event.0 as usize == event {
            add_called(&mut set, listener.body.as_slice())?;
        }
    }
    Ok(List::from_vec(set.order))
}

fn sync_row(alloc: Global, bound: usize, sync: &SyncDecl) -> Result<List<MethodNo>, NoMemory>
    requires { SyncInRange bound sync.now }
    ensures row { IfOk result (λ row. row ≡ sync_order sync.now) }
    ensures range { IfOk result (λ row. MethodsInRange bound row) }
{
    let mut set = MethodSet::new(alloc, bound)?;
    add_called(&mut set, sync.before_commit.as_slice())?;
    add_called(&mut set, sync.before_completion.as_slice())?;
    add_called(&mut set, sync.after_commit.as_slice())?;
    add_called(&mut set, sync.after_completion.as_slice())?;
    Ok(List::from_vec(set.order))
}

// Adds the methods to which a statement of a method leads.
fn add_led(
    set: &mut MethodSet,
    statement: Stmt,
    events: &Rows,
    syncs: &Rows,
) -> Result<(), NoMemory>
    requires statement { StatementInRange (length set.old.has.items) (length events.now) (length syncs.now) statement }
    requires events { RowsInRange (length set.old.has.items) events.now }
    requires syncs { RowsInRange (length set.old.has.items) syncs.now }
    ensures order { OnOk result (set.new.order.items ≡ with_led events.now syncs.now set.old.order.items statement) }
    ensures bound { length set.new.has.items ≡ length set.old.has.items }
{
    match statement {
        Stmt::Call { method, .. } | Stmt::This { method, .. } => set.add(method),
        Stmt::Publish(event) => set.add_all(events.items[event.0 as usize].as_slice()),
        Stmt::Register(sync) => set.add_all(syncs.items[sync.0 as usize].as_slice()),
        _ => Ok(()),
    }
}

// Adds the methods that a callback's body calls.
fn add_called(set: &mut MethodSet, body: &[Stmt]) -> Result<(), NoMemory>
    requires { CallbacksInRange (length set.old.has.items) body.now }
    ensures order { OnOk result (set.new.order.items ≡ fold with_called set.old.order.items body.now) }
    ensures bound { length set.new.has.items ≡ length set.old.has.items }
{
    for statement in body {
        if let Stmt::Call { method, .. } = *statement {
            set.add(method)?;
        }
    }
    Ok(())
}
