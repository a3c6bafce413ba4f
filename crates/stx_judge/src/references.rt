// Whether what is named is there.
ghost use Rattle.std.specs.Prelude.{◌≡◌};
ghost use Rattle.stx_base.specs.Valid.{is_class, is_row, is_method, is_catch, is_own_method, names_known, own_known, parent_known};

use stx_scenario::{BeanNo, ClassNo, MethodNo, RowNo, Scenario, Stmt};

fn is_row(scenario: &Scenario, row: RowNo) -> bool
    ensures { result ≡ is_row scenario.now row }
{
    (row.0 as usize) < scenario.row_names.len()
}

pub fn is_class(scenario: &Scenario, class: ClassNo) -> bool
    ensures { result ≡ is_class scenario.now class }
{
    (class.0 as usize) < scenario.classes.len()
}

pub fn is_method(scenario: &Scenario, method: MethodNo) -> bool
    ensures { result ≡ is_method scenario.now method }
{
    (method.0 as usize) < scenario.methods.len()
}

fn is_catch(scenario: &Scenario, catch: Option<ClassNo>) -> bool
    ensures { result ≡ is_catch scenario.now catch }
{
    match catch {
        Some(class) => is_class(scenario, class),
        None => true,
    }
}

pub fn parent_known(scenario: &Scenario, parent: Option<ClassNo>) -> bool
    ensures { result ≡ parent_known scenario.now parent }
{
    match parent {
        Some(class) => is_class(scenario, class),
        None => false,
    }
}

fn is_own_method(scenario: &Scenario, bean: BeanNo, method: MethodNo) -> bool
    ensures { result ≡ is_own_method scenario.now bean method }
{
    match scenario.methods.get(method.0 as usize) {
        Some(found) => found.bean.0 == bean.0,
        None => false,
    }
}

/// Whether all that a statement names is there, but the method of a `this`.
pub fn names_known(scenario: &Scenario, statement: Stmt) -> bool
    ensures { result ≡ names_known scenario.now statement }
{
    match statement {
        Stmt::Read(row) => is_row(scenario, row),
        Stmt::Write(row, _) => is_row(scenario, row),
        Stmt::Erase(row) => is_row(scenario, row),
        Stmt::Add(row, _) => is_row(scenario, row),
        Stmt::Need(row, _) => is_row(scenario, row),
        Stmt::Call { method, catch } => is_method(scenario, method) && is_catch(scenario, catch),
        Stmt::This { catch, .. } => is_catch(scenario, catch),
        Stmt::Throw(class) => is_class(scenario, class),
        Stmt::Mark => true,
        Stmt::Publish(event) => (event.0 as usize) < scenario.events.len(),
        Stmt::Register(sync) => (sync.0 as usize) < scenario.syncs.len(),
    }
}

/// Whether the method of a `this` is this bean's.
pub fn own_known(scenario: &Scenario, bean: BeanNo, statement: Stmt) -> bool
    ensures { result ≡ own_known scenario.now bean statement }
{
    match statement {
        Stmt::This { method, .. } => is_own_method(scenario, bean, method),
        _ => true,
    }
}
