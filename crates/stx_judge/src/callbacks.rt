// The statements that no callback may hold.
ghost use Rattle.std.specs.Prelude.{◌≡◌, ◌<◌, ◌++◌, length, true, false, OnOk, IfOk, option_copied};
ghost use Rattle.std.specs.Option.{option_map_or};
ghost use Rattle.stx_base.specs.Attributes.{attribute};
ghost use Rattle.stx_base.specs.Classes.{parents_of};
ghost use Rattle.stx_scenario.specs.declared.classes.TheConstants.{TRANSACTION_EXCEPTION as transaction_exception};
ghost use Rattle.stx_refusals.specs.declared.fault.Stage.{Stage as Kind};
ghost use Rattle.stx_refusals.specs.Faults.{refused, unless, under as path_under, entry as path_of_entry};
ghost use Rattle.stx_base.specs.Valid.{names_known, allowed_before_commit, allowed_around, allowed_in, is_new, AreKnown, SyncInOrder, ListenerInOrder, PlacesInOrder};
ghost use Rattle.stx_judge.specs.Judge.{disallowed, sync_callback_faults, listener_callback_faults, callback_faults};
ghost use Rattle.stx_judge.specs.Stages.{callback_refusal};

use crate::checks::{Checks, Faults, check_each};
use std::alloc::Global;
use stx_classes::ClassTree;
use stx_refusals::{Argument, Fault, ReadFault, Stage, check_entry, entry, first_at, under};
use stx_scenario::{
    List, Listener, MethodNo, NoMemory, Phase, Propagation, Scenario, Stmt, SyncDecl,
    TRANSACTION_EXCEPTION, TxAttr,
};

/// The first statement that its callback may not hold.
pub fn callback_fault(
    alloc: Global,
    scenario: &Scenario,
    tree: &ClassTree,
) -> Result<Option<ReadFault>, NoMemory>
    requires tree { tree.now ≡ parents_of scenario.now.classes }
    requires built_in { TRANSACTION_EXCEPTION.0 < length scenario.now.classes }
    requires order { PlacesInOrder scenario.now }
    ensures { IfOk result (λ fault. fault ≡ callback_refusal scenario.now) }
{
    let callbacks = Callbacks {
        alloc,
        scenario,
        tree,
    };
    let faults = callbacks.faults()?;
    first_at(alloc, Stage::CallbackBody, faults.as_slice())
}

/// The callbacks of a scenario, with the tree of its classes.
#[derive(Drop)]
struct Callbacks<'a> {
    alloc: Global,
    scenario: &'a Scenario,
    tree: &'a ClassTree,
    ghost tree_is: { tree.now ≡ parents_of scenario.now.classes },
    ghost built_in: { transaction_exception.0 < length scenario.now.classes },
}

impl<'a> Callbacks<'a> {
    #[tactic(auto, unfolding(crate::specs::Judge::callback_faults))]
    fn faults(&self) -> Result<List<Fault>, NoMemory>
        requires { PlacesInOrder self.now.scenario.now }
        ensures { IfOk result (λ faults. faults ≡ callback_faults self.now.scenario.now) }
    {
        let mut faults = List::new(self.alloc);
        check_each(&mut faults, self, self.scenario.syncs.as_slice())?;
        check_each(&mut faults, self, self.scenario.listeners.as_slice())?;
        Ok(faults)
    }

    // The body under a key of the table at a path. All callbacks but those before the commit may hold the same.
    fn check_body(
        &self,
        faults: &mut Faults,
        phase: Phase,
        path: &Argument,
        key: &str,
        body: &List<Stmt>,
    ) -> Result<(), NoMemory>
        requires { AreKnown self.now.scenario.now body.now }
        ensures { OnOk result (faults.new ≡ faults.old ++ disallowed (allowed_in phase self.now.scenario.now) (path_under path.now key.now) body.now) }
    {
        let path = under(self.alloc, path.as_str(), key)?;
        let statements = Body {
            callbacks: self,
            phase,
            path: path.as_str(),
        };
        check_each(faults, &statements, body.as_slice())
    }

    fn is_allowed(&self, phase: Phase, statement: Stmt) -> bool
        requires { names_known self.now.scenario.now statement ≡ true }
        ensures { result ≡ allowed_in phase self.now.scenario.now statement }
    {
        match phase {
            Phase::BeforeCommit => self.is_allowed_before_commit(statement),
            _ => is_allowed_around(self.scenario, statement),
        }
    }

    // Statements on rows, and throws of classes that are no TransactionException.
    fn is_allowed_before_commit(&self, statement: Stmt) -> bool
        requires { names_known self.now.scenario.now statement ≡ true }
        ensures { result ≡ allowed_before_commit self.now.scenario.now statement }
    {
        match statement {
            Stmt::Read(_) => true,
            Stmt::Write(_, _) => true,
            Stmt::Erase(_) => true,
            Stmt::Add(_, _) => true,
            Stmt::Need(_, _) => true,
            Stmt::Throw(class) => !self.tree.is_below(class, TRANSACTION_EXCEPTION),
            _ => false,
        }
    }
}

impl<'a> Checks<SyncDecl> for Callbacks<'a> {
    ghost can_check = { λ callbacks. SyncInOrder callbacks.scenario.now };

    ghost finds = { λ callbacks. sync_callback_faults callbacks.scenario.now };

    fn check(&self, faults: &mut Faults, at: usize, sync: &SyncDecl) -> Result<(), NoMemory> {
        let path = &entry(self.alloc, "syncs", at)?;
        let before = Phase::BeforeCommit;
        let around = Phase::AfterCompletion;
        self.check_body(faults, before, path, "before_commit", &sync.before_commit)?;
        self.check_body(
            faults,
            around,
            path,
            "before_completion",
            &sync.before_completion,
        )?;
        self.check_body(faults, around, path, "after_commit", &sync.after_commit)?;
        self.check_body(
            faults,
            around,
            path,
            "after_completion",
            &sync.after_completion,
        )?;
        Ok(())
    }
}

impl<'a> Checks<Listener> for Callbacks<'a> {
    ghost can_check = { λ callbacks. ListenerInOrder callbacks.scenario.now };

    ghost finds = { λ callbacks. listener_callback_faults callbacks.scenario.now };

    fn check(&self, faults: &mut Faults, at: usize, listener: &Listener) -> Result<(), NoMemory> {
        let path = &entry(self.alloc, "listeners", at)?;
        self.check_body(faults, listener.phase, path, "body", &listener.body)
    }
}

/// The body at a path, of a callback in a phase.
#[derive(Drop)]
struct Body<'a> {
    callbacks: &'a Callbacks<'a>,
    phase: Phase,
    path: &'a str,
}

impl<'a> Checks<Stmt> for Body<'a> {
    ghost can_check = { λ body s. names_known body.callbacks.now.scenario.now s ≡ true };

    ghost finds = { λ body n s. refused (path_of_entry body.path.now n) (unless (allowed_in body.phase body.callbacks.now.scenario.now s) Kind.CallbackBody) };

    fn check(&self, faults: &mut Faults, at: usize, statement: &Stmt) -> Result<(), NoMemory> {
        let passed = self.callbacks.is_allowed(self.phase, *statement);
        check_entry(
            self.callbacks.alloc,
            faults,
            self.path,
            at,
            passed,
            Stage::CallbackBody,
        )
    }
}

// Throws, and calls that begin a transaction of their own (the Javadoc of `TransactionSynchronization.afterCommit`
// advises `PROPAGATION_REQUIRES_NEW`).
fn is_allowed_around(scenario: &Scenario, statement: Stmt) -> bool
    requires { names_known scenario.now statement ≡ true }
    ensures { result ≡ allowed_around scenario.now statement }
{
    match statement {
        Stmt::Throw(_) => true,
        Stmt::Call { method, .. } => is_new(scenario, method),
        _ => false,
    }
}

fn is_new(scenario: &Scenario, method: MethodNo) -> bool
    requires { method.0 < length scenario.now.methods }
    ensures { result ≡ option_map_or (λ tx. is_new tx.propagation) (attribute scenario.now method) false }
{
    match attribute(scenario, method) {
        Some(tx) => matches!(tx.propagation, Propagation::RequiresNew),
        None => false,
    }
}

// The attribute of a method: its own, or else its bean's (`AbstractFallbackTransactionAttributeSource`).
fn attribute(scenario: &Scenario, method: MethodNo) -> Option<&TxAttr>
    requires { method.0 < length scenario.now.methods }
    ensures { option_copied result ≡ attribute scenario.now method }
{
    let method = scenario.method(method);
    if let Some(tx) = &method.tx {
        return Some(tx);
    }
    match scenario.beans.get(method.bean.0 as usize) {
        Some(bean) => bean.tx.as_ref(),
        None => None,
    }
}
