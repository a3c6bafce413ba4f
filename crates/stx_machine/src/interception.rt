// What an intercepted call has while it is under way.
ghost use Rattle.std.specs.Prelude.{◌≡◌};

use stx_base::{Action, Round};
use stx_manager::Scope;
use stx_scenario::ClassNo;

/// An intercepted call's scope, with the local mark of the scope round it, if there is one.
pub struct Interception {
    pub scope: Scope,
    pub outer: Option<bool>,
    pub phase: Phase,
}

/// How far an intercepted call has come.
#[derive(Clone, Copy, Debug)]
pub enum Phase {
    /// Its scope waits for a connection and for its transaction, or for its savepoint.
    Opening,
    /// Its body runs.
    Running,
    /// These actions are left, and so far it leaves with this exception, or with none.
    Completing {
        rest: &'static [Action],
        thrown: Option<ClassNo>,
    },
    /// A round of its callbacks is made.
    Round(Course),
}

/// A round of a completion, and what comes after it.
#[derive(Clone, Copy, Debug)]
pub struct Course {
    pub round: Round,
    /// What the after_completion round tells.
    pub committed: bool,
    /// The actions that are left after the round.
    pub rest: &'static [Action],
    /// So far the call leaves with this exception, or with none.
    pub thrown: Option<ClassNo>,
}

impl Drop for Interception {
    fn drop(self) {
        let Interception {
            mut scope,
            outer: _,
            phase: _,
        } = self;
        if let Some(held) = scope.take_held() {
            held.retire();
        }
        scope.done();
    }
}

impl Interception {
    /// The scope alone.
    pub fn into_scope(self) -> Scope
        ensures { result ≡ self.scope }
    {
        let Interception {
            scope,
            outer: _,
            phase: _,
        } = self;
        scope
    }
}
