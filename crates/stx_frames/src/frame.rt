// One frame.
ghost use Rattle.std.specs.Prelude.{◌≡◌};
ghost use Rattle.std.specs.Borrow.{sem};
ghost use Rattle.std.specs.Option.{is_some, option_copied_mut};

use stx_base::Round;
use stx_scenario::{ClassNo, List, ListenerNo, MethodNo};
use stx_sync::Registered;

/// What a client is in the middle of. `place` counts the statements of its body that were made.
#[derive(Drop)]
pub enum Frame<S> {
    /// The body of a method: what its call catches, and the scope that the call opened, if it did.
    Body {
        method: MethodNo,
        place: u32,
        catch: Option<ClassNo>,
        scope: Option<S>,
    },
    /// A round over these registrations, at one of them: what a callback threw, if one did.
    Round {
        round: Round,
        todo: List<Registered>,
        at: u32,
        place: u32,
        thrown: Option<ClassNo>,
    },
    /// The body of a listener that runs at once.
    Now {
        listener: ListenerNo,
        place: u32,
    },
}

impl<S> Frame<S> {
    ghost use Rattle.stx_frames.specs.Stacks.{scope_of};
    ghost use Rattle.stx_frames.specs.Lending.{lends_scope};

    // Whether a scope stands in it.
    pub(crate) fn has_scope(&self) -> bool
        ensures { result ≡ is_some (scope_of self.now) }
    {
        match self {
            Frame::Body { scope, .. } => scope.is_some(),
            Frame::Round { .. } | Frame::Now { .. } => false,
        }
    }

    pub(crate) fn scope_mut(&mut self) -> Option<&mut S>
        ensures* writes_back { sem 𝓛 (lends_scope S.row self.entry result) }
        ensures value { option_copied_mut result ≡ scope_of self.old }
    {
        match self {
            Frame::Body { scope, .. } => scope.as_mut(),
            Frame::Round { .. } | Frame::Now { .. } => None,
        }
    }
}
