// How a scope ends, and what completes it.
ghost use Rattle.std.specs.Prelude.{◌≡◌};
ghost use Rattle.stx_model.specs.Ending.{ending as ending_of, completion as completion_of};
ghost use Rattle.stx_context.specs.Carrying.{context_of};

use crate::Scope;
use stx_base::{Action, Ending, Kind};
use stx_context::Context;

/// How a scope ends in this context. `rolls_back` says that the body threw and that the rules say rollback.
pub fn ending(scope: &Scope, context: &Context, rolls_back: bool) -> Ending
    ensures { result ≡ ending_of scope.now.kind rolls_back scope.now.local_mark (context_of context.now) }
{
    if rolls_back || scope.local_mark() {
        return Ending::Rollback;
    }
    match (scope.kind(), context.bound()) {
        (Kind::Empty, _) | (_, None) => Ending::Commit,
        (_, Some(holder)) if holder.is_marked() => Ending::Unexpected,
        (_, Some(_)) => Ending::Commit,
    }
}

/// The actions of a completion, from left to right (`processCommit`, `processRollback`). The before_commit round of a scope
/// that is to commit comes before them, and they are what is left where none of its callbacks threw.
#[tactic(auto, unfolding(stx_model::specs::Ending::completion))]
pub fn completion(kind: Kind, ending: Ending) -> &'static [Action]
    ensures { result.now ≡ completion_of kind ending }
{
    match (kind, ending) {
        (Kind::Fresh, Ending::Commit) => &[
            Action::RoundBeforeCompletion,
            Action::CommitStore,
            Action::RoundAfterCommit,
            Action::RoundAfterCompletion { committed: true },
            Action::GiveBack,
            Action::Resumption,
        ],
        (Kind::Fresh, Ending::Rollback) => &[
            Action::RoundBeforeCompletion,
            Action::RollbackStore,
            Action::RoundAfterCompletion { committed: false },
            Action::GiveBack,
            Action::Resumption,
        ],
        (Kind::Fresh, Ending::Unexpected) => &[
            Action::RoundBeforeCompletion,
            Action::RollbackStore,
            Action::RoundAfterCompletion { committed: false },
            Action::ThrowUnexpected,
            Action::GiveBack,
            Action::Resumption,
        ],
        (Kind::Join, Ending::Rollback | Ending::Unexpected) => &[Action::MarkGlobally],
        (Kind::Point, Ending::Commit) => &[Action::ReleasePoint],
        (Kind::Point, Ending::Rollback) => &[Action::BackToPoint, Action::ReleasePoint],
        (Kind::Point, Ending::Unexpected) => &[
            Action::BackToPoint,
            Action::ReleasePoint,
            Action::ThrowUnexpected,
        ],
        (Kind::Empty, Ending::Commit) => &[
            Action::RoundBeforeCompletion,
            Action::RoundAfterCommit,
            Action::RoundAfterCompletion { committed: true },
            Action::Resumption,
        ],
        (Kind::Empty, Ending::Rollback) => &[
            Action::RoundBeforeCompletion,
            Action::RoundAfterCompletion { committed: false },
            Action::Resumption,
        ],
        (Kind::Join, Ending::Commit) | (Kind::Empty, Ending::Unexpected) => &[],
    }
}
