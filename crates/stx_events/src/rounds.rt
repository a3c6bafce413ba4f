// In which callback the body of a registered listener runs.
ghost use Rattle.std.specs.Prelude.{◌≡◌};
ghost use Rattle.stx_model.specs.Listeners.{runs_in as runs};

use stx_base::Round;
use stx_scenario::Phase;

/// Whether the body of a registered listener of this phase runs in this round. `committed` is what the
/// `after_completion` round is told.
pub fn runs_in(phase: Phase, round: Round, committed: bool) -> bool
    ensures { result ≡ runs phase round committed }
{
    match (phase, round) {
        (Phase::BeforeCommit, Round::BeforeCommit) => true,
        (Phase::AfterCommit, Round::AfterCompletion) => committed,
        (Phase::AfterRollback, Round::AfterCompletion) => !committed,
        (Phase::AfterCompletion, Round::AfterCompletion) => true,
        _ => false,
    }
}
