// The jobs of a program, each by its word.
ghost use Rattle.std.specs.Prelude.{◌≡◌, ℕ, List, Option, IfSome};
ghost use Rattle.stx_words.specs.Jobs.{CanLoad};
ghost use Rattle.stx_words.specs.Options.{IsClientCount};

use crate::Load;

/// The jobs of a program, each by its word under `--do`.
pub(crate) trait Named: Copy {
    ghost use Rattle.stx_words.specs.declared.load.Load.{Load};

    /// The job that a word names; a load is of these numbers.
    ghost named: { Load → List ℕ → Option Self };

    /// What a job's scenario is generated from; none where it is read.
    ghost load_of: { Self → Option Load };

    /// The job that a word names; a load is of these numbers.
    fn named(word: &str, load: Load) -> Option<Self>
        requires { IsClientCount load.clients }
        ensures job { result ≡ named load word.now }
        ensures clients { IfSome result (λ job. CanLoad (load_of job)) };
}
