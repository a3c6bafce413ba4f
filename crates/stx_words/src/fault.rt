// Why words state no job.
ghost use Rattle.std.specs.Prelude.{◌≡◌};
ghost use Rattle.stx_words.specs.declared.fault.WordsFault.TheVariants.{NoMemory as WantOfMemory};

use stx_scenario::NoMemory;
use thiserror::Error;

/// Why words state no job.
#[derive(Clone, Copy, Debug, PartialEq, Eq, Error)]
pub enum WordsFault {
    /// The command line takes no such words, or they name no job that the program has.
    #[error("the words state no job")]
    Usage,
    #[error("out of memory")]
    NoMemory(NoMemory),
}

impl From<NoMemory> for WordsFault {
    ghost from_gives = { λ refused fault. fault ≡ WantOfMemory refused };

    fn from(refused: NoMemory) -> Self {
        WordsFault::NoMemory(refused)
    }
}
