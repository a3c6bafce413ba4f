// The jobs, each named by its word under `--do`.
ghost use Rattle.stx_words.specs.Jobs.{job_named, load_of};

use crate::Load;
use crate::jobs::Named;

/// What the words of a call ask for.
#[derive(Clone, Copy, Debug, PartialEq, Eq)]
pub enum Job {
    /// Plays the scenario on one thread, and writes its report.
    Play,
    /// Says whether the scenario is valid, and how much work it is.
    Check,
    /// Says what the rollback rules of each method decide.
    Rules,
    /// Plays a scenario that is generated from a seed, with so many clients.
    Load { seed: u64, clients: u32 },
}

impl Named for Job {
    ghost named = { job_named };

    ghost load_of = { load_of };

    fn named(word: &str, load: Load) -> Option<Job> {
        match word {
            "play" => Some(Job::Play),
            "check" => Some(Job::Check),
            "rules" => Some(Job::Rules),
            "load" => Some(Job::Load {
                seed: load.seed,
                clients: load.clients,
            }),
            _ => None,
        }
    }
}
