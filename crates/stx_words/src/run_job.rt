// The jobs of a program that runs clients on threads, each named by its word under `--do`.
ghost use Rattle.stx_words.specs.Jobs.{run_job_named, run_load_of};

use crate::Load;
use crate::jobs::Named;

/// What the words of a call ask of a program that runs clients on threads.
#[derive(Clone, Copy, Debug, PartialEq, Eq)]
pub enum RunJob {
    /// Runs the scenario, and writes its report.
    Run,
    /// Runs a scenario that is generated from a seed, with so many clients.
    Load { seed: u64, clients: u32 },
}

impl Named for RunJob {
    ghost named = { run_job_named };

    ghost load_of = { run_load_of };

    fn named(word: &str, load: Load) -> Option<RunJob> {
        match word {
            "run" => Some(RunJob::Run),
            "load" => Some(RunJob::Load {
                seed: load.seed,
                clients: load.clients,
            }),
            _ => None,
        }
    }
}
