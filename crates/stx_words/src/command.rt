// The command lines of the programs, and the jobs that they give.
ghost use Rattle.std.specs.Prelude.{◌≡◌, map, string_bytes, IfOk, IfErr, IfSome, Some, None};
ghost use Rattle.clap.specs.Words.{app_of, found_of, rows_of};
ghost use Rattle.stx_words.specs.Jobs.{app_named, job_by, job_of, job_stated, run_job_of, CanLoad, HasClients, RunHasClients};

use crate::jobs::Named;
use crate::matches::{matches_from, with_name};
use crate::options::{clients_option, do_option, job_in, load_in, plain_command, seed_option};
use crate::{Job, RunJob, WordsFault};
use clap::{ArgMatches, Command};
use std::alloc::Global;
use stx_scenario::NoMemory;

/// The job that the words after the name of `springtx` state: `--do JOB`, which must be given, `--seed N` and
/// `--clients N`.
///
/// An option that the job doesn't use may be given, and its value must be in form all the same.
pub fn read_words(alloc: Global, words: &[String]) -> Result<Job, WordsFault>
    ensures ok { IfOk result (λ job. job_of words.now ≡ Some job) }
    ensures clients { IfOk result (λ job. HasClients job) }
    ensures usage { IfErr result (λ fault. fault ≡ WordsFault.Usage → job_of words.now ≡ None) }
{
    job_in_words(alloc, "springtx", words)
}

/// The job that the words after the name of `springtx_run` state, by the same options.
pub fn read_run_words(alloc: Global, words: &[String]) -> Result<RunJob, WordsFault>
    ensures ok { IfOk result (λ job. run_job_of words.now ≡ Some job) }
    ensures clients { IfOk result (λ job. RunHasClients job) }
    ensures usage { IfErr result (λ fault. fault ≡ WordsFault.Usage → run_job_of words.now ≡ None) }
{
    job_in_words(alloc, "springtx_run", words)
}

/// The job that the words state to a program of this name.
fn job_in_words<J: Named>(alloc: Global, name: &str, words: &[String]) -> Result<J, WordsFault>
    ensures ok { IfOk result (λ job. job_stated name.now (job_by J.named) (map string_bytes words.now) ≡ Some job) }
    ensures clients { IfOk result (λ job. CanLoad (J.load_of job)) }
    ensures usage { IfErr result (λ fault. fault ≡ WordsFault.Usage → job_stated name.now (job_by J.named) (map string_bytes words.now) ≡ None) }
{
    let all = with_name(alloc, name, words)?;
    match matches_from(command_named(alloc, name)?, all.as_slice()) {
        Ok(matches) => job_by(&matches).ok_or(WordsFault::Usage),
        Err(fault) => Err(fault),
    }
}

/// The job that the values of the options state.
fn job_by<J: Named>(matches: &ArgMatches<'_>) -> Option<J>
    ensures job { result ≡ job_by J.named (rows_of (found_of matches.now)) }
    ensures clients { IfSome result (λ job. CanLoad (J.load_of job)) }
{
    J::named(job_in(matches)?, load_in(matches))
}

/// The command line of a program of this name.
fn command_named<'a>(alloc: Global, name: &'a str) -> Result<Command<'a>, NoMemory>
    ensures { IfOk result (λ command. app_of command ≡ app_named name.entry.now) }
{
    let command = plain_command(alloc, name)
        .arg(do_option(alloc))?
        .arg(seed_option(alloc))?
        .arg(clients_option(alloc))?;
    Ok(command)
}
