// The top call of a program: its words state a job, which is done with a scenario that is read, or generated for a load.
ghost use Rattle.std.specs.Prelude.{◌≡◌, List, Option, Result, IfOk, IfErr, Some, None};
ghost use Rattle.stx_judge.specs.Judge.{IsValid};
ghost use Rattle.stx_words.specs.Jobs.{CanLoad};
ghost use Rattle.stx_tool.specs.Programs.{Jobs, IsDone, IsEnd, IsReadingFor, IsResponded, IsResponse, needs_input as load_needs_input};

use crate::end::write_response;
use crate::input::read_input;
use crate::{Early, Reading, Response, read};
use std::alloc::Global;
use stx_base::{Report, ToolEnd};
use stx_load::generated;
use stx_outside::{Sink, Source};
use stx_scenario::{NoMemory, Scenario};
use stx_words::{Load, WordsFault};

/// A program: the jobs that its words can state.
pub trait Program {
    /// One of its jobs.
    type Job: Copy;

    /// What its jobs are.
    ghost jobs: { Jobs Self.Job };

    /// The job that words state.
    fn stated(alloc: Global, words: &[String]) -> Result<Self::Job, WordsFault>
        ensures ok { IfOk result (λ job. jobs.stated words.now ≡ Some job) }
        ensures clients { IfOk result (λ job. CanLoad (jobs.load_of job)) }
        ensures usage { IfErr result (λ fault. fault ≡ WordsFault.Usage → jobs.stated words.now ≡ None) };

    /// What a job's scenario is generated from; none where it is read.
    fn load_of(job: Self::Job) -> Option<Load>
        ensures { result ≡ jobs.load_of job };
}

/// What a job reports, if anything, and its text.
pub type Told = (Option<Report>, Vec<u8>);

/// Does the job that the words state, with the scenario that a source holds or one that is generated, and writes its text to
/// a sink. `tell` does a job with a valid scenario; it may wait where its maker may.
///
/// The whole text is made before the first write. The statuses of the end are those of `ToolEnd`.
pub fn top_call<
    P: Program,
    S: Source,
    K: Sink,
    F: FnOnce(P::Job, Scenario) -> Result<Told, NoMemory>,
>(alloc: Global, words: &[String], source: &mut S, sink: &mut K, tell: F) -> ToolEnd
    requires asked { (job : _) (scenario : _) → IsValid scenario → F.pre tell job scenario }
    requires told { (job : _) (scenario : _) (made : _) → IsValid scenario → F.post tell job scenario made → IfOk made (λ told. P.jobs.Tells job scenario told.0 told.1.items) }
    // 0: the job was done.
    ensures done { result.status ≡ 0 → IsDone P.jobs words.now (S.left source.old) (S.left source.new)
        (K.taken sink.old) (K.taken sink.new) result.report }

    // The causes of all other statuses, what was read and what was written.
    ensures ends { IsEnd P.jobs words.now (source.new ≡ source.old)
        (S.left source.old) (S.left source.new) (S.faults source.old) (S.faults source.new)
        (K.taken sink.old) (K.taken sink.new) (K.faults sink.old) (K.faults sink.new) result }
{
    write_response(sink, respond::<P, S, F>(alloc, words, source, tell))
}

/// Reads the words and the input and does the job, before anything is written.
fn respond<P: Program, S: Source, F: FnOnce(P::Job, Scenario) -> Result<Told, NoMemory>>(
    alloc: Global,
    words: &[String],
    source: &mut S,
    tell: F,
) -> Result<Response, Early>
    requires asked { (job : _) (scenario : _) → IsValid scenario → F.pre tell job scenario }
    requires told { (job : _) (scenario : _) (made : _) → IsValid scenario → F.post tell job scenario made → IfOk made (λ told. P.jobs.Tells job scenario told.0 told.1.items) }
    ensures { IsResponded P.jobs words.now (source.new ≡ source.old)
        (S.left source.old) (S.left source.new) (S.faults source.old) (S.faults source.new) result }
{
    let job = P::stated(alloc, words)?;
    let load = P::load_of(job);
    let bytes = read_input(alloc, source, needs_input(load))?;
    let answer = answer_to::<P, F>(alloc, job, &bytes, tell)?;
    Ok(answer)
}

/// Reads or generates a scenario and does the job with it, or says why not.
fn answer_to<P: Program, F: FnOnce(P::Job, Scenario) -> Result<Told, NoMemory>>(
    alloc: Global,
    job: P::Job,
    bytes: &[u8],
    tell: F,
) -> Result<Response, NoMemory>
    requires clients { CanLoad (P.jobs.load_of job) }
    requires asked { (scenario : _) → IsValid scenario → F.pre tell job scenario }
    requires told { (scenario : _) (made : _) → IsValid scenario → F.post tell job scenario made → IfOk made (λ told. P.jobs.Tells job scenario told.0 told.1.items) }
    ensures { IfOk result (λ response. IsResponse P.jobs job bytes.now response) }
{
    match scenario_for(alloc, P::load_of(job), bytes)? {
        Reading::Accepted(scenario) => {
            let (report, text) = tell(job, scenario)?;
            Ok(Response::Done(report, text))
        }
        Reading::Refused(text) => Ok(Response::Refused(text)),
    }
}

/// Whether a scenario is read.
fn needs_input(load: Option<Load>) -> bool
    ensures { result ≡ load_needs_input load }
{
    load.is_none()
}

/// The scenario that a job is done with, if the job isn't refused: it is read or generated.
fn scenario_for(alloc: Global, load: Option<Load>, bytes: &[u8]) -> Result<Reading, NoMemory>
    requires { CanLoad load }
    ensures { IfOk result (λ reading. IsReadingFor load bytes.now reading) }
{
    match load {
        Some(Load { seed, clients }) => Ok(Reading::Accepted(generated(alloc, seed, clients)?)),
        None => read(alloc, bytes),
    }
}
