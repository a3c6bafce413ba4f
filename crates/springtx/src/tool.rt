// The tool, over any source and any sink.
ghost use Rattle.std.specs.Prelude.{◌≡◌, IfOk};
ghost use Rattle.stx_judge.specs.Judge.{IsValid};
ghost use Rattle.stx_tool.specs.Programs.{IsDone, IsEnd};
ghost use Rattle.springtx.specs.Tool.{Tells, jobs};

use crate::answer::told;
use std::alloc::Global;
use stx_base::ToolEnd;
use stx_outside::{Sink, Source};
use stx_scenario::Scenario;
use stx_tool::{Program, top_call};
use stx_words::{Job, Load, WordsFault, read_words};

/// Does the job that the words state, with the scenario that a source holds or one that is generated, and writes its text to
/// a sink. It waits for nobody.
///
/// The whole text is made before the first write. The statuses of the end are those of `ToolEnd`.
pub fn tool<S: Source, K: Sink>(
    alloc: Global,
    words: &[String],
    source: &mut S,
    sink: &mut K,
) -> ToolEnd
    // 0: the job was done.
    ensures done { result.status ≡ 0 → IsDone jobs words.now (S.left source.old) (S.left source.new)
        (K.taken sink.old) (K.taken sink.new) result.report }

    // The causes of all other statuses, what was read and what was written: the clauses that all top calls have.
    ensures ends { IsEnd jobs words.now (source.new ≡ source.old)
        (S.left source.old) (S.left source.new) (S.faults source.old) (S.faults source.new)
        (K.taken sink.old) (K.taken sink.new) (K.faults sink.old) (K.faults sink.new) result }
{
    let tell = |job: Job, scenario: Scenario|
        requires { IsValid scenario }
        ensures { IfOk result (λ told. Tells job scenario told.0 told.1.items) }
    { told(alloc, job, scenario) };
    top_call::<Springtx, S, K, _>(alloc, words, source, sink, tell)
}

/// The program, by its jobs.
struct Springtx;

impl Program for Springtx {
    type Job = Job;

    ghost jobs = { jobs };

    fn stated(alloc: Global, words: &[String]) -> Result<Job, WordsFault> {
        read_words(alloc, words)
    }

    fn load_of(job: Job) -> Option<Load> {
        match job {
            Job::Load { seed, clients } => Some(Load { seed, clients }),
            Job::Play | Job::Check | Job::Rules => None,
        }
    }
}
