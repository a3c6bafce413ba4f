// The tool that runs clients on threads, over any source, any sink and any gate.
ghost use Rattle.std.specs.Prelude.{◌≡◌, IfOk};
ghost use Rattle.stx_judge.specs.Judge.{IsValid};
ghost use Rattle.stx_tool.specs.Programs.{IsDone, IsEnd};
ghost use Rattle.springtx_run.specs.RunTool.{Tells, jobs};

use crate::answer::told;
use std::alloc::Global;
use std::sync::Wait;
use std::thread::Threads;
use stx_base::ToolEnd;
use stx_outside::{Sink, Source};
use stx_runner::Gate;
use stx_scenario::Scenario;
use stx_tool::{Program, top_call};
use stx_words::{Load, RunJob, WordsFault, read_run_words};

/// Does the job that the words state, with the scenario that a source holds or one that is generated, and writes its text to
/// a sink. The clients run side by side, each on a thread of its own, and `gate` is asked before and after each of their
/// shared calls. It may wait.
///
/// The whole text is made before the first write. The statuses of the end are those of `ToolEnd`.
pub fn run_tool<R: Threads + Wait + Sync, S: Source, K: Sink, G: Gate>(
    rt: &R,
    alloc: Global,
    words: &[String],
    source: &mut S,
    sink: &mut K,
    gate: &G,
) -> ToolEnd
    // 0: the scenario of all bytes, or the generated one, was run. The run is faithful and reported, and the job's text was
    // written.
    ensures done { result.status ≡ 0 → IsDone jobs words.now (S.left source.old) (S.left source.new)
        (K.taken sink.old) (K.taken sink.new) result.report }

    // The causes of all other statuses, what was read and what was written: the clauses that all top calls have.
    ensures ends { IsEnd jobs words.now (source.new ≡ source.old)
        (S.left source.old) (S.left source.new) (S.faults source.old) (S.faults source.new)
        (K.taken sink.old) (K.taken sink.new) (K.faults sink.old) (K.faults sink.new) result }
{
    let tell = |job: RunJob, scenario: Scenario|
        requires { IsValid scenario }
        ensures { IfOk result (λ told. Tells job scenario told.0 told.1.items) }
    { told(rt, alloc, job, scenario, gate) };
    top_call::<SpringtxRun, S, K, _>(alloc, words, source, sink, tell)
}

/// The program, by its jobs.
struct SpringtxRun;

impl Program for SpringtxRun {
    type Job = RunJob;

    ghost jobs = { jobs };

    fn stated(alloc: Global, words: &[String]) -> Result<RunJob, WordsFault> {
        read_run_words(alloc, words)
    }

    fn load_of(job: RunJob) -> Option<Load> {
        match job {
            RunJob::Run => None,
            RunJob::Load { seed, clients } => Some(Load { seed, clients }),
        }
    }
}
