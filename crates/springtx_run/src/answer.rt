// What a job reports and tells of its scenario, made whole before anything is written.
ghost use Rattle.std.specs.Prelude.{◌≡◌, IfOk};
ghost use Rattle.stx_model.specs.Faithful.{Faithful};
ghost use Rattle.stx_judge.specs.Judge.{IsValid};
ghost use Rattle.springtx_run.specs.RunTool.{Tells, text_of as text_in};

use std::alloc::Global;
use std::sync::Wait;
use std::thread::Threads;
use stx_base::Report;
use stx_client::Setup;
use stx_report::{print, summary};
use stx_runner::{Gate, run};
use stx_scenario::{NoMemory, Scenario};
use stx_tool::Told;
use stx_words::RunJob;

/// What a job reports and tells of its scenario.
#[tactic(auto, using(crate::proofs::RunToolLaws::is_run))]
pub fn told<R: Threads + Wait + Sync, G: Gate>(
    rt: &R,
    alloc: Global,
    job: RunJob,
    scenario: Scenario,
    gate: &G,
) -> Result<Told, NoMemory>
    requires { IsValid scenario }
    ensures { IfOk result (λ told. Tells job scenario told.0 told.1.items) }
{
    let report = ran(rt, alloc, scenario, gate)?;
    let text = text_of(alloc, job, &report)?;
    Ok((Some(report), text))
}

/// The text of a run.
fn text_of(alloc: Global, job: RunJob, report: &Report) -> Result<Vec<u8>, NoMemory>
    ensures { IfOk result (λ text. text.items ≡ text_in job report.now.scenario report.now.outcome) }
{
    match job {
        RunJob::Run => print(alloc, &report.scenario, &report.outcome),
        RunJob::Load { seed, .. } => summary(alloc, seed, &report.scenario, &report.outcome),
    }
}

/// Runs the clients of a valid scenario side by side.
fn ran<R: Threads + Wait + Sync, G: Gate>(
    rt: &R,
    alloc: Global,
    scenario: Scenario,
    gate: &G,
) -> Result<Report, NoMemory>
    requires { IsValid scenario }
    ensures scenario { IfOk result (λ report. report.scenario ≡ scenario) }
    ensures faithful { IfOk result (λ report. Faithful report.scenario report.outcome) }
{
    let setup = Setup::new(alloc, scenario)?;
    let outcome = run(rt, alloc, &setup, gate)?;
    let Setup { scenario, .. } = setup;
    Ok(Report { scenario, outcome })
}
