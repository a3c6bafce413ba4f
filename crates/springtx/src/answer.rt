// What a job reports and tells of its scenario, made whole before anything is written.
ghost use Rattle.std.specs.Prelude.{◌≡◌, IfOk, OnOk};
ghost use Rattle.stx_model.specs.Faithful.{Faithful};
ghost use Rattle.stx_base.specs.RulesText.{rules_text as text_of_rules};
ghost use Rattle.stx_base.specs.Weight.{weight as weight_in};
ghost use Rattle.stx_judge.specs.Judge.{IsValid};
ghost use Rattle.springtx.specs.Tool.{IsPlayed, Tells, check_text as text_of_check, own_play, text_of};

use std::alloc::Global;
use stx_base::Report;
use stx_client::Setup;
use stx_graph::{Graph, GraphFault};
use stx_play::play;
use stx_report::{check_text, print, rules_text, summary};
use stx_scenario::{NoMemory, Scenario};
use stx_tool::Told;
use stx_words::Job;

/// What a job reports and tells of its scenario.
pub fn told(alloc: Global, job: Job, scenario: Scenario) -> Result<Told, NoMemory>
    requires { IsValid scenario }
    ensures { IfOk result (λ told. Tells job scenario told.0 told.1.items) }
{
    match job {
        Job::Play => reported(alloc, None, scenario),
        Job::Check => Ok((None, checked(alloc, &scenario)?)),
        Job::Rules => Ok((None, decided(alloc, scenario)?)),
        Job::Load { seed, .. } => reported(alloc, Some(seed), scenario),
    }
}

/// Plays a valid scenario and reports it. A load has a seed, and tells a summary alone.
#[tactic(auto, using(crate::proofs::ToolLaws::is_played))]
fn reported(alloc: Global, seed: Option<u64>, scenario: Scenario) -> Result<Told, NoMemory>
    requires { IsValid scenario }
    ensures { IfOk result (λ told. IsPlayed (text_of seed) scenario told.0 told.1.items) }
{
    let report = played(alloc, scenario)?;
    let text = text_of(alloc, seed, &report)?;
    Ok((Some(report), text))
}

/// The text of a play, or of a load of this seed.
fn text_of(alloc: Global, seed: Option<u64>, report: &Report) -> Result<Vec<u8>, NoMemory>
    ensures { IfOk result (λ text. text.items ≡ text_of seed report.now.scenario report.now.outcome) }
{
    match seed {
        Some(seed) => summary(alloc, seed, &report.scenario, &report.outcome),
        None => print(alloc, &report.scenario, &report.outcome),
    }
}

/// Plays a valid scenario by its own schedule.
fn played(alloc: Global, scenario: Scenario) -> Result<Report, NoMemory>
    requires { IsValid scenario }
    ensures report { IfOk result (λ report. report ≡ record { scenario = scenario; outcome = own_play scenario }) }
    ensures faithful { OnOk result (Faithful scenario (own_play scenario)) }
{
    let setup = Setup::new(alloc, scenario)?;
    let outcome = play(alloc, &setup, setup.scenario.schedule.as_slice())?;
    let Setup { scenario, .. } = setup;
    Ok(Report { scenario, outcome })
}

/// Tells the weight of a valid scenario.
fn checked(alloc: Global, scenario: &Scenario) -> Result<Vec<u8>, NoMemory>
    requires { IsValid scenario.now }
    ensures { IfOk result (λ text. text.items ≡ text_of_check scenario.now) }
{
    let weight = weight_of(alloc, scenario)?;
    check_text(alloc, weight)
}

/// Tells what the rules of each method of a valid scenario decide.
fn decided(alloc: Global, scenario: Scenario) -> Result<Vec<u8>, NoMemory>
    requires { IsValid scenario }
    ensures { IfOk result (λ text. text.items ≡ text_of_rules scenario) }
{
    let setup = Setup::new(alloc, scenario)?;
    rules_text(alloc, &setup.scenario, &setup.classes, &setup.attributes)
}

/// The weight of a valid scenario.
fn weight_of(alloc: Global, scenario: &Scenario) -> Result<u64, NoMemory>
    requires { IsValid scenario.now }
    ensures { IfOk result (λ weight. weight ≡ weight_in scenario.now) }
{
    match Graph::of(alloc, scenario) {
        Ok(graph) => Ok(graph.weight()),
        Err(GraphFault::CallCycle(_)) => unreachable!(),
        Err(GraphFault::TooDeep(_)) => unreachable!(),
        Err(GraphFault::TooLarge) => unreachable!(),
        Err(GraphFault::NoMemory(refused)) => Err(refused),
    }
}
