// The weight of a scenario: by rounds, each with calls one level deeper, what its methods cost.
ghost use Rattle.std.specs.Prelude.{◌≡◌, ◌<◌, length, map, min, sum, IfOk};
ghost use Rattle.std.specs.List.{range_with_len};
ghost use Rattle.stx_scenario.specs.declared.numbers.EventNo.{EventNo};
ghost use Rattle.stx_base.specs.Weight.{body_cost, callbacks_cost, callbacks, client_weight, weight_of, cost_within, InRange};
ghost use Rattle.stx_graph.specs.inner.Costs.{AreCosts, cap, capped, cost_at, event_cost};

use crate::costs::{CAP, NOTHING, calls_cost, event_cost, method_cost, sync_cost};
use std::alloc::Global;
use stx_base::Cost;
use stx_scenario::{NoMemory, Scenario};

/// The weight of a scenario with calls of as many levels; one that is too heavy has `CAP`.
pub(crate) fn capped_weight(
    alloc: Global,
    scenario: &Scenario,
    levels: u32,
) -> Result<u64, NoMemory>
    requires { InRange scenario.now }
    ensures { IfOk result (λ weight. weight ≡ min (sum (map (client_weight (cost_within scenario.now levels)) scenario.now.clients)) cap) }
{
    let methods = method_costs(alloc, scenario, levels)?;
    let mut weight: u64 = 0;
    for calls in scenario.clients.as_slice() {
        let cost = calls_cost(&methods, calls.as_slice());
        weight = (weight + client_weight(cost)).min(CAP);
    }
    Ok(weight)
}

// What a client weighs whose calls cost this.
fn client_weight(cost: Cost) -> u64
    requires { cost ≡ capped cost }
    ensures { result ≡ min (weight_of cost) cap }
{
    (cost.size * (1 + cost.registrations)).min(CAP)
}

fn method_costs(alloc: Global, scenario: &Scenario, levels: u32) -> Result<Vec<Cost>, NoMemory>
    requires { InRange scenario.now }
    ensures { IfOk result (λ costs. AreCosts scenario.now levels costs.items) }
{
    let mut costs = vec![in alloc; NOTHING; scenario.methods.len()]?;
    for _round in 0..levels {
        costs = next_round(alloc, scenario, &costs)?;
    }
    Ok(costs)
}

fn next_round(alloc: Global, scenario: &Scenario, costs: &[Cost]) -> Result<Vec<Cost>, NoMemory>
    requires range { InRange scenario.now }
    requires count { length costs.now ≡ length scenario.now.methods }
    ensures { IfOk result (λ next. next.items ≡ map (λ method. capped (body_cost scenario.now (cost_at costs.now) method.body)) scenario.now.methods) }
{
    let events = event_costs(alloc, scenario, costs)?;
    let syncs = sync_costs(alloc, scenario, costs)?;
    let mut next = Vec::new(alloc);
    for method in scenario.methods.as_slice() {
        next.push(method_cost(costs, &events, &syncs, method.body.as_slice()))?;
    }
    Ok(next)
}

fn event_costs(alloc: Global, scenario: &Scenario, costs: &[Cost]) -> Result<Vec<Cost>, NoMemory>
    requires range { InRange scenario.now }
    requires count { length costs.now ≡ length scenario.now.methods }
    ensures { IfOk result (λ events. events.items ≡ map (λ e. capped (event_cost scenario.now (cost_at costs.now) (record { 0 = e }))) (range_with_len 0 (length scenario.now.events))) }
{
    let mut events = Vec::new(alloc);
    for event in 0..scenario.events.len() {
        events.push(event_cost(costs, scenario.listeners.as_slice(), event))?;
    }
    Ok(events)
}

fn sync_costs(alloc: Global, scenario: &Scenario, costs: &[Cost]) -> Result<Vec<Cost>, NoMemory>
    requires range { InRange scenario.now }
    requires count { length costs.now ≡ length scenario.now.methods }
    ensures { IfOk result (λ syncs. syncs.items ≡ map (λ sync. capped (callbacks_cost (cost_at costs.now) (callbacks sync))) scenario.now.syncs) }
{
    let mut syncs = Vec::new(alloc);
    for sync in scenario.syncs.as_slice() {
        syncs.push(sync_cost(costs, sync))?;
    }
    Ok(syncs)
}
