// The call graph, and why a scenario has none.
ghost use Rattle.std.specs.Prelude.{◌≡◌, ◌<◌, ◌^◌, length, slice_get, Some, IfOk, IfErr};
ghost use Rattle.stx_base.specs.Weight.{InRange};
ghost use Rattle.stx_graph.specs.inner.Rows.{RowsInRange, next_in};
ghost use Rattle.stx_graph.specs.Graph.{weighed, IsAccepted, IsDue};
ghost use Rattle.stx_graph.specs.inner.Cycles.{IsDepthFault};

use crate::cycles::first_on_cycle;
use crate::ranks::{first_too_deep, levels, longest_ways};
use crate::rows::{Rows, method_rows};
use crate::weighing::capped_weight;
use std::alloc::Global;
use std::marker::Model;
use stx_scenario::{GREATEST_WEIGHT, List, MethodNo, NoMemory, Scenario};

/// The ranks of a scenario's methods and its weight, in which no method leads to itself or stands too deep, and which
/// isn't too heavy.
#[derive(Debug, Drop)]
pub struct Graph {
    ranks: List<u32>,
    weight: u64,
}

impl Model for Graph {
    ghost use Rattle.stx_graph.specs.Graph.{Weighed};

    ghost Value = { Weighed };

    ghost view = { λ g. record { ranks = g.ranks; weight = g.weight } };
}

/// Why a scenario has no call graph.
#[derive(Clone, Copy, Debug, PartialEq, Eq)]
pub enum GraphFault {
    /// This method leads to itself in one or more steps; it is the first one that does.
    CallCycle(MethodNo),
    /// This method's rank is over 64; it is the first one of which that holds.
    TooDeep(MethodNo),
    /// The weight is over 200,000.
    TooLarge,
    NoMemory(NoMemory),
}

impl From<NoMemory> for GraphFault {
    ghost use Rattle.stx_graph.specs.declared.graph.GraphFault.{GraphFault};

    ghost from_gives = { λ refused fault. fault ≡ GraphFault.NoMemory refused };

    fn from(refused: NoMemory) -> Self {
        GraphFault::NoMemory(refused)
    }
}

impl Graph {
    /// The graph of a scenario. A method that leads to itself is refused first, then one that is too deep, then the
    /// weight.
    pub fn of(alloc: Global, scenario: &Scenario) -> Result<Graph, GraphFault>
        requires { InRange scenario.now }
        ensures graph { IfOk result (λ graph. graph ≡ weighed scenario.now) }
        ensures accepted { IfOk result (λ graph. IsAccepted scenario.now) }
        ensures refused { IfErr result (λ fault. IsDue scenario.now fault) }
    {
        let rows = method_rows(alloc, scenario)?;
        let ranks = longest_ways(alloc, &rows)?;
        if let Some(method) = first_too_deep(ranks.as_slice()) {
            return Err(fault_of_depth(alloc, &rows, method));
        }
        let levels = levels(ranks.as_slice());
        let weight = capped_weight(alloc, scenario, levels)?;
        if weight > GREATEST_WEIGHT {
            return Err(GraphFault::TooLarge);
        }
        Ok(Graph { ranks, weight })
    }

    /// The steps of the longest way of calls from this method.
    pub fn rank(&self, method: MethodNo) -> u32
        requires { method.0 < length self.now.ranks }
        ensures { slice_get self.now.ranks method.0 ≡ Some result }
    {
        self.ranks.items[method.0 as usize]
    }

    /// The weight of the scenario: a bound on what its run may take.
    pub fn weight(&self) -> u64
        ensures { result ≡ self.now.weight }
    {
        self.weight
    }
}

// The fault of a scenario in which this method is the first from which a way is too long.
fn fault_of_depth(alloc: Global, rows: &Rows, method: MethodNo) -> GraphFault
    requires few { length rows.now < 2 ^ 32 }
    requires range { RowsInRange (length rows.now) rows.now }
    ensures { IsDepthFault (next_in rows.now) (length rows.now) method result }
{
    match first_on_cycle(alloc, rows) {
        Ok(Some(cycle)) => GraphFault::CallCycle(cycle),
        Ok(None) => GraphFault::TooDeep(method),
        Err(refused) => GraphFault::NoMemory(refused),
    }
}
