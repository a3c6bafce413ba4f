// Ranks, by rounds: after each round they count the steps of the longest ways with one step more.
ghost use Rattle.std.specs.Prelude.{◌≡◌, ◌+◌, ◌<◌, ◌≤◌, ◌^◌, length, map, IfOk, All, MatchOption, ℕ};
ghost use Rattle.stx_scenario.specs.declared.numbers.MethodNo.{MethodNo};
ghost use Rattle.stx_base.specs.Weight.{MethodsInRange};
ghost use Rattle.stx_graph.specs.inner.Rows.{RowsInRange};
ghost use Rattle.stx_graph.specs.Ranks.{IsFirst};
ghost use Rattle.stx_graph.specs.inner.Rounds.{raised, rank_at, AreLongest};

use crate::rows::Rows;
use std::alloc::Global;
use stx_scenario::{GREATEST_RANK, List, MethodNo, NoMemory};

/// How many rounds tell a rank that a method may have from a greater one.
const ROUNDS: u32 = GREATEST_RANK + 1;

/// The steps of the longest way from each method, up to one more than a method may have.
pub(crate) fn longest_ways(alloc: Global, rows: &Rows) -> Result<List<u32>, NoMemory>
    requires { RowsInRange (length rows.now) rows.now }
    ensures { IfOk result (λ ranks. AreLongest rows.now 65 ranks) }
{
    let mut ranks = vec![in alloc; 0; rows.len()]?;
    for _round in 0..ROUNDS {
        ranks = next_round(alloc, rows, &ranks)?;
    }
    Ok(List::from_vec(ranks))
}

fn next_round(alloc: Global, rows: &Rows, ranks: &[u32]) -> Result<Vec<u32>, NoMemory>
    requires range { RowsInRange (length ranks.now) rows.now }
    requires low { All (λ rank. rank ≤ 64) ranks.now }
    ensures { IfOk result (λ next. next.items ≡ map (raised ranks.now) rows.now) }
{
    let mut next = Vec::new(alloc);
    for row in rows.as_slice() {
        next.push(rank_above(row.as_slice(), ranks))?;
    }
    Ok(next)
}

// One more than the greatest rank in a row, and 0 where it is empty.
fn rank_above(row: &[MethodNo], ranks: &[u32]) -> u32
    requires range { MethodsInRange (length ranks.now) row.now }
    requires low { All (λ rank. rank ≤ 64) ranks.now }
    ensures { result ≡ raised ranks.now row.now }
{
    let mut rank = 0;
    for method in row {
        rank = rank.max(ranks[method.0 as usize] + 1);
    }
    rank
}

/// The first method whose rank is over the greatest that it may have.
pub(crate) fn first_too_deep(ranks: &[u32]) -> Option<MethodNo>
    requires { length ranks.now < 2 ^ 32 }
    ensures { MatchOption result (All (λ rank. rank ≤ 64) ranks.now) (λ m. IsFirst (λ m. 64 < rank_at ranks.now m) m) }
{
    for (number, rank) in ranks.iter().enumerate() {
        if *rank > GREATEST_RANK {
            return Some(MethodNo(number as u32));
        }
    }
    None
}

/// How many levels of calls there are: one more than the greatest rank.
pub(crate) fn levels(ranks: &[u32]) -> u32
    requires { All (λ rank. rank ≤ 64) ranks.now }
    ensures few { result ≤ 65 }
    ensures above { All (λ rank. rank < result) ranks.now }
{
    let mut levels = 0;
    for rank in ranks {
        levels = levels.max(*rank + 1);
    }
    levels
}
