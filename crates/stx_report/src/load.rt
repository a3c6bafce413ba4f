// The text that answers a load: what was asked for, how many calls clients made, and what the accounts hold at the end.
ghost use Rattle.std.specs.Prelude.{◌≡◌, ◌==◌, IfOk, codes, filter, map, string_bytes, sum, length};
ghost use Rattle.std.specs.List.{starts_with};
ghost use Rattle.stx_report.specs.SummaryText as texts;

use crate::final_rows::final_values;
use crate::rows::sorted_rows;
use crate::text::push_text;
use std::alloc::Global;
use std::collections::BTreeMap;
use stx_base::Outcome;
use stx_scenario::{Calls, NoMemory, Scenario};

/// What the names of accounts begin with.
const ACCOUNT: &str = "acct";

/// The summary of a load that was generated from a seed.
#[tactic(auto, unfolding(crate::specs::SummaryText::summary))]
pub fn summary(
    alloc: Global,
    seed: u64,
    scenario: &Scenario,
    outcome: &Outcome,
) -> Result<Vec<u8>, NoMemory>
    ensures { IfOk result (λ text. text.items ≡ texts.summary seed scenario.now outcome.now) }
{
    let request = request_text(alloc, seed, scenario.clients.len())?;
    let calls = calls_text(alloc, top_calls(scenario.clients.as_slice()))?;
    let balances = balances(alloc, scenario, outcome)?;
    let accounts = accounts_text(alloc, balances.as_slice())?;
    let mut out = Vec::new(alloc);
    push_text(&mut out, request.as_str())?;
    push_text(&mut out, calls.as_str())?;
    push_text(&mut out, accounts.as_str())?;
    push_text(&mut out, "end\n")?;
    Ok(out)
}

fn request_text(alloc: Global, seed: u64, clients: usize) -> Result<String, NoMemory>
    ensures { IfOk result (λ text. string_bytes text ≡ texts.request_text seed clients) }
{
    Ok(format!(in alloc; "load seed {seed} clients {clients}\n")?)
}

fn calls_text(alloc: Global, calls: u128) -> Result<String, NoMemory>
    ensures { IfOk result (λ text. string_bytes text ≡ texts.calls_text calls) }
{
    Ok(format!(in alloc; "top_calls {calls}\n")?)
}

/// How many accounts there are, and the sum of what they hold.
fn accounts_text(alloc: Global, balances: &[i64]) -> Result<String, NoMemory>
    ensures { IfOk result (λ text. string_bytes text ≡ texts.accounts_text balances.now) }
{
    let accounts = balances.len();
    let sum = sum_of(balances);
    Ok(format!(in alloc; "accounts {accounts} sum {sum}\n")?)
}

fn top_calls(clients: &[Calls]) -> u128
    ensures { result ≡ sum (map length clients.now) }
{
    let mut total: u128 = 0;
    for calls in clients {
        total += calls.len() as u128;
    }
    total
}

/// What the accounts hold at the end.
fn balances(alloc: Global, scenario: &Scenario, outcome: &Outcome) -> Result<Vec<i64>, NoMemory>
    ensures { IfOk result (λ balances. balances.items ≡ texts.balances scenario.now outcome.now.store) }
{
    let values = final_values(alloc, scenario, outcome.store.as_slice())?;
    let rows = sorted_rows(alloc, scenario.row_names.as_slice(), values.as_slice())?;
    let balances = balances_among(alloc, &rows)?;
    Ok(balances)
}

fn balances_among(alloc: Global, rows: &BTreeMap<&str, i64>) -> Result<Vec<i64>, NoMemory>
    ensures { IfOk result (λ balances. balances.items ≡
        map (λ row. row.1) (filter texts.is_account (map (λ row. (row.0.now, row.1)) rows.now.entries))) }
{
    let mut balances = Vec::new(alloc);
    for (name, balance) in rows {
        if is_account(name) {
            balances.push(*balance)?;
        }
    }
    Ok(balances)
}

fn is_account(name: &str) -> bool
    ensures { result ≡ starts_with ◌==◌ name.now (codes "acct") }
{
    name.as_bytes().starts_with(ACCOUNT.as_bytes())
}

/// The exact sum: no list is so long that it leaves 128 bits.
fn sum_of(values: &[i64]) -> i128
    ensures { result ≡ texts.sum_of values.now }
{
    let mut sum: i128 = 0;
    for value in values {
        sum += i128::from(*value);
    }
    sum
}
