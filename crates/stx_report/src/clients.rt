// The text of the clients: their numbers and lines, a line of a shared call with its entry's place.
ghost use Rattle.std.specs.Prelude.{◌≡◌, ◌++◌, OnOk, drop};
ghost use Rattle.stx_base.specs.Report as texts;
ghost use Rattle.stx_trace.specs.LineKinds.{shared_of};
ghost use Rattle.stx_report.specs.inner.Places.{client_words};

use crate::places::entry_places;
use crate::text::push_text;
use std::alloc::Global;
use stx_base::{ClientLines, Line, Outcome};
use stx_scenario::{NoMemory, Scenario};
use stx_trace::{History, push_line};

/// Appends the text of all clients.
pub fn push_clients(
    alloc: Global,
    out: &mut Vec<u8>,
    scenario: &Scenario,
    outcome: &Outcome,
) -> Result<(), NoMemory>
    ensures { OnOk result (out.new.items ≡
        out.old.items ++ texts.clients_text scenario.now outcome.now 0 outcome.now.lines) }
{
    let clients = outcome.lines.len();
    let pool = entry_places(alloc, clients, outcome.pool.as_slice())?;
    let store = entry_places(alloc, clients, outcome.store.as_slice())?;
    for (client, lines) in outcome.lines.as_slice().iter().enumerate() {
        let pool = pool[client].as_slice();
        let store = store[client].as_slice();
        push_client(alloc, out, scenario, client, lines, pool, store)?;
    }
    Ok(())
}

/// Appends a client's number and its lines.
fn push_client(
    alloc: Global,
    out: &mut Vec<u8>,
    scenario: &Scenario,
    client: usize,
    lines: &ClientLines,
    pool: &[u64],
    store: &[u64],
) -> Result<(), NoMemory>
    ensures { OnOk result (out.new.items ≡
        out.old.items ++ client_words scenario.now client pool.now store.now lines.now) }
{
    let head = format!(in alloc; "client {client}\n")?;
    push_text(out, head.as_str())?;
    push_lines(alloc, out, scenario, lines.as_slice(), pool, store)
}

/// Appends lines, each with the place of the next entry in its history.
fn push_lines(
    alloc: Global,
    out: &mut Vec<u8>,
    scenario: &Scenario,
    lines: &[Line],
    pool: &[u64],
    store: &[u64],
) -> Result<(), NoMemory>
    ensures { OnOk result (out.new.items ≡
        out.old.items ++ texts.lines_text scenario.now pool.now store.now lines.now) }
{
    let mut pool_rest = pool;
    let mut store_rest = store;
    for line in lines {
        let history = History::of(line);
        push_line(
            alloc,
            out,
            line,
            next_place(history, pool_rest, store_rest),
            scenario,
        )?;
        pool_rest = pool_left(history, pool_rest);
        store_rest = store_left(history, store_rest);
    }
    Ok(())
}

fn next_place(history: History, pool: &[u64], store: &[u64]) -> Option<u64>
    ensures { result ≡ texts.next_place (shared_of history) pool.now store.now }
{
    match history {
        History::Pool => pool.first().copied(),
        History::Store => store.first().copied(),
        History::Neither => None,
    }
}

fn pool_left(history: History, pool: &[u64]) -> &[u64]
    ensures { result.now ≡ texts.pool_left (shared_of history) pool.now }
{
    match history {
        History::Pool => past_first(pool),
        _ => pool,
    }
}

fn store_left(history: History, store: &[u64]) -> &[u64]
    ensures { result.now ≡ texts.store_left (shared_of history) store.now }
{
    match history {
        History::Store => past_first(store),
        _ => store,
    }
}

fn past_first(places: &[u64]) -> &[u64]
    ensures { result.now ≡ drop 1 places.now }
{
    match places {
        [] => places,
        [_, rest @ ..] => rest,
    }
}
