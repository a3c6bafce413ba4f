// What a run leaves: the clients' lines, the two histories, and what a tool hands back.
use crate::{Line, PoolEntry, StoreEntry};
use stx_scenario::{List, Scenario};

/// The trace of one client.
pub type ClientLines = List<Line>;

/// What a run of all clients left.
#[derive(Debug, Drop)]
pub struct Outcome {
    /// The trace of each client, by its number from 0.
    pub lines: List<ClientLines>,
    /// The pool's history.
    pub pool: List<PoolEntry>,
    /// The store's history.
    pub store: List<StoreEntry>,
}

/// A scenario, and what a run of it left.
#[derive(Debug, Drop)]
pub struct Report {
    pub scenario: Scenario,
    pub outcome: Outcome,
}

/// How a tool ended.
#[derive(Debug, Drop)]
pub struct ToolEnd {
    /// 0 where all was done; 2 for words that state no job; 3 and 5 where reading or writing failed; 4 where the
    /// scenario is refused; 6 for want of memory; 7 where the input is too long.
    pub status: u8,
    /// What was played, where the report's text was made.
    pub report: Option<Report>,
}
