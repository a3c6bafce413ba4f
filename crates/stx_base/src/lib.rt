//! What every part of springtx speaks of: entries, notes, lines, wants, calls and replies, and over them, in `specs`, the
//! definitions of the pool and the store, of classes, rules and weights, and of the texts.
#![tactic(auto)]

mod call;
mod cost;
mod facts;
mod history;
mod laws;
mod line;
mod manager;
mod outcome;
mod token;

pub use call::{Call, PoolAnswer, PoolCall, Reply, StoreAnswer, StoreCall, Want};
pub use cost::Cost;
pub use facts::StoreFacts;
pub use history::{Access, Answer, Note, PoolEntry, PoolNote, StoreEntry, StoreNote};
pub use laws::ranks_are_longest_ways;
pub use line::{Label, Line};
pub use manager::{Action, Ending, Kind, Opening, Round};
pub use outcome::{ClientLines, Outcome, Report, ToolEnd};
pub use token::{Connection, Session};
