//! The store: transactions over rows with locks and savepoints, kept as a lock table, rows with undo lists and a journal.
//! `specs/Store` says what contracts see of it.
#![tactic(auto)]

mod access;
mod room;
mod store;

pub use store::StoreCore;
