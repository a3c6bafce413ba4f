//! The rows with the older values of live transactions, to go back to. `specs/Rows` says what contracts see of them.
#![tactic(auto)]

mod rows;
mod slots;
mod undo;

pub use rows::Rows;
