//! A client: it wants a shared call, takes in the reply, and says the lines of its script. `specs/View` says what contracts
//! see of it.
#![tactic(auto)]

mod client;
mod notes;

pub use client::Client;
pub use stx_machine::Setup;
