//! A value that many threads call one at a time, each call in its turn, with one legal history of all calls.
#![tactic(auto)]

mod cell;
mod logged;
mod rule;
mod turns;
mod view;

pub use cell::{Seat, TurnCell};
pub use logged::Logged;
pub use view::Ended;

#[cfg(test)]
mod tests;
