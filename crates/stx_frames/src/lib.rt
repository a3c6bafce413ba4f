//! The frames of a client's bodies, rounds and listeners, one inside the other. `specs/Stacks` says what contracts see of
//! them.
#![tactic(auto)]

mod frame;
mod frames;

pub use frame::Frame;
pub use frames::Frames;

#[cfg(test)]
mod tests;
