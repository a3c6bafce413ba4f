//! The small steps of a client's machine: what it does at once, and what a note of the pool or of the store does. Rounds,
//! publications and the statements of bodies are here; opening and completing a scope stands in `stx_machine`.
#![tactic(auto)]

mod ahead;
mod answers;
mod publications;
mod rounds;
mod steps;

pub use answers::{hear, line_of};
pub use steps::fall;
