//! Runs all clients of a scenario side by side, each on a thread of its own, over one pool and one store that they call in
//! turns. `specs/Driving` says what contracts see of it.
#![tactic(auto)]

mod calling;
mod driving;
mod gate;
mod meet;
mod running;
mod slot;

pub use driving::{Driven, drive};
pub use gate::{Free, Gate};
pub use meet::Meet;
pub use running::run;
