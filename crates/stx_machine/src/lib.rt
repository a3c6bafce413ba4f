//! The machine of one client: the calls that are under way, one inside the other, what the client carries and holds, and
//! the lines that it has said. Each small step changes one of them, as the script says. `specs/Machine` says what is
//! left of the script at each stage.
#![tactic(auto)]

mod bodies;
mod calls;
mod completion;
mod interception;
mod machine;
mod openings;
mod setup;
mod stage;
mod tokens;

pub use bodies::access_of;
pub use calls::attribute_of;
pub use completion::Intercepted;
pub use interception::{Course, Interception, Phase};
pub use machine::Machine;
pub use setup::Setup;
pub use stage::{Bound, Place, Publication, Stage, Then};
pub use tokens::Tokens;
