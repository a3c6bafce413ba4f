//! What the top calls of all programs share: the call itself, reading the input, refusing it, writing the text, and the statuses of the ends.
#![tactic(auto)]

mod early;
mod end;
mod input;
mod program;
mod reading;
mod response;
mod standard;

pub use early::Early;
pub use program::{Program, Told, top_call};
pub use reading::{Reading, read};
pub use response::Response;
pub use standard::ends_with;
