//! The text of each line of a trace, as the report prints it.
#![tactic(auto)]

mod history;
mod lines;
mod names;
mod text;
mod words;

pub use history::History;
pub use lines::push_line;
pub use names::{class_name, method_name};
pub use words::decision_word;
