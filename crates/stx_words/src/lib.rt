//! The words of a command line: the job that they state, or why they state none.
#![tactic(auto)]

mod command;
mod fault;
mod job;
mod jobs;
mod load;
mod matches;
mod options;
mod run_job;

pub use command::{read_run_words, read_words};
pub use fault::WordsFault;
pub use job::Job;
pub use load::Load;
pub use run_job::RunJob;
