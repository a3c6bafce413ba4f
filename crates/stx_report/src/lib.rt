//! The texts that the programs write, each made whole: the report of a run, the answer to a check, a refusal, what the
//! rules decide, and the summary of a load.
#![tactic(auto)]

mod check;
mod clients;
mod final_rows;
mod journal;
mod load;
mod places;
mod refusal;
mod report;
mod rows;
mod rules;
mod text;

pub use check::check_text;
pub use load::summary;
pub use refusal::refusal_text;
pub use report::print;
pub use rules::rules_text;
