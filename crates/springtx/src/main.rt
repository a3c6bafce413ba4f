//! Reads a scenario of Spring's declarative transactions, and plays or checks it on one thread.
#![tactic(auto)]

mod answer;
mod tool;

use std::process::ExitCode;
use stx_tool::ends_with;
pub use tool::tool;

fn main(rt: HostRuntime) -> ExitCode {
    ends_with(
        &rt,
        rt.stdin(),
        rt.stdout(),
        |alloc, words, source, sink| tool(alloc, words, source, sink),
    )
}
