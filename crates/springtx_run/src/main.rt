//! Reads a scenario of Spring's declarative transactions, and runs its clients side by side, each on a thread of its own.
#![tactic(auto)]

mod answer;
mod run_tool;

pub use run_tool::run_tool;
use std::process::ExitCode;
use stx_runner::Free;
use stx_tool::ends_with;

fn main(rt: HostRuntime) -> ExitCode {
    ends_with(
        &rt,
        rt.stdin(),
        rt.stdout(),
        |alloc, words, source, sink| run_tool(&rt, alloc, words, source, sink, &Free),
    )
}
