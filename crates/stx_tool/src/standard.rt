// A program's command line, its standard input and its standard output.
use crate::Early;
use std::alloc::Global;
use std::env;
use std::io::{ErrorKind, Read, Write};
use std::process::ExitCode;
use std::rt::Env;
use stx_base::ToolEnd;
use stx_outside::{StdSink, StdSource};

/// Memory ran out before there were words.
const WANT_OF_MEMORY: u8 = 6;

/// Calls a program's tool with the words after the program's name, its input and its output, and ends with the tool's status.
/// Without words it is 2 where one of them is no text, and 6 for want of memory.
pub fn ends_with<
    R: Env + AllocGlobal,
    I: Read + Drop,
    O: Write + Drop,
    F: FnOnce(Global, &[String], &mut StdSource<I>, &mut StdSink<O>) -> ToolEnd,
>(rt: &R, input: I, output: O, tool: F) -> ExitCode
    requires { F.IsAlwaysCallable tool }
{
    let alloc = rt.alloc();
    let words = match words_of(rt, alloc) {
        Ok(words) => words,
        Err(status) => return ExitCode::from(status),
    };
    let mut source = StdSource::new(input);
    let mut sink = StdSink::new(output);
    let end = tool(alloc, words.as_slice(), &mut source, &mut sink);
    ExitCode::from(end.status)
}

/// The words after the program's name, or the status without them.
fn words_of<R: Env + AllocGlobal>(rt: &R, alloc: Global) -> Result<Vec<String>, u8> {
    match env::args(rt) {
        Ok(words) => words.skip(1).collect(alloc).map_err(|_| WANT_OF_MEMORY),
        Err(error) if error.kind() == ErrorKind::OutOfMemory => Err(WANT_OF_MEMORY),
        Err(_) => Err(Early::Usage.status()),
    }
}
