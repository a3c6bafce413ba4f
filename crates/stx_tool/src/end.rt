// The end of a top call: what it responds with is written, and gives the status.
ghost use Rattle.std.specs.Prelude.{◌≡◌, ◌≢◌};
ghost use Rattle.stx_outside.specs.Streams.{Rose, GainsEnd, GainsPrefix};
ghost use Rattle.stx_tool.specs.Responses.{IsWritten};

use crate::{Early, Response};
use stx_base::ToolEnd;
use stx_outside::{Sink, write_whole};

/// All was done.
const DONE: u8 = 0;

/// The scenario is refused.
const REFUSED: u8 = 4;

/// A write failed.
const WRITE_FAULT: u8 = 5;

/// Writes what a top call responds with. At an early end nothing is written.
pub fn write_response<K: Sink>(sink: &mut K, responded: Result<Response, Early>) -> ToolEnd
    ensures { IsWritten (K.taken sink.old) (K.taken sink.new) (K.faults sink.old) (K.faults sink.new) responded result }
{
    match responded {
        Ok(Response::Done(report, text)) => ToolEnd {
            status: written(sink, &text, DONE),
            report,
        },
        Ok(Response::Refused(text)) => ToolEnd {
            status: written(sink, &text, REFUSED),
            report: None,
        },
        Err(early) => ToolEnd {
            status: early.status(),
            report: None,
        },
    }
}

/// Writes a text whole, and gives this status, or that of a failed write.
fn written<K: Sink>(sink: &mut K, text: &[u8], status: u8) -> u8
    requires { status ≢ 5 }
    ensures whole { result ≡ status → GainsEnd (K.taken sink.old) (K.taken sink.new) text.now }
    ensures other { result ≢ status → result ≡ 5 }
    ensures fault { result ≡ 5 → Rose (K.faults sink.old) (K.faults sink.new) }
    ensures prefix { result ≡ 5 → GainsPrefix (K.taken sink.old) (K.taken sink.new) text.now }
{
    match write_whole(sink, text) {
        Ok(()) => status,
        Err(_) => WRITE_FAULT,
    }
}
