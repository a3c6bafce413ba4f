// Standard input and output, or any other reader and writer, as a source and a sink that tell no bytes.
ghost use Rattle.std.specs.Prelude.{◌≡◌, ℕ, ◌<◌, ◌≤◌, length, take, None, Ok, IfSome, IfNone, IsErr, MatchOption};
ghost use Rattle.std.specs.Io.KnownBytes.{Appends, Consumes, IsAtEnd, Keeps};
ghost use Rattle.stx_outside.specs.Streams.{HasCause};

use crate::{Failed, Sink, Source};
use std::io::{Read, Write};
use std::marker::Model;

/// A reader as a source. Contracts see it as its count of faults, which each error of the reader raises.
#[derive(Debug, Drop)]
pub struct StdSource<R> {
    input: R,
    faults: u64,
}

impl<R> Model for StdSource<R> {
    ghost use Rattle.std.specs.Prelude.{ℕ};

    ghost Value = { ℕ };

    ghost view = { λ s. s.faults };
}

impl<R: Read> StdSource<R> {
    /// A source over a reader, with no fault yet.
    pub fn new(input: R) -> Self
        ensures { result ≡ 0 }
    {
        StdSource { input, faults: 0 }
    }
}

impl<R: Read> Source for StdSource<R> {
    ghost left = { λ _. None };

    ghost faults = { λ source. source };

    ghost turns = { λ _. 0 };

    fn read(&mut self, into: &mut [u8]) -> Result<usize, Failed> {
        counted(read_once(&mut self.input, into), &mut self.faults)
    }
}

/// A writer as a sink, which flushes after each write. Contracts see it as its count of faults, which each
/// error of the writer raises, and each write that takes nothing of a slice that isn't empty.
#[derive(Debug, Drop)]
pub struct StdSink<W> {
    output: W,
    faults: u64,
}

impl<W> Model for StdSink<W> {
    ghost use Rattle.std.specs.Prelude.{ℕ};

    ghost Value = { ℕ };

    ghost view = { λ s. s.faults };
}

impl<W: Write> StdSink<W> {
    /// A sink over a writer, with no fault yet.
    pub fn new(output: W) -> Self
        ensures { result ≡ 0 }
    {
        StdSink { output, faults: 0 }
    }
}

impl<W: Write> Sink for StdSink<W> {
    ghost taken = { λ _. None };

    ghost faults = { λ sink. sink };

    fn write(&mut self, from: &[u8]) -> Result<usize, Failed> {
        counted(write_once(&mut self.output, from), &mut self.faults)
    }
}

// How many bytes the reader gave, or `None` where it failed. Of what it has left, where that is known, exactly these
// bytes are gone.
fn read_once<R: Read>(input: &mut R, into: &mut [u8]) -> Option<usize>
    ensures bound { IfSome result (λ count. count ≤ length into.new) }
    ensures bytes { IfSome result (λ count. Consumes (R.remaining input.old) (R.remaining input.new) (take count into.new)) }
    ensures end { IfSome result (λ count. count ≡ 0 → 0 < length into.new → IsAtEnd (R.remaining input.new)) }
    ensures failed { IfNone result (Keeps (R.remaining input.old) (R.remaining input.new)) }
{
    input.read(into).ok()
}

// How many bytes the writer took, or `None` where it failed or took none of some. To take none of an empty slice is no
// fault: a sink owes progress for a slice that isn't empty alone. What it holds, where that is known, gained exactly
// these bytes.
fn write_once<W: Write>(output: &mut W, from: &[u8]) -> Option<usize>
    ensures bound { IfSome result (λ count. count ≤ length from.now) }
    ensures some { IfSome result (λ count. 0 < length from.now → 0 < count) }
    ensures bytes { IfSome result (λ count. Appends (W.contents output.old) (W.contents output.new) (take count from.now)) }
{
    let count = output.write(from).ok()?;
    if count == 0 && !from.is_empty() {
        return None;
    }
    output.flush().ok()?;
    Some(count)
}

// What a call answers, with its fault counted where it has failed.
fn counted(count: Option<usize>, faults: &mut u64) -> Result<usize, Failed>
    ensures count { MatchOption count (IsErr result) (λ n. result ≡ Ok n) }
    ensures cause { HasCause faults.old faults.new result }
{
    if count.is_none() {
        *faults = faults.saturating_add(1);
    }
    count.ok_or(Failed)
}
