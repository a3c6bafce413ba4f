// Reading a source to its end, and writing a whole slice to a sink.
ghost use Rattle.std.specs.Prelude.{◌≡◌, ◌≢◌, ℕ, ◌+◌, ◌≤◌, vec_len, IfOk, OnOk, OnErr, IsErrOf};
ghost use Rattle.stx_outside.specs.declared.whole.ReadEnd.TheVariants.{Fault, NoMemory as Refused};
ghost use Rattle.stx_outside.specs.Streams.{GainsEnd, GainsPrefix, HasCause, LosesAll, LosesMore, LosesWithin, Rose, TellsAlike};

use crate::{Failed, Sink, Source};
use std::alloc::Global;
use stx_scenario::NoMemory;

// The most bytes that one read asks for.
const PIECE: usize = 4096;

/// Why a source was not read whole.
#[derive(Clone, Copy, Debug, PartialEq, Eq)]
pub enum ReadEnd {
    /// A read failed.
    Fault,
    /// More bytes came than the limit.
    TooLong,
    /// An allocation was refused.
    NoMemory(NoMemory),
}

impl From<Failed> for ReadEnd {
    ghost from_gives = { λ _ end. end ≡ Fault };

    fn from(_: Failed) -> Self {
        ReadEnd::Fault
    }
}

impl From<NoMemory> for ReadEnd {
    ghost from_gives = { λ refused end. end ≡ Refused refused };

    fn from(refused: NoMemory) -> Self {
        ReadEnd::NoMemory(refused)
    }
}

/// All bytes of a source to its end, if these are at most `limit`. It stops at the first read that fails or
/// goes past the limit.
pub fn read_whole<S: Source>(
    alloc: Global,
    source: &mut S,
    limit: usize,
) -> Result<Vec<u8>, ReadEnd>
    ensures whole { IfOk result (λ bytes. LosesAll (S.left source.old) (S.left source.new) bytes.items) }
    ensures within { IfOk result (λ bytes. vec_len bytes ≤ limit) }

    // Exactly where more bytes than the limit were read, it is too long.
    ensures too_long { result ≡ Err ReadEnd.TooLong → LosesMore limit (S.left source.old) (S.left source.new) }
    ensures no_longer { result ≢ Err ReadEnd.TooLong → LosesWithin limit (S.left source.old) (S.left source.new) }
    ensures told { TellsAlike (S.left source.old) (S.left source.new) }

    // The count of faults rises at a fault alone.
    ensures later { S.faults source.old ≤ S.faults source.new }
    ensures fault { IsErrOf result ReadEnd.Fault → Rose (S.faults source.old) (S.faults source.new) }
    ensures kept { result ≢ Err ReadEnd.Fault → S.faults source.new ≡ S.faults source.old }

    // At most so many reads are made.
    ensures turns { S.turns source.new ≤ S.turns source.old + limit + 2 }
{
    let mut all = Vec::new(alloc);
    let mut piece = [0; PIECE];
    'pieces: loop {
        let count = source.read(&mut piece)?;
        if count == 0 {
            return Ok(all);
        }
        if count > limit - all.len() {
            return Err(ReadEnd::TooLong);
        }
        all.extend_from_slice(&piece[..count])
            .map_err(NoMemory::from)?;
    }
}

/// Writes all of a slice. Where a write fails, the sink has taken a prefix of it.
pub fn write_whole<K: Sink>(sink: &mut K, bytes: &[u8]) -> Result<(), Failed>
    ensures whole { OnOk result (GainsEnd (K.taken sink.old) (K.taken sink.new) bytes.now) }
    ensures prefix { OnErr result (GainsPrefix (K.taken sink.old) (K.taken sink.new) bytes.now) }
    ensures cause { HasCause (K.faults sink.old) (K.faults sink.new) result }
{
    let mut written = 0;
    'pieces: while written < bytes.len() {
        written += sink.write(&bytes[written..])?;
    }
    Ok(())
}
