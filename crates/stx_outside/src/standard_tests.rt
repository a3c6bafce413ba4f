// No byte is lost between a reader or a writer of std and whole reads and writes.
use super::*;
use std::alloc::{AllocError, Global};
use std::io;
use std::io::{ErrorKind, Write};
use std::test::Fail;

// More bytes than one piece has, which differ from place to place.
fn two_pieces(alloc: Global) -> Result<Vec<u8>, AllocError> {
    (0..5000u32).map(|n| (n % 251) as u8).collect(alloc)
}

/// A writer that takes eight bytes a call and keeps them.
#[derive(Drop)]
struct Slow {
    kept: Vec<u8>,
}

impl Write for Slow {
    fn write(&mut self, from: &[u8]) -> io::Result<usize> {
        let count = from.len().min(8);
        match self.kept.extend_from_slice(&from[..count]) {
            Ok(()) => Ok(count),
            Err(_) => Err(io::Error::from(ErrorKind::Other)),
        }
    }

    fn flush(&mut self) -> io::Result<()> {
        Ok(())
    }
}

#[test]
fn a_reader_of_more_than_one_piece_is_read_whole(rt: HostRuntime) -> Result<(), Fail> {
    let bytes = two_pieces(rt.alloc())?;
    let mut source = StdSource::new(bytes.as_slice());
    let read = read_whole(rt.alloc(), &mut source, 5000).unwrap_or(Vec::new(rt.alloc()));
    assert!(rt; read == bytes);
    Ok(())
}

#[test]
fn a_writer_that_takes_little_gets_all(rt: HostRuntime) -> Result<(), Fail> {
    let bytes = two_pieces(rt.alloc())?;
    let mut slow = Slow {
        kept: Vec::new(rt.alloc()),
    };
    let _ = write_whole(&mut StdSink::new(&mut slow), bytes.as_slice());
    assert!(rt; slow.kept == bytes);
    Ok(())
}
