// Readers and writers of std, read and written whole, with faults.
use super::*;
use std::io;
use std::io::{ErrorKind, Read, Write};
use std::test::Fail;

const TEXT: &[u8] = b"a text of forty-two bytes, in three pieces";

// A reader and a writer that give nothing, take as many bytes as they say, and fail where they say nothing.
#[derive(Drop)]
struct Broken {
    takes: Option<usize>,
    flushes: bool,
}

fn refused() -> io::Error {
    io::Error::from(ErrorKind::Other)
}

impl Read for Broken {
    fn read(&mut self, _: &mut [u8]) -> io::Result<usize> {
        Err(refused())
    }
}

impl Write for Broken {
    fn write(&mut self, from: &[u8]) -> io::Result<usize> {
        match self.takes {
            Some(count) => Ok(count.min(from.len())),
            None => Err(refused()),
        }
    }

    fn flush(&mut self) -> io::Result<()> {
        if self.flushes { Ok(()) } else { Err(refused()) }
    }
}

#[test]
fn a_reader_is_a_source(rt: HostRuntime) -> Result<(), Fail> {
    let mut source = StdSource::new(TEXT);
    let whole = read_whole(rt.alloc(), &mut source, 1000);
    assert_eq!(rt; whole.map_err(|_| "read")?.as_slice(), TEXT);

    let broken = Broken {
        takes: None,
        flushes: false,
    };
    let mut source = StdSource::new(TEXT.chain(broken));
    let end = read_whole(rt.alloc(), &mut source, 1000).err();
    assert_eq!(rt; end, Some(ReadEnd::Fault));
    Ok(())
}

#[test]
fn a_writer_is_a_sink(rt: HostRuntime) -> Result<(), Fail> {
    let mut bytes = Vec::new(rt.alloc());
    let mut sink = StdSink::new(&mut bytes);
    assert_eq!(rt; write_whole(&mut sink, TEXT), Ok(()));
    assert_eq!(rt; bytes.as_slice(), TEXT);

    for (takes, flushes, fails) in [
        (Some(8), true, false),
        (Some(8), false, true),
        (Some(0), true, true),
        (None, true, true),
    ] {
        let mut sink = StdSink::new(Broken { takes, flushes });
        let written = write_whole(&mut sink, TEXT);
        assert_eq!(rt; written.is_err(), fails, "at {takes:?} and {flushes}");
    }
    Ok(())
}
