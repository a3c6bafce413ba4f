// A sink in memory whose room is used up.
use std::test::Fail;
use stx_outside::{MemorySink, write_whole};

#[test]
fn a_sink_takes_what_it_has_room_for(rt: HostRuntime) -> Result<(), Fail> {
    let alloc = rt.alloc();
    let mut sink = MemorySink::new(alloc, 16, Vec::new(alloc), 41)?;
    let ended = write_whole(&mut sink, b"a text of forty-two bytes, in three pieces");
    assert_eq!(rt;
        (ended.is_ok(), sink.taken()),
        (
            false,
            b"a text of forty-two bytes, in three piece".as_slice()
        )
    );
    Ok(())
}
