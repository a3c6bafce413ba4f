// A frame that is put on top and taken off where there is memory enough.
use super::*;
use std::alloc::Global;
use stx_scenario::ListenerNo;

fn is_taken_off(alloc: Global) -> bool {
    let mut frames: Frames<u32> = Frames::new(alloc);
    match frames.reserve(alloc) {
        Ok(()) => {
            frames.push(Frame::Now {
                listener: ListenerNo(3),
                place: 0,
            });
            let taken = matches!(frames.pop(), Some(Frame::Now { .. }));
            frames.done();
            taken
        }
        Err(_) => {
            frames.done();
            false
        }
    }
}

#[test]
fn a_frame_is_taken_off(rt: HostRuntime) {
    assert!(rt; is_taken_off(rt.alloc()));
}
