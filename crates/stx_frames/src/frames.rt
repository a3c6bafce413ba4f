// The frames themselves, the innermost last.
ghost use Rattle.std.specs.Prelude.{◌≡◌, ◌+◌, ◌≤◌, [], ◌∷◌, ◌++◌, length, OnOk, OnErr, MatchOption, None};
ghost use Rattle.std.specs.Borrow.{sem};
ghost use Rattle.std.specs.Option.{option_to_list, option_copied_mut};
ghost use Rattle.stx_frames.specs.Stacks.{innermost};
ghost use Rattle.stx_frames.specs.inner.Places.{IsInnermost};

use crate::Frame;
use std::alloc::Global;
use std::marker::Model;
use stx_scenario::NoMemory;

/// Frames, seen as their list, the innermost last, and the room for more. They can't be let go: `done` spends an empty
/// list.
#[must_use]
pub struct Frames<S> {
    frames: Vec<Frame<S>>,
}

impl<S> Model for Frames<S> {
    ghost use Rattle.std.specs.Prelude.{◌-◌, vec_len, vec_capacity};
    ghost use Rattle.stx_scenario.specs.Rooms.{Room};
    ghost use Rattle.stx_frames.specs.declared.frame.Frame.{Frame as FrameData};

    ghost Value = { Room (FrameData S) };

    ghost view = { λ f. record { items = f.frames.items; spare = vec_capacity f.frames - vec_len f.frames } };
}

impl<S> Frames<S> {
    ghost use Rattle.stx_frames.specs.Stacks.{last_of, innermost};
    ghost use Rattle.stx_frames.specs.Lending.{lends_top, lends_innermost};

    /// No frames, and no room. It takes no memory.
    pub fn new(alloc: Global) -> Frames<S>
        ensures items { result.items ≡ [] }
        ensures room { result.spare ≡ 0 }
    {
        Frames {
            frames: Vec::new(alloc),
        }
    }

    /// Makes room for one frame more. It fails only where there was none.
    pub fn reserve(&mut self, _alloc: Global) -> Result<(), NoMemory>
        ensures items { self.new.items ≡ self.old.items }
        ensures room { OnOk result (1 ≤ self.new.spare) }
        ensures kept { self.old.spare ≤ self.new.spare }
        ensures full { OnErr result (self.old.spare ≡ 0) }
    {
        self.frames.reserve(1)?;
        Ok(())
    }

    /// Puts a frame on top, in the room that there is.
    pub fn push(&mut self, frame: Frame<S>)
        requires { 1 ≤ self.old.spare }
        ensures items { self.new.items ≡ self.old.items ++ frame ∷ [] }
        ensures room { self.old.spare ≡ self.new.spare + 1 }
    {
        self.frames.push_reserved(frame);
    }

    /// The innermost frame, or `None` where there is none.
    pub fn top(&mut self) -> Option<&mut Frame<S>>
        ensures* writes_back { sem 𝓛 (lends_top S.row self.entry result) }
        ensures value { option_copied_mut result ≡ last_of self.old.items }
    {
        self.frames.last_mut()
    }

    /// Takes the innermost frame off, or nothing where there is none; it leaves room for another.
    pub fn pop(&mut self) -> Option<Frame<S>>
        ensures items { self.old.items ≡ self.new.items ++ option_to_list result }
        ensures value { result ≡ last_of self.old.items }
        ensures room { self.new.spare ≡ self.old.spare + length (option_to_list result) }
    {
        self.frames.pop()
    }

    /// The innermost scope, or `None` where no frame has one.
    pub fn nearest(&mut self) -> Option<&mut S>
        ensures* writes_back { sem 𝓛 (lends_innermost S.row self.entry result) }
        ensures value { option_copied_mut result ≡ innermost self.old.items }
    {
        let place = innermost_place(&self.frames)?;
        match self.frames.get_mut(place) {
            Some(frame) => frame.scope_mut(),
            None => None,
        }
    }

    /// Lets the frames go, of which none is left.
    pub fn done(self)
        requires { self.items ≡ [] }
    {
        let Frames { frames } = self;
        frames.destroy_empty();
    }
}

// The place of the innermost frame that has a scope.
fn innermost_place<S>(frames: &[Frame<S>]) -> Option<usize>
    ensures { MatchOption result (innermost frames.now ≡ None) (λ place. IsInnermost frames.now place) }
{
    for place in (0..frames.len()).rev() {
        if frames[place].has_scope() {
            return Some(place);
        }
    }
    None
}
