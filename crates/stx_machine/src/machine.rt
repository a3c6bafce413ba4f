// The machine itself.
ghost use Rattle.std.specs.Prelude.{◌≡◌, ◌≤◌, ◌<◌, ◌+◌, ◌^◌, ◌⊎◌, [], None, OnOk, OnErr};
ghost use Rattle.stx_context.specs.Carrying.{bare};
ghost use Rattle.stx_machine.specs.Sound.{no_tokens};

use crate::interception::Interception;
use crate::setup::Setup;
use crate::stage::Stage;
use crate::tokens::Tokens;
use std::alloc::Global;
use stx_base::{ClientLines, Line};
use stx_context::Context;
use stx_frames::Frames;
use stx_scenario::{NoMemory, Roomy};

/// The most lines that a small step adds beside those that tell registrations, or a note and the step after it.
const MOST_LINES: usize = 4;

/// Where a client stands in its calls, what it carries and holds, and the lines that it has said.
pub struct Machine {
    /// The place of the call under way, from 0.
    pub top: usize,
    pub frames: Frames<Interception>,
    pub context: Context,
    /// The local mark of the nearest scope that is open, if one is.
    pub local: Option<bool>,
    pub tokens: Tokens,
    pub stage: Stage,
    pub lines: Roomy<Line>,
}

impl Drop for Machine {
    // As `into_lines` does, and the lines go too.
    fn drop(self) {
        drop(self.into_lines());
    }
}

// Gives up the calls that are under way, with what they hold.
fn give_up(frames: Frames<Interception>) {
    let mut frames = frames;
    while let Some(frame) = frames.pop() {
        drop(frame);
    }
    frames.done();
}

impl Machine {
    /// A machine that has made no call and said nothing.
    pub fn new(alloc: Global) -> Machine
        ensures lines { result.lines.items ≡ [] }
        ensures frames { result.frames.items ≡ [] }
        ensures context { result.context ≡ bare }
        ensures local { result.local ≡ None }
        ensures tokens { result.tokens ≡ no_tokens }
    {
        Machine {
            top: 0,
            frames: Frames::new(alloc),
            context: Context::bare(),
            local: None,
            tokens: Tokens::none(),
            stage: Stage::Done,
            lines: Roomy::new(alloc),
        }
    }

    /// Makes room for a small step, or for a note and the step after it. Nothing else changes.
    pub fn reserve(&mut self, alloc: Global) -> Result<(), NoMemory>
        ensures lines { OnOk result (4 ≤ self.new.lines.spare) }
        ensures frames { OnOk result (1 ≤ self.new.frames.spare) }
        ensures said { self.new.lines.items ≡ self.old.lines.items }
        ensures calls { self.new.frames.items ≡ self.old.frames.items }
        ensures rest { self.new ≡ record self.old { lines = self.new.lines; frames = self.new.frames } }
        ensures full { OnErr result ((self.old.lines.spare < 4) ⊎ (self.old.frames.spare ≡ 0)) }
    {
        self.reserve_lines(alloc, 0)
    }

    /// Makes room for a small step that tells so many registrations.
    pub fn reserve_lines(&mut self, alloc: Global, told: usize) -> Result<(), NoMemory>
        requires few { told < 2 ^ 32 }
        ensures lines { OnOk result (told + 4 ≤ self.new.lines.spare) }
        ensures frames { OnOk result (1 ≤ self.new.frames.spare) }
        ensures said { self.new.lines.items ≡ self.old.lines.items }
        ensures calls { self.new.frames.items ≡ self.old.frames.items }
        ensures rest { self.new ≡ record self.old { lines = self.new.lines; frames = self.new.frames } }
        ensures full { OnErr result ((self.old.lines.spare < told + 4) ⊎ (self.old.frames.spare ≡ 0)) }
    {
        self.lines.reserve(told + MOST_LINES)?;
        self.frames.reserve(alloc)
    }

    /// The lines that were said.
    pub fn into_lines(self) -> ClientLines
        ensures { result ≡ self.lines.items }
    {
        let Machine {
            frames,
            context,
            lines,
            top: _,
            local: _,
            tokens: _,
            stage: _,
        } = self;
        give_up(frames);
        context.retire();
        lines.into_list()
    }
}
