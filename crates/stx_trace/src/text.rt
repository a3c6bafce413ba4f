// A text with the line that is being written at its end, which can be taken away again.
ghost use Rattle.std.specs.Prelude.{◌≡◌, ◌++◌, [], OnOk};
ghost use Rattle.std.specs.Fmt.{decimal, signed_decimal};

use itoa::Buffer;
use std::marker::Model;
use stx_scenario::NoMemory;

/// A text, and where its last line starts.
///
/// Each piece is written once, where it stays. For want of memory a part of the line may stand, and `without_line` takes
/// it away.
#[derive(Drop)]
pub(crate) struct LineText {
    text: Vec<u8>,
    start: usize,
}

impl Model for LineText {
    ghost use Rattle.std.specs.Prelude.{◌≤◌, length, take, drop};
    ghost use Rattle.stx_trace.specs.LineTexts.{Growing};

    ghost Value = { Growing };

    ghost view = { λ t. record { before = take t.start t.text.items; line = drop t.start t.text.items } };

    ghost invariant = { λ t. t.start ≤ length t.text.items };
}

impl LineText {
    /// A text, and an empty line at its end.
    pub(crate) fn at_end_of(text: Vec<u8>) -> LineText
        ensures before { result.before ≡ text.items }
        ensures line { result.line ≡ [] }
    {
        let start = text.len();
        LineText { text, start }
    }

    pub(crate) fn push(&mut self, piece: &str) -> Result<(), NoMemory>
        ensures before { self.new.before ≡ self.old.before }
        ensures ok { OnOk result (self.new.line ≡ self.old.line ++ piece.now) }
    {
        self.text.extend_from_slice(piece.as_bytes())?;
        Ok(())
    }

    pub(crate) fn push_count(&mut self, count: u64) -> Result<(), NoMemory>
        ensures before { self.new.before ≡ self.old.before }
        ensures ok { OnOk result (self.new.line ≡ self.old.line ++ decimal count) }
    {
        self.push(Buffer::new().format(count))
    }

    pub(crate) fn push_value(&mut self, value: i64) -> Result<(), NoMemory>
        ensures before { self.new.before ≡ self.old.before }
        ensures ok { OnOk result (self.new.line ≡ self.old.line ++ signed_decimal value) }
    {
        self.push(Buffer::new().format(value))
    }

    /// The text with its last line.
    pub(crate) fn with_line(self) -> Vec<u8>
        ensures { result.items ≡ self.before ++ self.line }
    {
        let LineText { text, start: _ } = self;
        text
    }

    /// The text without its last line.
    pub(crate) fn without_line(self) -> Vec<u8>
        ensures { result.items ≡ self.before }
    {
        let LineText { mut text, start } = self;
        text.truncate(start);
        text
    }
}
