// A text that grows.
ghost use Rattle.std.specs.Prelude.{◌≡◌, ◌++◌, OnOk, OnErr};
ghost use Rattle.std.specs.Fmt.{decimal};

use itoa::Buffer;
use stx_scenario::NoMemory;

/// Appends a text. For want of memory the text before it stays as it was.
pub fn push_text(out: &mut Vec<u8>, text: &str) -> Result<(), NoMemory>
    ensures ok { OnOk result (out.new.items ≡ out.old.items ++ text.now) }
    ensures err { OnErr result (out.new.items ≡ out.old.items) }
{
    out.extend_from_slice(text.as_bytes())?;
    Ok(())
}

/// Appends a text with a number after it.
pub fn push_counted(out: &mut Vec<u8>, text: &str, count: u64) -> Result<(), NoMemory>
    ensures { OnOk result (out.new.items ≡ out.old.items ++ (text.now ++ decimal count)) }
{
    push_text(out, text)?;
    push_text(out, Buffer::new().format(count))
}
