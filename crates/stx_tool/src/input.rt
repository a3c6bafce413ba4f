// The input of a job.
ghost use Rattle.std.specs.Prelude.{◌≡◌, IfOk};
ghost use Rattle.stx_tool.specs.Ends.{HasInput};
ghost use Rattle.stx_tool.specs.Responses.{IsRead};

use std::alloc::Global;
use stx_outside::{ReadEnd, Source, read_whole};
use stx_scenario::MOST_INPUT_BYTES;

/// All bytes of a source, if these are no more than a scenario may have. Where no input is needed none is read.
#[tactic(auto, using(crate::proofs::InputLaws::none_within))]
pub fn read_input<S: Source>(
    alloc: Global,
    source: &mut S,
    needed: bool,
) -> Result<Vec<u8>, ReadEnd>
    ensures read { IfOk result (λ bytes. HasInput needed (S.left source.old) (S.left source.new) bytes.items) }
    ensures source { IsRead needed (source.new ≡ source.old) (S.left source.old) (S.left source.new) (S.faults source.old) (S.faults source.new) result }
{
    if !needed {
        return Ok(Vec::new(alloc));
    }
    read_whole(alloc, source, MOST_INPUT_BYTES)
}
