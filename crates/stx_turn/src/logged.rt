// What a value must say of its calls, so that threads can make them in turns.
ghost use Rattle.std.specs.Prelude.{◌≡◌, ℕ, ◌+◌, ◌^◌, ◌<◌, List, [], ◌∷◌, ◌++◌, length, Bool, false, IfOk, OnErr};
ghost use Rattle.stx_turn.specs.Histories.{made_by};

use std::alloc::Global;
use stx_scenario::NoMemory;

/// A value that keeps one entry for each call that it answered.
///
/// `fixed` is data that no call changes, and `entries` the list of entries. The `maker` of an entry is the number of the
/// seat that made the call. An entry `fits` a call and its answer. `legal` tells which lists of entries the fixed data
/// allow. A call is `proper` for a number after the entries that this number made. A `sure` call never wants memory.
pub trait Logged {
    type Call;

    type Answer;

    type Entry;

    type Fixed;

    ghost fixed: { Self → Self.Fixed };

    ghost entries: { Self → List Self.Entry };

    ghost maker: { Self.Entry → ℕ };

    ghost fits: { Self.Entry → Self.Call → Self.Answer → Type 0 };

    ghost legal: { Self.Fixed → List Self.Entry → Type 0 };

    ghost proper: { ℕ → List Self.Entry → Self.Call → Type 0 };

    ghost sure: { Self.Call → Bool };

    /// Makes a call of the seat `who`.
    fn apply(&mut self, alloc: Global, who: u32, call: Self::Call) -> Result<Self::Answer, NoMemory>
        requires { proper who (made_by maker who (entries self.old)) call }
        ensures fixed { fixed self.new ≡ fixed self.old }
        ensures entry { IfOk result (λ answer. (entry : Self.Entry) × (entries self.new ≡ entries self.old ++ entry ∷ []) × (maker entry ≡ who) × fits entry call answer) }
        ensures legal { legal (fixed self.old) (entries self.old) → legal (fixed self.new) (entries self.new) }
        ensures none { OnErr result ((entries self.new ≡ entries self.old) × (sure call ≡ false)) };

    ghost empty_is_legal: { (facts : Self.Fixed) → legal facts [] };

    ghost legal_is_short: { (facts : Self.Fixed) (history : List Self.Entry) → legal facts history → length history < 2 ^ 62 };
}
