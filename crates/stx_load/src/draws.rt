// The draws of the generator.
ghost use Rattle.std.specs.Prelude.{◌≡◌, ◌<◌};
ghost use Rattle.stx_load.specs.Draws.{next_state, draw};

/// A linear congruential generator of 64 bits; what it gives is made of the upper 31.
#[derive(Drop)]
pub(crate) struct Draws {
    pub(crate) state: u64,
}

impl Draws {
    /// A draw of n: a number below n.
    #[tactic(auto, unfolding(crate::specs::Draws::draw))]
    pub(crate) fn draw(&mut self, n: u32) -> u32
        requires { 0 < n }
        ensures number { result ≡ draw self.old.state n }
        ensures state { self.new.state ≡ next_state self.old.state }
        ensures below { result < n }
    {
        self.state = self
            .state
            .wrapping_mul(6_364_136_223_846_793_005)
            .wrapping_add(1_442_695_040_888_963_407);
        ((self.state >> 33) % u64::from(n)) as u32
    }
}
