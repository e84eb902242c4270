ghost use Rattle.std.specs.Prelude.{◌≡◌, ◌<◌, ◌≤◌};
ghost use Rattle.cept_generator.specs.Generated.{state_after, answer};

/// The state from which a page is drawn.
#[derive(Drop)]
pub(crate) struct Draws {
    pub(crate) state: u32,
}

impl Draws {
    /// Draws a number below n.
    #[inline]
    #[tactic(auto, unfolding(crate::specs::Generated::state_after))]
    pub(crate) fn below(&mut self, n: u32) -> u8
        requires some { 0 < n }
        requires small { n ≤ 256 }
        ensures state { self.new.state ≡ state_after self.old.state }
        ensures answer { result ≡ answer n self.new.state }
    {
        let product = self.state as u64 * 1_664_525 + 1_013_904_223;
        self.state = (product % 0x1_0000_0000) as u32;
        ((self.state >> 16) % n) as u8
    }
}
