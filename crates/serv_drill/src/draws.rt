//! Draws from 0 to 9, which one number begins.

ghost use Rattle.std.specs.Prelude.{◌≡◌};
ghost use Rattle.serv_drill.specs.Draws.{drawn, next_state};

/// A stream of draws.
#[derive(Clone, Copy, Debug)]
pub(crate) struct Draws {
    state: u64,
}

impl Draws {
    /// The stream that a number begins.
    pub(crate) fn new(number: u32) -> Draws
        ensures { result.state ≡ number }
    {
        Draws {
            state: u64::from(number),
        }
    }

    /// The next draw, from 0 to 9.
    #[tactic(auto, unfolding(crate::specs::Draws::next_state, crate::specs::Draws::drawn))]
    pub(crate) fn next(&mut self) -> u32
        ensures state { self.new.state ≡ next_state self.old.state }
        ensures draw { result ≡ drawn (next_state self.old.state) }
    {
        self.state = self
            .state
            .wrapping_mul(6_364_136_223_846_793_005)
            .wrapping_add(1_442_695_040_888_963_407);
        (self.state >> 33) as u32 % 10
    }
}
