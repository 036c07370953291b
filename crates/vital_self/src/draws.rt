//! The numbers that a seed draws.

ghost use Rattle.std.specs.Prelude.{◌≡◌, ◌+◌, ◌^◌, ◌<◌};
ghost use Rattle.vital_self.specs.Draws.{next_state, state_behind, draw};

/// What a state is multiplied by.
const MULTIPLIER: u64 = 6_364_136_223_846_793_005;

/// What is added to the product.
const INCREMENT: u64 = 1_442_695_040_888_963_407;

/// How many low bits of a state no draw gives: those of a linear congruential generator repeat soon.
const DROPPED_BITS: u32 = 33;

/// The draws of a seed, one behind another.
#[derive(Drop)]
pub(crate) struct Draws {
    pub(crate) seed: u64,
    /// How many were made.
    pub(crate) made: u64,
    /// The state behind them.
    state: u64,
    ghost is_behind: { state ≡ state_behind seed made },
}

impl Draws {
    /// The draws of a seed, of which none is made yet.
    #[tactic(auto, using(crate::proofs::Growing::no_draws))]
    pub(crate) fn new(seed: u64) -> Draws
        ensures seed { result.seed ≡ seed }
        ensures none { result.made ≡ 0 }
    {
        Draws {
            seed,
            made: 0,
            state: seed,
        }
    }

    /// The next draw below a limit.
    #[tactic(auto, using(crate::proofs::Growing::one_draw_more))]
    pub(crate) fn below(&mut self, limit: u32) -> u32
        requires some { 0 < limit }
        requires few { self.old.made < 2 ^ 32 }
        ensures number { result ≡ draw self.old.seed self.old.made limit }
        ensures seed { self.new.seed ≡ self.old.seed }
        ensures made { self.new.made ≡ self.old.made + 1 }
    {
        self.state = next_state(self.state);
        self.made += 1;
        (self.state >> DROPPED_BITS) as u32 % limit
    }
}

/// The state behind a state.
fn next_state(state: u64) -> u64
    ensures { result ≡ next_state state }
{
    state.wrapping_mul(MULTIPLIER).wrapping_add(INCREMENT)
}
