ghost use Rattle.std.specs.Prelude.{◌≡◌, ◌+◌, ◌<◌, ◌^◌};
ghost use Rattle.game_gen.specs.Random.{draw, next_state, state_after};

const FACTOR: u64 = 6364136223846793005;

const STEP: u64 = 1442695040888963407;

/// The random numbers of a seed, one after another.
#[derive(Clone, Copy, Debug)]
pub(crate) struct Draws {
    pub(crate) seed: u64,
    /// How many were drawn.
    pub(crate) drawn: u32,
    state: u64,
    ghost in_step: { state ≡ state_after drawn seed },
}

fn after(state: u64) -> u64
    ensures { result ≡ next_state state }
{
    state.wrapping_mul(FACTOR).wrapping_add(STEP)
}

impl Draws {
    #[tactic(auto, unfolding(crate::specs::Random::state_after))]
    pub(crate) fn new(seed: u64) -> Draws
        ensures seed { result.seed ≡ seed }
        ensures none_drawn { result.drawn ≡ 0 }
    {
        Draws {
            seed,
            drawn: 0,
            state: seed,
        }
    }

    pub(crate) fn next(&mut self) -> u64
        requires countable { self.old.drawn + 1 < 2 ^ 32 }
        ensures number { result ≡ draw self.old.seed self.old.drawn }
        ensures same_seed { self.new.seed ≡ self.old.seed }
        ensures one_more { self.new.drawn ≡ self.old.drawn + 1 }
    {
        self.state = after(self.state);
        self.drawn += 1;
        (self.state >> 33) % 10
    }
}
