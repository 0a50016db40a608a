// Laws of the random numbers of generated games, as functions that do nothing.
ghost use Rattle.std.specs.Prelude.{◌≡◌, ℕ, ◌+◌, ◌^◌, ◌<◌};
ghost use Rattle.game_gen.specs.Random.{draw, next_state, state_after};

/// Each draw is a digit, and each state is below the modulus; the first state behind the seed 0 is the increment, and the first
/// digit is 7.
pub fn digits_are_drawn()
    ensures digit { (seed number : ℕ) → draw seed number < 10 }
    ensures state { (state : ℕ) → next_state state < 2 ^ 64 }
    ensures increment { next_state 0 ≡ 1442695040888963407 }
    ensures first { draw 0 0 ≡ 7 }
{}

/// The state after some draws and then some more is the state after all of them, begun with the state between.
pub fn states_follow_each_other()
    ensures states { (more drawn seed : ℕ) → state_after (more + drawn) seed ≡ state_after more (state_after drawn seed) }
    ensures draws { (more drawn seed : ℕ) → draw seed (more + drawn) ≡ draw (state_after drawn seed) more }
{}

/// Seeds that differ by the modulus have the same draws.
pub fn seeds_count_up_to_the_modulus()
    ensures { (seed number : ℕ) → draw (seed + 2 ^ 64) number ≡ draw seed number }
{}

/// No two states below the modulus lead to one, so that different seeds lead to different states after any number of draws.
pub fn seeds_never_meet()
    ensures step { (a b : ℕ) → a < 2 ^ 64 → b < 2 ^ 64 → next_state a ≡ next_state b → a ≡ b }
    ensures steps { (drawn a b : ℕ) → a < 2 ^ 64 → b < 2 ^ 64 → state_after drawn a ≡ state_after drawn b → a ≡ b }
{}
