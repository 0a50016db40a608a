//! The least scale of a player.

ghost use Rattle.std.specs.Prelude.{◌≡◌, ℕ, ◌≤◌, ◌<◌, ◌^◌, length, pos, ◌≤ℤ◌, IfErr, IfOk, IfSome};
ghost use Rattle.std.specs.Int.{◌∣◌};
ghost use Rattle.game_scale.specs.Amounts.{scale_in};
ghost use Rattle.game_scale.specs.LeastMultiple.{IsLcm};
ghost use Rattle.game_scale.specs.Refusal.{IsScaleRefusal};
ghost use Rattle.game_scale.specs.Scales.{AreScales, IsLeastScale, IsScaleTooLarge};

use crate::paths::Path;
use crate::refusal::ScaleRefusal;
use corr_game::Side;
use corr_num::gcd;
use efg_reader::{RawGame, Shape};

/// The greatest scale.
const LARGEST_SCALE: u128 = 1 << 24;

/// By how much each player's payoffs are multiplied.
#[derive(Clone, Copy, Debug)]
pub struct Scales {
    pub one: i64,
    pub two: i64,
}

/// The scale of each player, or the first player whose scale is over the limit.
pub fn scales_of(game: &RawGame, paths: &[Path]) -> Result<Scales, ScaleRefusal>
    requires { length paths.now ≡ length game.now.nodes }
    ensures ok { IfOk result (λ scales. AreScales game.now.nodes paths.now (scale_in scales)) }
    ensures err { IfErr result (λ refusal. IsScaleRefusal game.now.nodes paths.now refusal) }
{
    let Some(one) = common_scale(game, paths, Side::One) else {
        return Err(ScaleRefusal::ScaleTooLarge { side: Side::One });
    };
    let Some(two) = common_scale(game, paths, Side::Two) else {
        return Err(ScaleRefusal::ScaleTooLarge { side: Side::Two });
    };
    Ok(Scales { one, two })
}

/// The least number that makes whole what a player is paid at each leaf, where it is within the limit.
fn common_scale(game: &RawGame, paths: &[Path], side: Side) -> Option<i64>
    requires { length paths.now ≡ length game.now.nodes }
    ensures least { IfSome result (λ scale. IsLeastScale side game.now.nodes paths.now scale) }
    ensures within { IfSome result (λ scale. scale ≤ℤ pos (2 ^ 24)) }
    ensures none { result ≡ None → IsScaleTooLarge side game.now.nodes paths.now }
{
    let mut scale = 1;
    for n in 0..game.len() {
        if let Shape::Leaf = game.node(n).shape {
            let den = paths[n as usize].weighted(side).den().unsigned_abs();
            scale = common_multiple(scale, den)?;
        }
    }
    Some(scale as i64)
}

/// The least common multiple of two numbers, where it is within the limit.
fn common_multiple(scale: u128, den: u128) -> Option<u128>
    requires scale_some { 1 ≤ scale }
    requires scale_within { scale ≤ 2 ^ 24 }
    requires den_some { 1 ≤ den }
    ensures within { IfSome result (λ multiple. (1 ≤ multiple) × (multiple ≤ 2 ^ 24)) }
    ensures least { IfSome result (λ multiple. IsLcm scale den multiple) }
    ensures none { result ≡ None → (k : ℕ) → 1 ≤ k → scale ∣ k → den ∣ k → 2 ^ 24 < k }
{
    if den > LARGEST_SCALE {
        return None;
    }
    let multiple = scale / gcd(scale, den) * den;
    if multiple > LARGEST_SCALE {
        return None;
    }
    Some(multiple)
}
