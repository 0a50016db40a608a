ghost use Rattle.std.specs.Prelude.{◌≡◌, ◌≤◌};
ghost use Rattle.plane_hull.specs.Angle.{half_of, angle_cmp};

use crate::directions::Dir;
use corr_num::cmp_products;
use std::cmp::Ordering;

/// How many half turns from (1, 0) end at the direction or before it, counting none of a whole turn.
fn half_turns(dir: &Dir) -> u8
    ensures { result ≡ half_of dir.now }
{
    match (dir.b.cmp(&0), dir.a.cmp(&0)) {
        (Ordering::Greater, _) | (Ordering::Equal, Ordering::Greater) => 0,
        _ => 1,
    }
}

/// The order by angle from (1, 0), counter-clockwise, below a full turn.
pub fn cmp_angle(x: &Dir, y: &Dir) -> Ordering
    ensures order { result ≡ angle_cmp x.now y.now }
{
    half_turns(x)
        .cmp(&half_turns(y))
        .then(cmp_products(x.b, y.a, x.a, y.b))
}
