//! The plane of the two players' payoffs: directions in the order of their angles, and the belt of sides of a polygon.
//!
//! It stands on `corr_num` for exact products and fractions and on `lp_form` for lists of multipliers. The layer above
//! uses `Dir` and `cmp_angle` to turn a direction, `SideRow` and `SideList` for the sides that it finds, and `belt` to
//! test that sides go once round a polygon's corners. Laws say what such sides are worth: where the corners lie inside,
//! what lies inside is exactly what is a mixture of them, and no corner is a mixture of the others.
#![tactic(auto)]

mod angles;
mod belts;
mod directions;
mod laws;
mod sides;

pub use angles::cmp_angle;
pub use belts::{BeltFault, belt};
pub use directions::Dir;
pub use laws::{
    a_point_has_four_sides, belts_with_their_corners_inside_are_strict, corners_are_needed,
    faults_have_one_number, points_inside_are_mixtures,
};
pub use sides::{Point, SideList, SideRow};
