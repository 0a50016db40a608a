// Laws of belts and polygons, as functions that do nothing.
ghost use Rattle.std.specs.Prelude.{◌≡◌, ◌↔◌, ◌<◌, ℕ, ℤ, pos, ◌<ℤ◌, List, length};
ghost use Rattle.plane_hull.specs.declared.sides.Point.{Point};
ghost use Rattle.plane_hull.specs.declared.sides.SideRow.{SideRow};
ghost use Rattle.plane_hull.specs.Belt.{AreFourAxes, IsBelt, StandAtCorners};
ghost use Rattle.plane_hull.specs.BeltFault.{IsFaultOf};
ghost use Rattle.plane_hull.specs.Inside.{IsInside, PlanePoint};
ghost use Rattle.plane_hull.specs.Mixture.{IsMixture};
ghost use Rattle.plane_hull.specs.StrictPolygon.{AreCornersInside, AreFractions, CornersNeeded, IsStrictPolygon};

/// Sides that are no belt have at most one number of their fault.
pub fn faults_have_one_number()
    ensures { (points : List Point) (sides : List SideRow) (m n : ℕ)
        → IsFaultOf points sides m → IsFaultOf points sides n → m ≡ n }
{}

/// The belt of one corner has the four axes as its sides, in order, and no other.
pub fn a_point_has_four_sides()
    ensures { (points : List Point) (sides : List SideRow)
        → length points ≡ 1 → StandAtCorners 1 sides → IsBelt points sides → AreFourAxes sides }
{}

/// Where the corners of a belt lie inside, whatever lies inside is a mixture of them, and the other way round.
pub fn points_inside_are_mixtures()
    ensures { (one two : ℤ) (points : List Point) (sides : List SideRow)
        → AreCornersInside one two points sides → (p : PlanePoint) → pos 0 <ℤ p.den
        → IsInside one two points sides p ↔ IsMixture points p }
{}

/// Where the corners of a belt lie inside, none of them is a mixture of the others.
pub fn corners_are_needed()
    ensures { (one two : ℤ) (points : List Point) (sides : List SideRow)
        → AreCornersInside one two points sides → CornersNeeded points }
{}

/// A belt is a strict polygon exactly where its corners lie inside.
pub fn belts_with_their_corners_inside_are_strict()
    ensures strict { (one two : ℤ) (points : List Point) (sides : List SideRow)
        → AreCornersInside one two points sides → IsStrictPolygon one two points sides }
    ensures back { (one two : ℤ) (points : List Point) (sides : List SideRow) → pos 0 <ℤ one → pos 0 <ℤ two → AreFractions points
        → 0 < length points → StandAtCorners (length points) sides → IsStrictPolygon one two points sides
        → AreCornersInside one two points sides }
{}
