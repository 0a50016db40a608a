// Laws of sides that go round corners, as functions that do nothing.
ghost use Rattle.std.specs.Prelude.{◌≡◌, ◌≢◌, ◌≤◌, ℕ, List, length, slice_get};
ghost use Rattle.plane_hull.specs.declared.sides.Point.{Point};
ghost use Rattle.plane_hull.specs.declared.sides.SideRow.{SideRow};
ghost use Rattle.plane_hull.specs.Belt.{IsBelt, StandAtCorners};
ghost use Rattle.polygon_sweep.specs.declared.corners.SweptCorner.{SweptCorner};
ghost use Rattle.polygon_sweep.specs.Round.{AreApart, GoneRound};

/// Sides that have gone round corners, of which there is one at least, stand at them, and are a belt round any points that differ where
/// the corners are apart.
pub fn what_goes_round_is_a_belt()
    ensures some { (corners : List SweptCorner) (sides : List SideRow) → GoneRound (AreApart corners) (length corners) sides
        → 1 ≤ length corners }
    ensures stand { (corners : List SweptCorner) (sides : List SideRow) → GoneRound (AreApart corners) (length corners) sides
        → StandAtCorners (length corners) sides }
    ensures belt { (corners : List SweptCorner) (sides : List SideRow) → GoneRound (AreApart corners) (length corners) sides
        → (points : List Point) → length points ≡ length corners
        → ((j k : ℕ) → AreApart corners j k → slice_get points j ≢ slice_get points k) → IsBelt points sides }
{}
