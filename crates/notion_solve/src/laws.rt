// Laws of blocks, as functions that do nothing.
ghost use Rattle.std.specs.Prelude.{◌↔◌, ℕ, ℤ, List, pos, ◌<ℤ◌};
ghost use Rattle.corr_game.specs.declared.notions.Notion.{Notion};
ghost use Rattle.corr_game.specs.declared.sides.Side.TheVariants.{One, Two};
ghost use Rattle.corr_game.specs.Game.{GameView, IsGame, scale_of};
ghost use Rattle.connected_pairs.specs.Connected.{IsPairs, IsPairsOf, PairsView};
ghost use Rattle.lp_form.specs.Program.{IsProgram, LpView};
ghost use Rattle.lp_form.specs.Solutions.{IsSolution};
ghost use Rattle.plane_hull.specs.declared.sides.SideRow.{SideRow};
ghost use Rattle.plane_hull.specs.Inside.{IsInside, PlanePoint};
ghost use Rattle.plane_hull.specs.Mixture.{IsMixture};
ghost use Rattle.plane_hull.specs.StrictPolygon.{AreFractions};
ghost use Rattle.lp_form.specs.declared.places.Place.{Place};
ghost use Rattle.bland_simplex.specs.Reachable.{NeverWide};
ghost use Rattle.plan_polytope.specs.NotionProgram.{IsProgramOf};
ghost use Rattle.report_form.specs.declared.reports.Block.{Block};
ghost use Rattle.report_form.specs.declared.reports.Block.TheVariants.{Empty, Found, TooWide};
ghost use Rattle.report_form.specs.declared.reports.Corner.{Corner};
ghost use Rattle.report_form.specs.Points.{points_of};
ghost use Rattle.report_form.specs.Ranges.{IsBlock};
ghost use Rattle.notion_solve.specs.Paid.{point_paid};
ghost use Rattle.notion_solve.specs.Right.{HasBelt, IsPaid, IsRight};
ghost use Rattle.notion_solve.specs.Shown.{IsShown};

/// Whatever a solution of a program pays lies inside the sides of a polygon that is shown of it.
pub fn what_solutions_pay_lies_inside()
    ensures { (g : GameView) (p : PairsView) (lp : LpView) (corners : List Corner) (sides : List SideRow) (total : ℤ) (x : ℕ → ℤ)
        → IsGame g → IsProgram lp → AreFractions (points_of corners) → IsShown g p lp (Found corners sides)
        → pos 0 <ℤ total → IsSolution lp total x
        → IsInside (scale_of One g) (scale_of Two g) (points_of corners) sides (point_paid g lp total x) }
{}

/// A block in its ranges that is shown of a notion's program is right, where the sides of a polygon are a belt.
pub fn shown_blocks_are_right()
    ensures { (notion : Notion) (g : GameView) (p : PairsView) (lp : LpView) (block : Block) → IsGame g → IsPairs p → IsPairsOf g p
        → IsProgramOf g p notion lp → IsBlock block → IsShown g p lp block → HasBelt block → IsRight notion g p lp block }
{}

/// What equilibrium lists pay is exactly what is a mixture of a right polygon's corners.
pub fn what_lists_pay_is_mixed_of_corners()
    ensures { (notion : Notion) (g : GameView) (p : PairsView) (lp : LpView) (corners : List Corner) (sides : List SideRow)
        → (point : PlanePoint) → IsGame g → IsRight notion g p lp (Found corners sides) → pos 0 <ℤ point.den
        → IsPaid notion g point ↔ IsMixture (points_of corners) point }
{}

/// Two right polygons of one notion have the same points inside.
pub fn right_polygons_are_one()
    ensures { (notion : Notion) (g : GameView) (p : PairsView) (lp other : LpView) (corners more : List Corner) (sides round : List SideRow)
        → IsRight notion g p lp (Found corners sides) → IsRight notion g p other (Found more round)
        → (point : PlanePoint) → pos 0 <ℤ point.den
        → IsInside (scale_of One g) (scale_of Two g) (points_of corners) sides point
        ↔ IsInside (scale_of One g) (scale_of Two g) (points_of more) round point }
{}

/// Where some polygon is right for a notion, no empty block is.
pub fn a_right_polygon_is_not_empty()
    ensures { (notion : Notion) (g : GameView) (p : PairsView) (lp other : LpView) (corners : List Corner) (sides : List SideRow)
        → (multipliers : List ℤ) → IsRight notion g p lp (Found corners sides) → IsRight notion g p other (Empty multipliers) → ⊥ }
{}

/// Where no tableau to which the method may lead is wide, no block that is too wide is right.
pub fn right_blocks_are_too_wide_by_a_tableau()
    ensures { (notion : Notion) (g : GameView) (p : PairsView) (lp : LpView) (basis : List ℕ) (place : Place)
        → NeverWide lp → IsRight notion g p lp (TooWide basis place) → ⊥ }
{}
