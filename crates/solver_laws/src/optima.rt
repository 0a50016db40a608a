// Laws of the greatest payoffs in a direction, and of payoffs along directions.
ghost use Rattle.std.specs.Prelude.{◌≡◌, ℕ, ◌+◌, length, ℤ, pos, ◌*ℤ◌, ◌<ℤ◌, neg_ℤ};
ghost use Rattle.corr_game.specs.declared.sides.Side.TheVariants.{One, Two};
ghost use Rattle.lp_form.specs.Program.{LpView};
ghost use Rattle.lp_form.specs.Solutions.{paid};
ghost use Rattle.plane_hull.specs.declared.directions.Dir.{Dir};
ghost use Rattle.plane_hull.specs.Belt.{IsRight};
ghost use Rattle.int_tableau.specs.Content.{Content};
ghost use Rattle.bland_simplex.specs.Greatest.{IsGreatest, paid_along, paid_left};
ghost use Rattle.bland_simplex.specs.Improving.{reduced, reduced_left};

/// Two tableaus at which a direction's payoff is greatest pay the same along it, and along its left turn, over their denominators.
pub fn greatest_payoffs_are_one()
    ensures along { (lp : LpView) (s t : Content) (dir : Dir) → pos 0 <ℤ s.denom → pos 0 <ℤ t.denom → IsGreatest lp s dir
        → IsGreatest lp t dir → s.denom *ℤ reduced t (length lp.rows) dir (lp.cols + length lp.rows)
        ≡ t.denom *ℤ reduced s (length lp.rows) dir (lp.cols + length lp.rows) }
    ensures left { (lp : LpView) (s t : Content) (dir : Dir) → pos 0 <ℤ s.denom → pos 0 <ℤ t.denom → IsGreatest lp s dir
        → IsGreatest lp t dir → s.denom *ℤ reduced_left t (length lp.rows) dir (lp.cols + length lp.rows)
        ≡ t.denom *ℤ reduced_left s (length lp.rows) dir (lp.cols + length lp.rows) }
{}

/// Along (1, 0) numbers pay what the first player gets, and along its left turn what the second player gets.
pub fn the_right_pays_the_first_player()
    ensures along { (lp : LpView) (dir : Dir) (x : ℕ → ℤ) → IsRight dir → paid_along lp dir x ≡ paid lp One x }
    ensures left { (lp : LpView) (dir : Dir) (x : ℕ → ℤ) → IsRight dir → paid_left lp dir x ≡ paid lp Two x }
{}

/// What numbers pay along a direction's left turn they pay along the direction turned left, and along two such turns the opposite of
/// what they pay along the direction.
pub fn left_turns_are_directions()
    ensures one { (lp : LpView) (dir next : Dir) (x : ℕ → ℤ) → next.a ≡ neg_ℤ dir.b → next.b ≡ dir.a
        → paid_left lp dir x ≡ paid_along lp next x }
    ensures two { (lp : LpView) (dir next : Dir) (x : ℕ → ℤ) → next.a ≡ neg_ℤ dir.b → next.b ≡ dir.a
        → paid_left lp next x ≡ neg_ℤ (paid_along lp dir x) }
{}
