ghost use Rattle.std.specs.Prelude.{◌≡◌, ◌<◌, length};
ghost use Rattle.corr_game.specs.Plan.{IsPlan, plan_of};
ghost use Rattle.corr_game.specs.Walk.{walk};
ghost use Rattle.corr_game.specs.declared.sides.Side.TheVariants.{One, Two};

use crate::games::Game;
use crate::nodes::Node;
use crate::payoffs::Pays;
use crate::plans::Plan;
use crate::sides::Side;

/// What a pair of plans pays, in scaled amounts summed over chance.
pub fn walk_pay(game: &Game, one: &Plan, two: &Plan) -> Pays
    requires plan_one { IsPlan One game.now one.now }
    requires plan_two { IsPlan Two game.now two.now }
    ensures first { result.one ≡ walk One game.now one.now two.now 0 }
    ensures second { result.two ≡ walk Two game.now one.now two.now 0 }
{
    pay_from(game, one, two, game.root())
}

fn pay_from(game: &Game, one: &Plan, two: &Plan, n: u32) -> Pays
    requires plan_one { IsPlan One game.now one.now }
    requires plan_two { IsPlan Two game.now two.now }
    requires in_range { n < length game.now.nodes }
    ensures first { result.one ≡ walk One game.now one.now two.now n }
    ensures second { result.two ≡ walk Two game.now one.now two.now n }
{
    match game.node(n) {
        Node::Leaf { pay } => Pays {
            one: i128::from(pay.one),
            two: i128::from(pay.two),
        },
        Node::Chance { kids } => {
            let mut sum = Pays { one: 0, two: 0 };
            for k in 0..kids.len() {
                let paid = pay_from(game, one, two, *kids.at(k));
                sum.one += paid.one;
                sum.two += paid.two;
            }
            sum
        }
        Node::Choice { side, set, kids } => match mover_plan(*side, one, two).at(*set) {
            None => Pays { one: 0, two: 0 },
            Some(action) => pay_from(game, one, two, *kids.at(action as usize)),
        },
    }
}

fn mover_plan<'a>(side: Side, one: &'a Plan, two: &'a Plan) -> &'a Plan
    ensures { result.now ≡ plan_of side one.now two.now }
{
    match side {
        Side::One => one,
        Side::Two => two,
    }
}
