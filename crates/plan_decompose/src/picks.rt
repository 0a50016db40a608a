ghost use Rattle.std.specs.Prelude.{◌≡◌, length, IfOk};
ghost use Rattle.corr_game.specs.Plan.{IsPlan};
ghost use Rattle.corr_game.specs.declared.sides.Side.TheVariants.{One, Two};
ghost use Rattle.connected_pairs.specs.Connected.{IsPairs, IsPairsOf, are_connected};
ghost use Rattle.plan_decompose.specs.Reduced.{IsReduced};
ghost use Rattle.plan_decompose.specs.Solution.{ArePositive, IsSolution, value_of};

use crate::walks::{SideWalk, Walk};
use connected_pairs::Pairs;
use corr_game::{Game, Plan};
use std::alloc::{AllocError as NoMemory, Global};

/// Two reduced plans that play relevant pairs of positive value, for values that meet the correlation rows.
pub fn pick(
    alloc: Global,
    game: &Game,
    pairs: &Pairs,
    values: &[i128],
) -> Result<(Plan, Plan), NoMemory>
    requires whose { IsPairsOf game.now pairs.now }
    requires rules { IsPairs pairs.now }
    requires per_pair { length values.now ≡ length pairs.now.pairs }
    requires solution { IsSolution pairs.now values.now }
    ensures plan_one { IfOk result (λ plans. IsPlan One game.now plans.0) }
    ensures plan_two { IfOk result (λ plans. IsPlan Two game.now plans.1) }
    ensures reduced_one { IfOk result (λ plans. IsReduced pairs.now.seqs.one plans.0) }
    ensures reduced_two { IfOk result (λ plans. IsReduced pairs.now.seqs.two plans.1) }
    ensures positive { IfOk result
        (λ plans. ArePositive pairs.now.seqs.one pairs.now.seqs.two (λ i k. are_connected pairs.now i k) (λ x y. value_of pairs.now values.now One x y) plans.0 plans.1) }
{
    let mut walk = Walk::start(alloc, game, pairs)?;
    while let Some(at) = walk.next(game, pairs) {
        walk.settle(game, pairs, values, at);
    }
    let Walk { one, two } = walk;
    Ok((plan_of(one), plan_of(two)))
}

fn plan_of(walk: SideWalk) -> Plan
    ensures { result ≡ walk.actions.items }
{
    let SideWalk { actions, beside: _ } = walk;
    Plan::from_list(actions)
}
