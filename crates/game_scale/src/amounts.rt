//! The nodes with their scaled amounts.

ghost use Rattle.std.specs.Prelude.{◌≡◌, ℤ, ◌<◌, ◌≤◌, ◌^◌, pos, ◌*ℤ◌, ◌<ℤ◌, length, map, IfErr, IfOk, IfSome, unsigned_abs};
ghost use Rattle.corr_game.specs.declared.sides.Side.{Side as Player};
ghost use Rattle.corr_num.specs.Fraction.{IsLowest};
ghost use Rattle.efg_reader.specs.RawGame.{bare_nodes};
ghost use Rattle.game_scale.specs.Amounts.{AreScaledNodes, IsOverpaid, IsPaid, IsScaledNode, scale_in};
ghost use Rattle.game_scale.specs.Paths.{IsLeaf, weighted};
ghost use Rattle.game_scale.specs.Refusal.{IsAmountRefusal};
ghost use Rattle.game_scale.specs.Scales.{IsTimes, MakesAllWhole, MakesWhole};
ghost use Rattle.game_scale.specs.Tree.{without_pay};

use crate::paths::Path;
use crate::refusal::ScaleRefusal;
use crate::scales::Scales;
use corr_game::{Node, Pay, Side};
use corr_num::{Frac, product, quotient};
use efg_reader::{RawNode, Shape};
use std::alloc::Global;

/// The greatest magnitude of an amount.
const LARGEST_AMOUNT: u128 = 1 << 28;

/// The nodes, or the first leaf at which an amount is too large.
pub fn scaled_nodes(
    alloc: Global,
    nodes: Vec<RawNode>,
    paths: &[Path],
    scales: Scales,
) -> Result<Vec<Node>, ScaleRefusal>
    requires per_node { length nodes.items ≡ length paths.now }
    requires few { length nodes.items ≤ 4096 }
    requires positive { (side : Player) → pos 0 <ℤ (scale_in scales side) }
    requires whole { (side : Player) → MakesAllWhole side nodes.items paths.now (length nodes.items) (scale_in scales side) }
    ensures tree { IfOk result (λ scaled. map without_pay scaled.items ≡ bare_nodes nodes.items) }
    ensures each { IfOk result (λ scaled. AreScaledNodes (scale_in scales) nodes.items paths.now scaled.items) }
    ensures err { IfErr result (λ refusal. IsAmountRefusal (scale_in scales) nodes.items paths.now refusal) }
{
    let mut scaled = Vec::new(alloc);
    for node in nodes {
        let n = scaled.len();
        let Some(node) = scaled_node(node.shape, &paths[n], scales) else {
            return Err(ScaleRefusal::AmountTooLarge { node: n as u32 });
        };
        scaled.push(node)?;
    }
    Ok(scaled)
}

/// The node, where its amounts are within the limit.
fn scaled_node(shape: Shape, path: &Path, scales: Scales) -> Option<Node>
    requires positive { (side : Player) → pos 0 <ℤ (scale_in scales side) }
    requires whole { IsLeaf shape → (side : Player) → MakesWhole (scale_in scales side) (weighted side path.now) }
    ensures some { IfSome result (λ node. IsScaledNode (scale_in scales) path.now shape node) }
    ensures none { result ≡ None → IsLeaf shape × IsOverpaid (scale_in scales) path.now }
{
    match shape {
        Shape::Leaf => Some(Node::Leaf {
            pay: pay(path, scales)?,
        }),
        Shape::Chance { kids, probs: _ } => Some(Node::Chance { kids }),
        Shape::Choice { side, set, kids } => Some(Node::Choice { side, set, kids }),
    }
}

/// The amounts of a leaf, where they are within the limit.
fn pay(path: &Path, scales: Scales) -> Option<Pay>
    requires positive { (side : Player) → pos 0 <ℤ (scale_in scales side) }
    requires whole { (side : Player) → MakesWhole (scale_in scales side) (weighted side path.now) }
    ensures some { IfSome result (λ pay. IsPaid (scale_in scales) path.now pay) }
    ensures none { result ≡ None → IsOverpaid (scale_in scales) path.now }
{
    let one = amount(&path.weighted(Side::One), scales.one)?;
    let two = amount(&path.weighted(Side::Two), scales.two)?;
    Some(Pay { one, two })
}

/// A weighted payoff times the scale, where it is within the limit.
fn amount(weighted: &Frac, scale: i64) -> Option<i64>
    requires positive { pos 0 <ℤ scale }
    requires whole { MakesWhole scale weighted.now }
    ensures some { IfSome result (λ amount. IsTimes scale weighted.now amount × (unsigned_abs amount ≤ 2 ^ 28)) }
    ensures none { result ≡ None → (amount : ℤ) × IsTimes scale weighted.now amount × (2 ^ 28 < unsigned_abs amount) }
{
    let part = part_of(scale, weighted);
    if weighted.num().unsigned_abs() > LARGEST_AMOUNT {
        return None;
    }
    let amount = product(weighted.num(), part);
    if amount.unsigned_abs() > LARGEST_AMOUNT {
        return None;
    }
    Some(amount as i64)
}

/// The scale divided by the denominator, which leaves nothing over.
fn part_of(scale: i64, weighted: &Frac) -> i128
    requires positive { pos 0 <ℤ scale }
    requires whole { MakesWhole scale weighted.now }
    ensures exact { result *ℤ weighted.now.den ≡ scale }
    ensures bound { unsigned_abs result ≤ 2 ^ 63 }
    ensures lowest { IsLowest weighted.now }
{
    quotient(i128::from(scale), weighted.den())
}
