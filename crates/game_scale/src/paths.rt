//! The probability of the path to each node, and the sums of the payoffs on it.

ghost use Rattle.std.specs.Prelude.{◌≡◌, ◌↔◌, ◌<◌, length, slice_get, Some, All, IfErr, IfOk, IfSome, IsTrue};
ghost use Rattle.efg_reader.specs.RawGame.{IsLimited, IsProbability, HasProbabilities, bare_node};
ghost use Rattle.corr_game.specs.Node.{kids_of};
ghost use Rattle.corr_num.specs.Fraction.{IsLowest, IsReduced};
ghost use Rattle.game_scale.specs.Paths.{ArePaths, IsPathView, IsWithin, LeadsWith, PathView, certain, weighted};
ghost use Rattle.game_scale.specs.Refusal.{IsPathRefusal};
ghost use Rattle.game_scale.specs.Ways.{ArePassed, IsAlong, IsLed};

use crate::refusal::ScaleRefusal;
use crate::ways::Way;
use corr_game::{NodeList, Side};
use corr_num::Frac;
use efg_reader::{FracList, RawGame, RawNode, Shape};
use std::alloc::Global;
use std::marker::Model;

/// The greatest denominator of a path's probability.
const FINEST_CHANCE: i128 = 1 << 40;

/// The greatest denominator of a sum of payoffs.
const FINEST_PAYOFF: i128 = 1 << 24;

/// The greatest magnitude of a sum's numerator.
const LARGEST_PAYOFF: u128 = 1 << 40;

/// The probability of the path to a node, and each player's payoffs at all of its nodes.
#[derive(Debug, Drop)]
pub struct Path {
    chance: Frac,
    one: Frac,
    two: Frac,
}

impl Model for Path {
    ghost use Rattle.game_scale.specs.Paths.{PathView, IsPathView};

    ghost Value = { PathView };

    ghost view = { λ p. record { chance = p.chance; one = p.one; two = p.two } };

    ghost invariant = { λ p. IsPathView record { chance = p.chance; one = p.one; two = p.two } };
}

impl Path {
    /// The path to a node at the end of this way, where its numbers are within the limits.
    fn to(way: &Way, node: &RawNode) -> Option<Path>
        requires one { IsLimited node.now.one }
        requires two { IsLimited node.now.two }
        ensures some { IfSome result (λ path. IsAlong way.now node.now path × IsWithin path) }
        ensures none { result ≡ None → (path : PathView) × IsAlong way.now node.now path × (IsWithin path → ⊥) }
    {
        let one = way.one.plus(&node.one);
        let two = way.two.plus(&node.two);
        if !is_within(&way.chance, &one, &two) {
            return None;
        }
        Some(Path {
            chance: way.chance,
            one,
            two,
        })
    }

    /// The way to a kid to which chance leads with this probability.
    fn by_chance(&self, prob: &Frac) -> Way
        requires { IsProbability prob.now }
        ensures { IsLed self.now prob.now result }
    {
        // Asked for what it ensures: that the denominator is above 0.
        let _den = prob.den();
        Way {
            chance: self.chance.times(prob),
            one: self.one,
            two: self.two,
        }
    }

    /// The way to a kid that a player chooses.
    fn by_choice(&self) -> Way
        ensures { IsLed self.now certain result }
    {
        Way {
            chance: self.chance,
            one: self.one,
            two: self.two,
        }
    }

    /// What the path pays a player, weighed by its probability.
    pub fn weighted(&self, side: Side) -> Frac
        ensures number { IsReduced result (weighted side self.now) }
        ensures rules { IsPathView self.now }
    {
        match side {
            Side::One => self.chance.times(&self.one),
            Side::Two => self.chance.times(&self.two),
        }
    }
}

/// The path to each node, in file order, or the first node whose path is too fine.
pub fn paths_of(alloc: Global, game: &RawGame) -> Result<Vec<Path>, ScaleRefusal>
    ensures ok { IfOk result (λ paths. ArePaths game.now paths.items) }
    ensures err { IfErr result (λ refusal. IsPathRefusal game.now refusal) }
{
    let mut ways = vec![in alloc; Way::to_root(); game.len() as usize]?;
    let mut paths = Vec::new(alloc);
    for n in 0..game.len() {
        let node = game.node(n);
        let Some(path) = Path::to(&ways[n as usize], node) else {
            return Err(ScaleRefusal::PathTooFine { node: n });
        };
        pass_on(&mut ways, &node.shape, &path);
        paths.push(path)?;
    }
    Ok(paths)
}

/// Whether the numbers of a path are within the limits.
fn is_within(chance: &Frac, one: &Frac, two: &Frac) -> bool
    ensures limits { IsTrue result ↔ IsWithin (record { chance = chance.now; one = one.now; two = two.now }) }
    ensures lowest { IsLowest chance.now }
{
    chance.den() <= FINEST_CHANCE && is_limited(one) && is_limited(two)
}

/// Whether a sum of payoffs is within the limits.
fn is_limited(sum: &Frac) -> bool
    ensures { IsTrue result ↔ IsLimited sum.now }
{
    sum.num().unsigned_abs() <= LARGEST_PAYOFF && sum.den() <= FINEST_PAYOFF
}

/// Leads from a node to each of its kids.
fn pass_on(ways: &mut Vec<Way>, shape: &Shape, path: &Path)
    requires within { All (λ kid. kid < length ways.old.items) (kids_of (bare_node shape.now)) }
    requires probabilities { HasProbabilities shape.now }
    ensures count { length ways.new.items ≡ length ways.old.items }
    ensures each { let kids = kids_of (bare_node shape.now) in ArePassed (LeadsWith shape.now) kids (length kids) path.now ways.old.items ways.new.items }
{
    match shape {
        Shape::Leaf => {}
        Shape::Chance { kids, probs } => pass_by_chance(ways, kids, probs, path),
        Shape::Choice { kids, .. } => pass_to_each(ways, kids, path),
    }
}

/// Leads to each kid of a chance node.
fn pass_by_chance(ways: &mut Vec<Way>, kids: &NodeList, probs: &FracList, path: &Path)
    requires within { All (λ kid. kid < length ways.old.items) kids.now }
    requires per_kid { length probs.now ≡ length kids.now }
    requires probabilities { All IsProbability probs.now }
    ensures count { length ways.new.items ≡ length ways.old.items }
    ensures each { ArePassed (λ k prob. slice_get probs.now k ≡ Some prob) kids.now (length kids.now) path.now ways.old.items ways.new.items }
{
    for k in 0..kids.len() {
        ways[*kids.at(k) as usize] = path.by_chance(probs.at(k));
    }
}

/// Leads to each kid of a choice node.
fn pass_to_each(ways: &mut Vec<Way>, kids: &NodeList, path: &Path)
    requires { All (λ kid. kid < length ways.old.items) kids.now }
    ensures count { length ways.new.items ≡ length ways.old.items }
    ensures each { ArePassed (λ k prob. prob ≡ certain) kids.now (length kids.now) path.now ways.old.items ways.new.items }
{
    for k in 0..kids.len() {
        ways[*kids.at(k) as usize] = path.by_choice();
    }
}
