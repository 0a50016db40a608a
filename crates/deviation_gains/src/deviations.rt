// What leaving the mediator at a trigger pays, and what following does.
ghost use Rattle.std.specs.Prelude.{◌≡◌, ◌⊎◌, ◌↔◌, ◌+◌, ◌*◌, ◌^◌, ◌<◌, ◌≤◌, Bool, true, nat_eq, cond, ℕ, length, take};
ghost use Rattle.std.specs.Prelude.{slice_get, slice_index, slice_index_or, ℤ, pos, ◌+ℤ◌, ◌*ℤ◌, ◌≤ℤ◌, unsigned_abs, IfOk, IsTrue, All};
ghost use Rattle.exact_algebra.specs.Sums.{sum_to};
ghost use Rattle.corr_game.specs.Plan.{plan_of};
ghost use Rattle.corr_game.specs.Node.{amount_of};
ghost use Rattle.corr_num.specs.Narrow.{Narrow};
ghost use Rattle.sequences.specs.Number.{IsSide, Plays, count_of, side_of};
ghost use Rattle.connected_pairs.specs.Connected.{IsPairsOf, other};
ghost use Rattle.equilibrium.specs.Distribution.{entries_of};
ghost use Rattle.report_form.specs.Ranges.{IsPair};
ghost use Rattle.deviation_gains.specs.Planned.{AreDrawn, IsDrawn, IsPlanned};
ghost use Rattle.deviation_gains.specs.Leaving.{FollowsTo, GrowBy, IsGoneOver, IsLeft, IsPast, IsWorth, PlanTest, StandInRow};
ghost use Rattle.deviation_gains.specs.Leaving.{TellsFollowed, TellsLeft, paid_behind, paid_in_list, paid_in_pair};
ghost use Rattle.deviation_gains.specs.Reach.{reach};
ghost use Rattle.deviation_gains.specs.Triggers.{IsKnown};

use column_sums::plus_product;
use connected_pairs::Pairs;
use corr_game::{Game, Node, Pair, PairList, Pay, Plan, SetId, Side};
use corr_num::sum;
use sequences::Seqs;
use std::alloc::{AllocError as NoMemory, Global};

/// Where a player may leave the mediator: at a set, with the sequence that was recommended so far, or with no set before
/// play begins.
#[derive(Clone, Copy)]
pub struct Trigger {
    pub side: Side,
    pub set: Option<SetId>,
    pub seq: u32,
}

/// The most that leaving at the trigger pays, over the pairs whose plan plays the trigger's sequence.
pub fn best_left(
    alloc: Global,
    game: &Game,
    pairs: &Pairs,
    list: &PairList,
    trigger: &Trigger,
) -> Result<i128, NoMemory>
    requires whose { IsPairsOf game.now pairs.now }
    requires drawn { AreDrawn game.now list.now }
    requires known { IsKnown pairs.now.seqs trigger.now }
    ensures worth { IfOk result (λ best. (passes : PlanTest)
        → TellsLeft pairs.now.seqs trigger.now.side trigger.now.seq (length game.now.nodes) passes → All IsPair list.now
        → StandInRow (side_of trigger.now.side pairs.now.seqs).places
        → IsWorth (side_of trigger.now.side pairs.now.seqs).places (paid_behind (side_of trigger.now.side pairs.now.seqs).nodes
        (paid_in_list trigger.now.side game.now passes (entries_of list.now)) (length game.now.nodes)) trigger.now.set best) }
{
    let mut left = left_sums(alloc, game, pairs, list, trigger)?;
    Ok(best_from(pairs.seqs(), trigger, &mut left))
}

/// For each sequence of the trigger's player what the leaves right behind it pay against the other's plans.
fn left_sums(
    alloc: Global,
    game: &Game,
    pairs: &Pairs,
    list: &PairList,
    trigger: &Trigger,
) -> Result<Vec<i128>, NoMemory>
    requires whose { IsPairsOf game.now pairs.now }
    requires drawn { AreDrawn game.now list.now }
    requires known { IsKnown pairs.now.seqs trigger.now }
    ensures rules { IfOk result (λ _. IsSide (side_of trigger.now.side pairs.now.seqs)) }
    ensures count { IfOk result (λ left. length left.items ≡ count_of (side_of trigger.now.side pairs.now.seqs)) }
    ensures few { IfOk result (λ left. length left.items ≤ 4096) }
    ensures bound { IfOk result (λ left. reach left.items ≤ 2 ^ 118) }
    ensures sums { IfOk result (λ left. (passes : PlanTest)
        → TellsLeft pairs.now.seqs trigger.now.side trigger.now.seq (length game.now.nodes) passes
        → All IsPair list.now → (q : ℕ) → q < length left.items → slice_index_or left.items q (pos 0)
        ≡ paid_behind (side_of trigger.now.side pairs.now.seqs).nodes
        (paid_in_list trigger.now.side game.now passes (entries_of list.now)) (length game.now.nodes) q) }
{
    let count = pairs.seqs().count(trigger.side);
    let mut left: Vec<i128> = vec![in alloc; 0; count as usize]?;
    for k in 0..list.len() {
        add_pair(game, pairs, trigger, list.at(k), &mut left);
    }
    Ok(left)
}

/// Adds what a pair pays, where its plan plays the trigger's sequence.
fn add_pair(game: &Game, pairs: &Pairs, trigger: &Trigger, pair: &Pair, left: &mut Vec<i128>)
    requires whose { IsPairsOf game.now pairs.now }
    requires drawn { IsDrawn game.now pair.now }
    requires known { IsKnown pairs.now.seqs trigger.now }
    requires per_sequence { length left.old.items ≡ count_of (side_of trigger.now.side pairs.now.seqs) }
    requires room { reach left.old.items ≤ 2 ^ 120 }
    ensures count { length left.new.items ≡ length left.old.items }
    ensures bound { reach left.new.items ≤ reach left.old.items + 4096 * 2 ^ 90 }
    ensures sums { (passes : PlanTest) → TellsLeft pairs.now.seqs trigger.now.side trigger.now.seq (length game.now.nodes) passes
        → GrowBy (paid_behind (side_of trigger.now.side pairs.now.seqs).nodes
        (paid_in_pair trigger.now.side game.now passes pair.now) (length game.now.nodes)) left.old.items left.new.items }
{
    let side = trigger.side;
    if pairs.seqs().plays(side, plan_of(side, pair), trigger.seq) {
        for n in 0..game.len() {
            if let Node::Leaf { pay } = game.node(n) {
                add_leaf(game, pairs, (side, n), (pair, pay), left);
            }
        }
    }
}

/// Adds what a leaf pays, where the other's plan leads to it.
fn add_leaf(game: &Game, pairs: &Pairs, at: (Side, u32), paid: (&Pair, &Pay), left: &mut Vec<i128>)
    requires whose { IsPairsOf game.now pairs.now }
    requires drawn { IsDrawn game.now paid.0.now }
    requires leaf { at.1 < length game.now.nodes }
    requires first { unsigned_abs paid.1.now.one ≤ 2 ^ 28 }
    requires second { unsigned_abs paid.1.now.two ≤ 2 ^ 28 }
    requires per_sequence { length left.old.items ≡ count_of (side_of at.0 pairs.now.seqs) }
    requires room { reach left.old.items ≤ 2 ^ 121 }
    ensures count { length left.new.items ≡ length left.old.items }
    ensures bound { reach left.new.items ≤ reach left.old.items + 2 ^ 90 }
    ensures sums { (plays : Bool) → (plays ≡ true)
        ↔ Plays (side_of (other at.0) pairs.now.seqs) (plan_of (other at.0) paid.entry.0.now.one paid.entry.0.now.two)
        (slice_index (side_of (other at.0) pairs.now.seqs).nodes at.1)
        → GrowBy (λ q. cond (nat_eq (slice_index (side_of at.0 pairs.now.seqs).nodes at.1) q)
        (amount_of at.0 paid.entry.1.now *ℤ cond plays paid.entry.0.now.weight (pos 0)) (pos 0)) left.old.items left.new.items }
{
    let beside = other_side(at.0);
    let against = plan_of(beside, paid.0);
    if pairs
        .seqs()
        .plays(beside, against, seq_at(game, pairs, beside, at.1))
    {
        let own = seq_at(game, pairs, at.0, at.1) as usize;
        left[own] = plus_product(left[own], paid.0.weight, amount_at(at.0, paid.1));
    }
}

/// The value of the trigger's set, from the last set to the first: at each set the best action's sum goes to the set's
/// own sequence. With no set, what the empty sequence comes to.
fn best_from(seqs: &Seqs, trigger: &Trigger, left: &mut Vec<i128>) -> i128
    requires some { 0 < length left.old.items }
    requires per_sequence { length left.old.items ≤ count_of (side_of trigger.now.side seqs.now) }
    requires few { length left.old.items ≤ 4096 }
    requires room { reach left.old.items ≤ 2 ^ 120 }
    ensures bound { unsigned_abs result ≤ 2 ^ 120 }
    ensures worth { (paid : ℕ → ℤ) → StandInRow (side_of trigger.now.side seqs.now).places
        → IsLeft (side_of trigger.now.side seqs.now).places (length left.old.items) trigger.now.set
        → IsGoneOver (side_of trigger.now.side seqs.now).places paid left.old.items
        → IsWorth (side_of trigger.now.side seqs.now).places paid trigger.now.set result }
{
    match seqs.last(trigger.side, left.len() as u32 - 1) {
        None => left[0],
        Some(taken) => {
            let first = left.len() - 1 - taken.1 as usize;
            let best = greatest_behind(left, first);
            if trigger.set == Some(taken.0) {
                return best;
            }
            left.truncate(first);
            let own = seqs.own(trigger.side, taken.0) as usize;
            left[own] = sum(left[own], best);
            best_from(seqs, trigger, left)
        }
    }
}

/// The greatest number from this place on.
fn greatest_behind(left: &[i128], first: usize) -> i128
    requires some { first < length left.now }
    ensures bound { unsigned_abs result + reach (take first left.now) ≤ reach left.now }
    ensures over { (k : ℕ) → first ≤ k → k < length left.now → slice_index_or left.now k (pos 0) ≤ℤ result }
    ensures met { (k : ℕ) × (first ≤ k) × (k < length left.now) × (result ≡ slice_index_or left.now k (pos 0)) }
{
    let mut best = left[first];
    for k in first + 1..left.len() {
        best = greater(best, left[k]);
    }
    best
}

fn greater(a: i128, b: i128) -> i128
    ensures one_of { (result ≡ a) ⊎ (result ≡ b) }
    ensures over { (a ≤ℤ result) × (b ≤ℤ result) }
{
    if a < b { b } else { a }
}

/// What following past the trigger pays, over the pairs whose plan plays the trigger's sequence.
pub fn followed(game: &Game, pairs: &Pairs, list: &PairList, trigger: &Trigger) -> i128
    requires whose { IsPairsOf game.now pairs.now }
    requires drawn { AreDrawn game.now list.now }
    requires known { IsKnown pairs.now.seqs trigger.now }
    ensures value { (passes : PlanTest)
        → TellsFollowed pairs.now.seqs trigger.now.side trigger.now.set trigger.now.seq (length game.now.nodes) passes → All IsPair list.now
        → result ≡ sum_to (length game.now.nodes) (λ n. paid_in_list trigger.now.side game.now passes (entries_of list.now) n) }
{
    let mut total = 0;
    for k in 0..list.len() {
        total = follow_pair(game, pairs, trigger, list.at(k), total);
    }
    total
}

/// Adds what a pair pays past the trigger, where its plan plays the trigger's sequence.
fn follow_pair(game: &Game, pairs: &Pairs, trigger: &Trigger, pair: &Pair, before: i128) -> i128
    requires whose { IsPairsOf game.now pairs.now }
    requires drawn { IsDrawn game.now pair.now }
    requires known { IsKnown pairs.now.seqs trigger.now }
    requires room { unsigned_abs before ≤ 2 ^ 120 }
    ensures bound { unsigned_abs result ≤ unsigned_abs before + 4096 * 2 ^ 90 }
    ensures value { (passes : PlanTest)
        → TellsFollowed pairs.now.seqs trigger.now.side trigger.now.set trigger.now.seq (length game.now.nodes) passes
        → result ≡ before +ℤ sum_to (length game.now.nodes) (λ n. paid_in_pair trigger.now.side game.now passes pair.now n) }
{
    let mut total = before;
    for n in 0..game.len() {
        if let Node::Leaf { pay } = game.node(n) {
            total = follow_leaf(game, pairs, (trigger, n), (pair, pay), total);
        }
    }
    total
}

/// Adds what a leaf pays, where both plans lead to it past the trigger.
fn follow_leaf(
    game: &Game,
    pairs: &Pairs,
    at: (&Trigger, u32),
    paid: (&Pair, &Pay),
    before: i128,
) -> i128
    requires whose { IsPairsOf game.now pairs.now }
    requires drawn { IsDrawn game.now paid.0.now }
    requires known { IsKnown pairs.now.seqs at.0.now }
    requires leaf { at.1 < length game.now.nodes }
    requires first { unsigned_abs paid.1.now.one ≤ 2 ^ 28 }
    requires second { unsigned_abs paid.1.now.two ≤ 2 ^ 28 }
    requires room { unsigned_abs before ≤ 2 ^ 121 }
    ensures bound { unsigned_abs result ≤ unsigned_abs before + 2 ^ 90 }
    ensures value { (passes : Bool) → (passes ≡ true)
        ↔ FollowsTo pairs.now.seqs at.entry.0.now.side at.entry.0.now.set at.entry.0.now.seq at.entry.1
        (plan_of at.entry.0.now.side paid.entry.0.now.one paid.entry.0.now.two)
        (plan_of (other at.entry.0.now.side) paid.entry.0.now.one paid.entry.0.now.two)
        → result ≡ before +ℤ amount_of at.entry.0.now.side paid.entry.1.now *ℤ cond passes paid.entry.0.now.weight (pos 0) }
{
    let (trigger, n) = at;
    if follows(game, pairs, trigger, paid.0, n) {
        plus_product(before, paid.0.weight, amount_at(trigger.side, paid.1))
    } else {
        before
    }
}

/// Whether both plans lead to a leaf past the trigger.
fn follows(game: &Game, pairs: &Pairs, trigger: &Trigger, pair: &Pair, n: u32) -> bool
    requires whose { IsPairsOf game.now pairs.now }
    requires planned { IsPlanned game.now pair.now }
    requires known { IsKnown pairs.now.seqs trigger.now }
    requires leaf { n < length game.now.nodes }
    ensures exact { IsTrue result ↔ FollowsTo pairs.now.seqs trigger.now.side trigger.now.set trigger.now.seq n
        (plan_of trigger.now.side pair.now.one pair.now.two) (plan_of (other trigger.now.side) pair.now.one pair.now.two) }
{
    let (seqs, side) = (pairs.seqs(), trigger.side);
    let beside = other_side(side);
    let own = seq_at(game, pairs, side, n);
    is_past(seqs, trigger, own)
        && seqs.plays(side, plan_of(side, pair), trigger.seq)
        && seqs.plays(side, plan_of(side, pair), own)
        && seqs.plays(
            beside,
            plan_of(beside, pair),
            seq_at(game, pairs, beside, n),
        )
}

/// A player's sequence at a node.
fn seq_at(game: &Game, pairs: &Pairs, side: Side, n: u32) -> u32
    requires whose { IsPairsOf game.now pairs.now }
    requires node { n < length game.now.nodes }
    ensures in_range { result < count_of (side_of side pairs.now.seqs) }
    ensures number { result ≡ slice_index (side_of side pairs.now.seqs).nodes n }
{
    let _ = game;
    let count = pairs.seqs().count(side);
    let seq = pairs.seqs().leaf(side, n);
    prove!(seq < count);
    seq
}

/// Whether a sequence holds a choice at the trigger's set, if that has one.
fn is_past(seqs: &Seqs, trigger: &Trigger, seq: u32) -> bool
    requires known { IsKnown seqs.now trigger.now }
    requires in_range { seq < count_of (side_of trigger.now.side seqs.now) }
    ensures exact { IsTrue result ↔ IsPast (side_of trigger.now.side seqs.now) trigger.now.set seq }
{
    let Some(set) = trigger.set else {
        return true;
    };
    match seqs.last(trigger.side, seq) {
        None => false,
        Some(taken) => seqs.under(trigger.side, taken.0, set),
    }
}

fn amount_at(side: Side, pay: &Pay) -> i128
    requires first { unsigned_abs pay.now.one ≤ 2 ^ 28 }
    requires second { unsigned_abs pay.now.two ≤ 2 ^ 28 }
    ensures value { result ≡ amount_of side pay.now }
    ensures small { unsigned_abs result ≤ 2 ^ 28 }
{
    match side {
        Side::One => i128::from(pay.one),
        Side::Two => i128::from(pay.two),
    }
}

fn plan_of<'a>(side: Side, pair: &'a Pair) -> &'a Plan
    ensures { result.now ≡ plan_of side pair.now.one pair.now.two }
{
    match side {
        Side::One => &pair.one,
        Side::Two => &pair.two,
    }
}

fn other_side(side: Side) -> Side
    ensures { result ≡ other side }
{
    match side {
        Side::One => Side::Two,
        Side::Two => Side::One,
    }
}
