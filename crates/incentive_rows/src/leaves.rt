ghost use Rattle.std.specs.Prelude.{◌≡◌, ◌<◌, ◌≤◌, ◌^◌, pos, ◌-ℤ◌, length, unsigned_abs, IfSome, OnOk};
ghost use Rattle.corr_game.specs.Node.{amount_of};
ghost use Rattle.sequences.specs.Number.{count_of, last_of, side_of};
ghost use Rattle.connected_pairs.specs.Connected.{IsPairs, IsPairsOf, other};
ghost use Rattle.incentive_rows.specs.Bounds.{Grows, IsWithin};
ghost use Rattle.incentive_rows.specs.Coefficient.{IsFollowed, IsLeafTerm, IsLeft, IsPaidTerm, paid_of, row_at_move, row_left};
ghost use Rattle.incentive_rows.specs.Leaf.{IsPaid};
ghost use Rattle.incentive_rows.specs.Places.{StandIn};
ghost use Rattle.incentive_rows.specs.Term.{AreTerms, Changes};
ghost use Rattle.incentive_rows.specs.Trigger.{IsKnown};

use crate::adding::{add_at_pair, other_side};
use crate::places::{Places, row_of};
use crate::triggers::Trigger;
use connected_pairs::Pairs;
use corr_game::{Game, Node, Pay, Side};
use lp_form::Lp;
use std::alloc::AllocError as NoMemory;

/// A leaf by the sequences that lead to it, the trigger's player's first, and what that player gets there.
#[derive(Clone, Copy, Debug)]
pub struct Paid {
    pub own: u32,
    pub beside: u32,
    pub amount: i64,
}

/// Adds what the trigger's player gets at each leaf: in the row of the leaf's own sequence what leaving pays, in the
/// follow row what following does.
pub fn add_leaves(
    game: &Game,
    pairs: &Pairs,
    trigger: &Trigger,
    places: &Places,
    lp: &mut Lp,
) -> Result<(), NoMemory>
    requires whose { IsPairsOf game.now pairs.now }
    requires rules { IsPairs pairs.now }
    requires known { IsKnown pairs.now.seqs trigger.now }
    requires stand { StandIn (side_of trigger.now.side pairs.now.seqs) places.now.sets.items places.now.rows }
    requires in_rows { places.now.rows < length lp.old.rows }
    requires columns { length pairs.now.pairs ≤ lp.old.cols }
    requires before { IsWithin (2 ^ 41) lp.old }
    ensures changes { OnOk result (Changes (λ r k. AreTerms (IsLeafTerm game.now pairs.now trigger.now places.now.sets.items places.now.rows r k) (length game.now.nodes)) lp.old lp.new) }
    ensures grows { OnOk result (Grows (2 ^ 41) lp.old lp.new) }
{
    for n in 0..game.len() {
        if let Node::Leaf { pay } = game.node(n) {
            let paid = paid_at(pairs, trigger.side, n, pay);
            add_leaf(pairs, trigger, places, &paid, lp)?;
        }
    }
    Ok(())
}

fn paid_at(pairs: &Pairs, side: Side, n: u32, pay: &Pay) -> Paid
    requires rules { IsPairs pairs.now }
    requires in_own { n < length (side_of side pairs.now.seqs).nodes }
    requires in_other { n < length (side_of (other side) pairs.now.seqs).nodes }
    requires first { unsigned_abs pay.now.one ≤ 2 ^ 28 }
    requires second { unsigned_abs pay.now.two ≤ 2 ^ 28 }
    ensures leaf { result ≡ paid_of pairs.now side n (amount_of side pay.now) }
    ensures in_range { IsPaid pairs.now.seqs side result }
{
    let seqs = pairs.seqs();
    Paid {
        own: seqs.leaf(side, n),
        beside: seqs.leaf(other_side(side), n),
        amount: amount_at(side, pay),
    }
}

fn amount_at(side: Side, pay: &Pay) -> i64
    requires first { unsigned_abs pay.now.one ≤ 2 ^ 28 }
    requires second { unsigned_abs pay.now.two ≤ 2 ^ 28 }
    ensures value { result ≡ amount_of side pay.now }
    ensures small { unsigned_abs result ≤ 2 ^ 28 }
{
    match side {
        Side::One => pay.one,
        Side::Two => pay.two,
    }
}

fn add_leaf(
    pairs: &Pairs,
    trigger: &Trigger,
    places: &Places,
    paid: &Paid,
    lp: &mut Lp,
) -> Result<(), NoMemory>
    requires rules { IsPairs pairs.now }
    requires known { IsKnown pairs.now.seqs trigger.now }
    requires stand { StandIn (side_of trigger.now.side pairs.now.seqs) places.now.sets.items places.now.rows }
    requires paid { IsPaid pairs.now.seqs trigger.now.side paid.now }
    requires in_rows { places.now.rows < length lp.old.rows }
    requires columns { length pairs.now.pairs ≤ lp.old.cols }
    requires before { IsWithin (2 ^ 42) lp.old }
    ensures changes { OnOk result (Changes (IsPaidTerm pairs.now trigger.now places.now.sets.items places.now.rows paid.now) lp.old lp.new) }
    ensures grows { OnOk result (Grows (2 ^ 29) lp.old lp.new) }
{
    add_left(pairs, trigger, places, paid, lp)?;
    add_followed(pairs, trigger, places, paid, lp)?;
    Ok(())
}

/// What leaving pays stands beside the trigger's sequence. A leaf whose pair with it isn't relevant is below none of
/// the trigger's sets.
fn add_left(
    pairs: &Pairs,
    trigger: &Trigger,
    places: &Places,
    paid: &Paid,
    lp: &mut Lp,
) -> Result<(), NoMemory>
    requires rules { IsPairs pairs.now }
    requires known { IsKnown pairs.now.seqs trigger.now }
    requires stand { StandIn (side_of trigger.now.side pairs.now.seqs) places.now.sets.items places.now.rows }
    requires paid { IsPaid pairs.now.seqs trigger.now.side paid.now }
    requires in_rows { places.now.rows < length lp.old.rows }
    requires columns { length pairs.now.pairs ≤ lp.old.cols }
    requires before { IsWithin (2 ^ 43) lp.old }
    ensures changes { OnOk result (Changes (IsLeft pairs.now trigger.now places.now.sets.items places.now.rows paid.now) lp.old lp.new) }
    ensures grows { OnOk result (Grows (2 ^ 28) lp.old lp.new) }
{
    match left_row(pairs, trigger, places, paid.own) {
        None => Ok(()),
        Some(row) => {
            let pair = (trigger.seq, paid.beside);
            add_at_pair(pairs, (trigger.side, row), pair, opposite(paid.amount), lp)?;
            Ok(())
        }
    }
}

fn opposite(amount: i64) -> i64
    requires { unsigned_abs amount ≤ 2 ^ 28 }
    ensures value { result ≡ pos 0 -ℤ amount }
    ensures small { unsigned_abs result ≤ 2 ^ 28 }
{
    -amount
}

/// The value row of a sequence; with no set to leave at, the follow row has what the empty sequence pays.
fn left_row(pairs: &Pairs, trigger: &Trigger, places: &Places, own: u32) -> Option<u32>
    requires stand { StandIn (side_of trigger.now.side pairs.now.seqs) places.now.sets.items places.now.rows }
    requires known { own < count_of (side_of trigger.now.side pairs.now.seqs) }
    ensures value { result ≡ row_left trigger.now.set places.now.rows (row_at_move places.now.sets.items (last_of (side_of trigger.now.side pairs.now.seqs) own)) }
    ensures in_range { IfSome result (λ row. row ≤ places.now.rows) }
{
    match (row_of(pairs, trigger.side, places, own), trigger.set) {
        (Some(row), _) => Some(row),
        (None, None) => Some(places.rows),
        (None, Some(_)) => None,
    }
}

fn add_followed(
    pairs: &Pairs,
    trigger: &Trigger,
    places: &Places,
    paid: &Paid,
    lp: &mut Lp,
) -> Result<(), NoMemory>
    requires rules { IsPairs pairs.now }
    requires paid { IsPaid pairs.now.seqs trigger.now.side paid.now }
    requires in_rows { places.now.rows < length lp.old.rows }
    requires columns { length pairs.now.pairs ≤ lp.old.cols }
    requires before { IsWithin (2 ^ 43) lp.old }
    ensures changes { OnOk result (Changes (IsFollowed pairs.now trigger.now places.now.rows paid.now) lp.old lp.new) }
    ensures grows { OnOk result (Grows (2 ^ 28) lp.old lp.new) }
{
    if trigger.follows(pairs.seqs(), paid.own) {
        let pair = (paid.own, paid.beside);
        add_at_pair(pairs, (trigger.side, places.rows), pair, paid.amount, lp)?;
    }
    Ok(())
}
