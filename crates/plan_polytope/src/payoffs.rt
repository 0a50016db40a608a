ghost use Rattle.std.specs.Prelude.{◌≡◌, ◌<◌, ◌≤◌, ◌+◌, ◌*◌, ◌^◌, ℕ, ◌+ℤ◌, length, unsigned_abs, OnOk, Some};
ghost use Rattle.corr_game.specs.Node.{amount_of};
ghost use Rattle.lp_form.specs.Program.{payoff_of, payoff_row, with_payoff_row};
ghost use Rattle.sequences.specs.Number.{side_of};
ghost use Rattle.connected_pairs.specs.Connected.{IsPairs, IsPairsOf};
ghost use Rattle.plan_polytope.specs.Bounds.{IsWithin, KeepsRows};
ghost use Rattle.plan_polytope.specs.Payoffs.{ArePayoffs, column_at, in_column};

use connected_pairs::Pairs;
use corr_game::{Game, Node, Pay, Side};
use lp_form::Lp;
use std::alloc::AllocError as NoMemory;

/// Adds each leaf's amounts to both payoff rows, at the pair of its sequences.
pub fn add_payoffs(game: &Game, pairs: &Pairs, lp: &mut Lp) -> Result<(), NoMemory>
    requires whose { IsPairsOf game.now pairs.now }
    requires rules { IsPairs pairs.now }
    requires columns { length pairs.now.pairs ≤ lp.old.cols }
    requires before { IsWithin 0 lp.old }
    ensures within { OnOk result (IsWithin (2 ^ 40) lp.new) }
    ensures rows { OnOk result (KeepsRows lp.old lp.new) }
    ensures payoffs { OnOk result (ArePayoffs game.now pairs.now lp.new) }
{
    for n in 0..game.len() {
        if let Node::Leaf { pay } = game.node(n) {
            add_leaf(pairs, n, pay, lp)?;
        }
    }
    Ok(())
}

fn add_leaf(pairs: &Pairs, n: u32, pay: &Pay, lp: &mut Lp) -> Result<(), NoMemory>
    requires rules { IsPairs pairs.now }
    requires in_one { n < length pairs.now.seqs.one.nodes }
    requires in_two { n < length pairs.now.seqs.two.nodes }
    requires columns { length pairs.now.pairs ≤ lp.old.cols }
    requires first { unsigned_abs pay.now.one ≤ 2 ^ 28 }
    requires second { unsigned_abs pay.now.two ≤ 2 ^ 28 }
    requires before { IsWithin (2 ^ 40) lp.old }
    ensures within { OnOk result ((bound : ℕ) → IsWithin bound lp.old → IsWithin (bound + 2 ^ 28) lp.new) }
    ensures rows { OnOk result (KeepsRows lp.old lp.new) }
    ensures added { OnOk result ((side : Side) (k : ℕ) → payoff_of side lp.new k ≡ payoff_of side lp.old k +ℤ in_column (column_at pairs.now n) (amount_of side pay.now) k) }
{
    let seqs = pairs.seqs();
    match pairs.index_of(seqs.leaf(Side::One, n), seqs.leaf(Side::Two, n)) {
        None => Ok(()),
        Some(col) => {
            add_amount(lp, Side::One, col, pay.one)?;
            add_amount(lp, Side::Two, col, pay.two)?;
            Ok(())
        }
    }
}

fn add_amount(lp: &mut Lp, side: Side, col: u32, amount: i64) -> Result<(), NoMemory>
    requires in_columns { col < lp.old.cols }
    requires small { unsigned_abs amount ≤ 2 ^ 28 }
    requires before { unsigned_abs (payoff_of side lp.old col) ≤ 2 ^ 40 }
    ensures within { OnOk result ((k : ℕ) → unsigned_abs (payoff_of side lp.new k) ≤ unsigned_abs (payoff_of side lp.old k) + 2 ^ 28) }
    ensures added { OnOk result ((k : ℕ) → payoff_of side lp.new k ≡ payoff_of side lp.old k +ℤ in_column (Some col) amount k) }
    ensures that_row_alone { OnOk result (lp.new ≡ with_payoff_row side lp.old (payoff_row side lp.new)) }
{
    let total = raised(lp.payoff(side, col), amount);
    lp.set_payoff(side, col, total)
}

fn raised(total: i64, amount: i64) -> i64
    requires before { unsigned_abs total ≤ 2 ^ 40 }
    requires small { unsigned_abs amount ≤ 2 ^ 28 }
    ensures sum { result ≡ total +ℤ amount }
    ensures bound { unsigned_abs result ≤ unsigned_abs total + 2 ^ 28 }
{
    total + amount
}
