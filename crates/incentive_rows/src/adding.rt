ghost use Rattle.std.specs.Prelude.{◌≡◌, ℕ, ◌<◌, ◌≤◌, ◌+◌, ◌^◌, pos, negsuc, ◌+ℤ◌, length, unsigned_abs, IfSome, OnOk};
ghost use Rattle.sequences.specs.Number.{count_of, side_of};
ghost use Rattle.connected_pairs.specs.Connected.{IsPairs, other};
ghost use Rattle.incentive_rows.specs.Bounds.{Grows, IsWithin};
ghost use Rattle.incentive_rows.specs.Coefficient.{IsAt, IsAtPair, pair_column};
ghost use Rattle.incentive_rows.specs.Term.{Changes};

use connected_pairs::Pairs;
use corr_game::Side;
use lp_form::Lp;
use std::alloc::AllocError as NoMemory;

/// Adds to the coefficient at this place.
pub fn add(lp: &mut Lp, row: u32, col: u32, value: i64) -> Result<(), NoMemory>
    requires in_rows { row < length lp.old.rows }
    requires in_columns { col < lp.old.cols }
    requires room { IsWithin (2 ^ 43) lp.old }
    requires small { unsigned_abs value ≤ 2 ^ 28 }
    ensures changes { OnOk result (Changes (IsAt row col value) lp.old lp.new) }
    ensures grows { OnOk result ((by : ℕ) → unsigned_abs value ≤ by → Grows by lp.old lp.new) }
{
    let total = raised(lp.coef(row, col), value);
    lp.set(row, col, total)?;
    Ok(())
}

/// Adds 1.
pub fn add_1(lp: &mut Lp, row: u32, col: u32) -> Result<(), NoMemory>
    requires in_rows { row < length lp.old.rows }
    requires in_columns { col < lp.old.cols }
    requires room { IsWithin (2 ^ 43) lp.old }
    ensures changes { OnOk result (Changes (IsAt row col (pos 1)) lp.old lp.new) }
    ensures grows { OnOk result (Grows 1 lp.old lp.new) }
{
    add(lp, row, col, 1)?;
    Ok(())
}

/// Takes 1 away.
pub fn take_1(lp: &mut Lp, row: u32, col: u32) -> Result<(), NoMemory>
    requires in_rows { row < length lp.old.rows }
    requires in_columns { col < lp.old.cols }
    requires room { IsWithin (2 ^ 43) lp.old }
    ensures changes { OnOk result (Changes (IsAt row col (negsuc 0)) lp.old lp.new) }
    ensures grows { OnOk result (Grows 1 lp.old lp.new) }
{
    add(lp, row, col, -1)?;
    Ok(())
}

fn raised(total: i64, value: i64) -> i64
    requires before { unsigned_abs total ≤ 2 ^ 43 }
    requires small { unsigned_abs value ≤ 2 ^ 28 }
    ensures sum { result ≡ total +ℤ value }
    ensures bound { unsigned_abs result ≤ unsigned_abs total + unsigned_abs value }
{
    total + value
}

/// Adds to a row at a pair of sequences, the player's own first. Only a relevant pair has a column.
pub fn add_at_pair(
    pairs: &Pairs,
    at: (Side, u32),
    pair: (u32, u32),
    value: i64,
    lp: &mut Lp,
) -> Result<(), NoMemory>
    requires rules { IsPairs pairs.now }
    requires in_rows { at.1 < length lp.old.rows }
    requires columns { length pairs.now.pairs ≤ lp.old.cols }
    requires own_in { pair.0 < count_of (side_of at.0 pairs.now.seqs) }
    requires beside_in { pair.1 < count_of (side_of (other at.0) pairs.now.seqs) }
    requires room { IsWithin (2 ^ 43) lp.old }
    requires small { unsigned_abs value ≤ 2 ^ 28 }
    ensures changes { OnOk result (Changes (IsAtPair pairs.now at.0 at.1 pair.0 pair.1 value) lp.old lp.new) }
    ensures grows { OnOk result (Grows (2 ^ 28) lp.old lp.new) }
{
    match column_of(pairs, at.0, pair.0, pair.1) {
        None => Ok(()),
        Some(col) => {
            add(lp, at.1, col, value)?;
            Ok(())
        }
    }
}

fn column_of(pairs: &Pairs, side: Side, own: u32, beside: u32) -> Option<u32>
    requires own_in { own < count_of (side_of side pairs.now.seqs) }
    requires beside_in { beside < count_of (side_of (other side) pairs.now.seqs) }
    requires rules { IsPairs pairs.now }
    ensures value { result ≡ pair_column pairs.now side own beside }
    ensures in_range { IfSome result (λ col. col < length pairs.now.pairs) }
{
    match side {
        Side::One => pairs.index_of(own, beside),
        Side::Two => pairs.index_of(beside, own),
    }
}

pub fn other_side(side: Side) -> Side
    ensures { result ≡ other side }
{
    match side {
        Side::One => Side::Two,
        Side::Two => Side::One,
    }
}
