ghost use Rattle.std.specs.Prelude.{◌≡◌, ◌<◌, ◌≤◌, ◌*◌, ◌+◌, ◌++◌, ◌∷◌, [], ℕ, Bool, IfOk, IfSome, IsSome, IsTrue, ◌↔◌, length, slice_get, Some};
ghost use Rattle.corr_game.specs.declared.sides.Side.TheVariants.{One, Two};
ghost use Rattle.sequences.specs.Number.{IsSeqsOf, count_of, last_of, side_of};
ghost use Rattle.connected_pairs.specs.Connected.{IsListed, IsPairsOf, IsPairs, IsPrefix, IsTouched, are_connected, index_of, is_relevant, other, touches};

use crate::table::connected_sets;
use corr_game::{Game, SetId, Side};
use sequences::Seqs;
use std::alloc::{AllocError as NoMemory, Global};
use std::marker::Model;

/// The relevant pairs of the sequences of a game.
#[derive(Debug, Drop)]
pub struct Pairs {
    seqs: Seqs,
    width: u32,
    columns: u32,
    table: Vec<bool>,
    listed: Listed,
}

/// Pairs in order, and the index of each pair of sequences among them.
#[derive(Debug, Drop)]
struct Listed {
    pairs: Vec<(u32, u32)>,
    places: Vec<Option<u32>>,
}

impl Model for Pairs {
    ghost use Rattle.std.specs.Prelude.{◌≡◌, length};
    ghost use Rattle.sequences.specs.Number.{count_of};
    ghost use Rattle.connected_pairs.specs.Connected.{PairsView, IsPairs};

    ghost Value = { PairsView };

    ghost view = { λ a. record { seqs = a.seqs; table = a.table.items; pairs = a.listed.pairs.items; places = a.listed.places.items } };

    ghost invariant = { λ a.
        IsPairs record { seqs = a.seqs; table = a.table.items; pairs = a.listed.pairs.items; places = a.listed.places.items }
        × (a.width ≡ length a.seqs.two.places)
        × (a.columns ≡ count_of a.seqs.two) };
}

impl Pairs {
    /// The relevant pairs of a game with these sequences.
    pub fn of(alloc: Global, game: &Game, seqs: Seqs) -> Result<Pairs, NoMemory>
        requires { IsSeqsOf game.now seqs }
        ensures { IfOk result (λ pairs. IsPairsOf game.now pairs) }
    {
        let width = game.sets(Side::Two);
        let columns = seqs.count(Side::Two);
        let table = connected_sets(alloc, game)?;
        let listed = relevant_pairs(alloc, &seqs, &table, width)?;
        Ok(Pairs {
            seqs,
            width,
            columns,
            table,
            listed,
        })
    }

    pub fn seqs(&self) -> &Seqs
        ensures { result.now ≡ self.now.seqs }
    {
        &self.seqs
    }

    /// The number of relevant pairs.
    pub fn len(&self) -> u32
        ensures count { result ≡ length self.now.pairs }
        ensures rules { IsPairs self.now }
    {
        self.listed.pairs.len() as u32
    }

    /// A relevant pair as the numbers of its sequences, player 1's first.
    pub fn pair(&self, k: u32) -> (u32, u32)
        requires { k < length self.now.pairs }
        ensures item { slice_get self.now.pairs k ≡ Some result }
        ensures rules { IsPairs self.now }
    {
        self.listed.pairs[k as usize]
    }

    /// Whether a set of player 1 is connected to one of player 2.
    pub fn connected(&self, one: SetId, two: SetId) -> bool
        requires one_in { one.0 < length self.now.seqs.one.places }
        requires two_in { two.0 < length self.now.seqs.two.places }
        ensures { result ≡ are_connected self.now one.0 two.0 }
    {
        self.table[one.0 as usize * self.width as usize + two.0 as usize]
    }

    /// The index of a pair of sequences among the relevant ones, or none where it isn't relevant.
    pub fn index_of(&self, one: u32, two: u32) -> Option<u32>
        requires one_in { one < count_of self.now.seqs.one }
        requires two_in { two < count_of self.now.seqs.two }
        ensures value { result ≡ index_of self.now one two }
        ensures rules { IsPairs self.now }
    {
        self.listed.places[one as usize * self.columns as usize + two as usize]
    }

    /// Whether a pair of sequences is relevant.
    pub fn relevant(&self, one: u32, two: u32) -> bool
        requires one_in { one < count_of self.now.seqs.one }
        requires two_in { two < count_of self.now.seqs.two }
        ensures { IsTrue result ↔ IsSome (index_of self.now one two) }
    {
        self.index_of(one, two).is_some()
    }

    /// The longest prefix of a player's sequence that is empty or whose last set is connected to this set of the
    /// other player.
    pub fn longest_relevant_prefix(&self, side: Side, seq: u32, set: SetId) -> u32
        requires seq_in { seq < count_of (side_of side self.now.seqs) }
        requires set_in { set.0 < length (side_of (other side) self.now.seqs).places }
        ensures prefix { IsPrefix (side_of side self.now.seqs) result seq }
        ensures relevant { IsTouched self.now side set.0 (last_of (side_of side self.now.seqs) result) }
        ensures longest { (part : ℕ) → IsPrefix (side_of side self.now.seqs) part seq → IsTouched self.now side set.0 (last_of (side_of side self.now.seqs) part)
            → IsPrefix (side_of side self.now.seqs) part result }
    {
        let Some(taken) = self.seqs.last(side, seq) else {
            return seq;
        };
        if self.touches(side, taken.0, set) {
            seq
        } else {
            self.longest_relevant_prefix(side, self.seqs.own(side, taken.0), set)
        }
    }

    /// Whether a set of this player is connected to one of the other.
    pub fn touches(&self, side: Side, own: SetId, set: SetId) -> bool
        requires own_in { own.0 < length (side_of side self.now.seqs).places }
        requires set_in { set.0 < length (side_of (other side) self.now.seqs).places }
        ensures { result ≡ touches self.now side own.0 set.0 }
    {
        match side {
            Side::One => self.connected(own, set),
            Side::Two => self.connected(set, own),
        }
    }
}

fn relevant_pairs(
    alloc: Global,
    seqs: &Seqs,
    table: &[bool],
    width: u32,
) -> Result<Listed, NoMemory>
    requires all_sets { length table.now ≡ length seqs.now.one.places * length seqs.now.two.places }
    requires wide { width ≡ length seqs.now.two.places }
    ensures { IfOk result
        (λ listed. IsListed seqs.now table.now (count_of seqs.now.one * count_of seqs.now.two) listed.pairs.items listed.places.items) }
{
    let mut listed = Listed {
        pairs: Vec::new(alloc),
        places: Vec::new(alloc),
    };
    for one in 0..seqs.count(Side::One) {
        add_row(seqs, table, width, one, &mut listed)?;
    }
    Ok(listed)
}

/// Goes over the pairs of one sequence of player 1.
fn add_row(
    seqs: &Seqs,
    table: &[bool],
    width: u32,
    one: u32,
    listed: &mut Listed,
) -> Result<(), NoMemory>
    requires all_sets { length table.now ≡ length seqs.now.one.places * length seqs.now.two.places }
    requires wide { width ≡ length seqs.now.two.places }
    requires in_range { one < count_of seqs.now.one }
    requires few { count_of seqs.now.one ≤ 4096 }
    requires before { IsListed seqs.now table.now (one * count_of seqs.now.two) listed.old.pairs.items listed.old.places.items }
    ensures { IfOk result
        (λ _. IsListed seqs.now table.now ((one + 1) * count_of seqs.now.two) listed.new.pairs.items listed.new.places.items) }
{
    for two in 0..seqs.count(Side::Two) {
        let mut place = None;
        if relevant(seqs, table, width, one, two) {
            place = Some(listed.pairs.len() as u32);
            listed.pairs.push((one, two))?;
        }
        listed.places.push(place)?;
    }
    Ok(())
}

/// Whether one of two sequences is empty or their last sets are connected.
fn relevant(seqs: &Seqs, table: &[bool], width: u32, one: u32, two: u32) -> bool
    requires all_sets { length table.now ≡ length seqs.now.one.places * length seqs.now.two.places }
    requires wide { width ≡ length seqs.now.two.places }
    requires one_in { one < count_of seqs.now.one }
    requires two_in { two < count_of seqs.now.two }
    ensures { result ≡ is_relevant seqs.now table.now one two }
{
    match (seqs.last(Side::One, one), seqs.last(Side::Two, two)) {
        (Some(a), Some(b)) => table[a.0.0 as usize * width as usize + b.0.0 as usize],
        _ => true,
    }
}
