//! The rules at the nodes of a file, one line after the other.

ghost use Rattle.std.specs.Prelude.{◌≡◌, ◌+◌, ◌≤◌, ◌<◌, ◌^◌, Some, IsTrue, IfOk, IfSome, OnOk, nat_eq, option_map, IfErr, None, ℕ};
ghost use Rattle.std.specs.Prelude.{length, vec_len, map, slice_get, All, List, if◌then◌else◌, ◌++◌, ◌∷◌, []};
ghost use Rattle.std.specs.List.{IsDistinct, position_or_len};
ghost use Rattle.indexmap.specs.IndexMap.{get, index_map_len, keys};
ghost use Rattle.efg_reader.specs.declared.first_lists.FirstList.{FirstList};
ghost use Rattle.efg_lines.specs.declared.refusal.FileRefusal.TheVariants.{MissingNode};
ghost use Rattle.efg_reader.specs.Event.{is_fit, HasChances, IsDraw};
ghost use Rattle.number_words.specs.Number.{fraction_of, IsPart};
ghost use Rattle.efg_reader.specs.RawGame.{IsProbability};
ghost use Rattle.corr_game.specs.declared.sides.Side.TheVariants.{One, Two};
ghost use Rattle.efg_reader.specs.Turn.{acts_in, IsTurnOf};
ghost use Rattle.efg_reader.specs.Above.{AreShallow};
ghost use Rattle.efg_reader.specs.declared.events.Event.TheVariants.{Chance, Choice};
ghost use Rattle.efg_reader.specs.Assembly.{shape_with};
ghost use Rattle.efg_reader.specs.FileGame.{IsGameOf};
ghost use Rattle.efg_reader.specs.FirstRefusal.{file_refusal, next_line, turn_rules, IsRefusalOf};
ghost use Rattle.efg_reader.specs.Entry.{mover_of};
ghost use Rattle.efg_reader.specs.Lists.{AreFirstOutcomes, entry_in, list_entry, listed_in, with_given};
ghost use Rattle.efg_reader.specs.Outline.{above, is_whole, places};
ghost use Rattle.efg_reader.specs.Places.{awaited};
ghost use Rattle.efg_reader.specs.Rules.{action_rules, chance_rules, first_of, list_chance_rules, named_rules, place_rules};
ghost use Rattle.efg_reader.specs.Rules.{refusal_in, Refuses};
ghost use Rattle.efg_reader.specs.Sets.{info_of, turn_of, AreChances, AreSetsOf, IsChoice, IsWhole};
ghost use Rattle.efg_reader.specs.Taken.{built_game, kept_list, kept_shape, AreWith, HasTaken, IsNamed, IsNext};
ghost use Rattle.efg_reader.specs.Told.{chance, list_of, player, Told};
ghost use Rattle.efg_reader.specs.TreeSoFar.{action_count};

use crate::entry::{Entry, Turn, read_entry};
use crate::events::{Bare, Event};
use crate::first_lists::{FirstList, OutcomePays};
use crate::outcomes::{first_outcomes, take_outcome};
use crate::outline::Outline;
use crate::raw_game::{FracList, RawGame};
use crate::set_lists::{check_set, define_set, list_at};
use crate::tree::assemble;
use corr_game::{SetId, SetInfo, Side};
use efg_lines::{ActLines, FileRefusal, LineKind, NodeLine, RawFile};
use indexmap::IndexMap;
use number_words::{Number, common_denominator, has_negative, sums_to_one};
use std::alloc::{AllocError as NoMemory, Global};

/// The game that a file says.
///
/// The first rule that a node breaks is the refusal, nodes in file order and rules in that of `FileRefusal`. `Players`
/// comes before all nodes, `MissingNode` behind them.
pub fn build(alloc: Global, file: RawFile) -> Result<RawGame, FileRefusal>
    ensures refused { IfErr result (λ refusal. IsRefusalOf file refusal) }
    ensures accepted { OnOk result (file_refusal file ≡ None) }
    ensures game { IfOk result (λ game. IsGameOf file game) }
{
    if file.players() != 2 {
        return Err(FileRefusal::Players {
            count: file.players(),
        });
    }
    let mut builder = Builder::new(alloc, first_outcomes(alloc)?);
    for line in file.lines() {
        builder.add(line)?;
    }
    builder.finish()
}

/// What the lines so far say.
#[derive(Drop)]
struct Builder<'a> {
    alloc: Global,
    chance: IndexMap<u32, FirstList<'a>>,
    one: IndexMap<u32, FirstList<'a>>,
    two: IndexMap<u32, FirstList<'a>>,
    outcomes: IndexMap<u32, OutcomePays>,
    outline: Outline,
    nodes: Vec<Bare>,
}

impl<'a> Builder<'a> {
    fn new(alloc: Global, outcomes: IndexMap<u32, OutcomePays>) -> Builder<'a>
        ensures nodes { vec_len result.nodes ≡ 0 }
        ensures tree { awaited 1 result.nodes.items ≡ Some (places result.outline) }
        ensures shallow { AreShallow [] result.nodes.items (above result.outline) }
        ensures one { AreSetsOf One (map turn_of result.nodes.items) result.one.entries }
        ensures two { AreSetsOf Two (map turn_of result.nodes.items) result.two.entries }
        ensures chance { AreChances result.chance.entries }
        ensures taken { AreFirstOutcomes outcomes.entries → HasTaken result [] }
    {
        Builder {
            alloc,
            chance: IndexMap::new(alloc),
            one: IndexMap::new(alloc),
            two: IndexMap::new(alloc),
            outcomes,
            outline: Outline::new(alloc),
            nodes: Vec::new(alloc),
        }
    }

    /// The next line, or the first rule that it breaks.
    fn add(&mut self, line: &'a NodeLine) -> Result<(), FileRefusal>
        requires nodes { vec_len self.old.nodes ≤ 4096 }
        requires tree { awaited 1 self.old.nodes.items ≡ Some (places self.old.outline) }
        requires shallow { AreShallow [] self.old.nodes.items (above self.old.outline) }
        requires one { AreSetsOf One (map turn_of self.old.nodes.items) self.old.one.entries }
        requires two { AreSetsOf Two (map turn_of self.old.nodes.items) self.old.two.entries }
        requires chance { AreChances self.old.chance.entries }
        ensures nodes { OnOk result (vec_len self.new.nodes ≤ 4096) }
        ensures tree { OnOk result (awaited 1 self.new.nodes.items ≡ Some (places self.new.outline)) }
        ensures shallow { OnOk result (AreShallow [] self.new.nodes.items (above self.new.outline)) }
        ensures one { OnOk result (AreSetsOf One (map turn_of self.new.nodes.items) self.new.one.entries) }
        ensures two { OnOk result (AreSetsOf Two (map turn_of self.new.nodes.items) self.new.two.entries) }
        ensures chance { OnOk result (AreChances self.new.chance.entries) }
        ensures refusal { (lines : List Told) → HasTaken self.old lines → Refuses result (refusal_in (next_line lines line.now)) }
        ensures taken { (lines : List Told) → HasTaken self.old lines → OnOk result (IsNext lines line.now self.new) }
    {
        let node = self.nodes.len() as u32;
        self.check_place(node)?;
        let Some(entry) = read_entry(self.alloc, line)? else {
            return Err(FileRefusal::NumberTooWide { node });
        };
        let Entry {
            turn,
            outcome,
            pays,
        } = entry;
        let (event, kids) = self.take_turn(&line.kind, turn, node)?;
        let is_listed = line.pays.is_some();
        let pays = take_outcome(
            &mut self.outcomes,
            outcome,
            is_listed,
            pays.as_slice(),
            node,
        )?;
        self.outline.place(kids)?;
        self.nodes.push(Bare {
            event,
            kids,
            one: pays.one.frac(),
            two: pays.two.frac(),
        })?;
        Ok(())
    }

    /// The rules on the place of a node in the tree.
    fn check_place(&self, node: u32) -> Result<(), FileRefusal>
        ensures refusal { refusal_in result ≡ place_rules node (is_whole self.now.outline) (length (above self.now.outline)) }
        ensures few { OnOk result (node < 4096) }
        ensures waits { OnOk result (0 < places self.now.outline) }
        ensures shallow { OnOk result (length (above self.now.outline) ≤ 256) }
    {
        if self.outline.is_closed() {
            return Err(FileRefusal::ExtraNode { node });
        }
        if node >= 4096 {
            return Err(FileRefusal::TooManyNodes { node });
        }
        if self.outline.depth() > 256 {
            return Err(FileRefusal::TooDeep { node });
        }
        Ok(())
    }

    /// The rules on who moves, the list of actions and the set; what happens at the node, and how many kids it has.
    fn take_turn(
        &mut self,
        line: &'a LineKind,
        turn: Turn,
        node: u32,
    ) -> Result<(Event, u32), FileRefusal>
        requires turn { IsTurnOf line.now turn }
        requires few { vec_len self.old.nodes < 4096 }
        requires one { AreSetsOf One (map turn_of self.old.nodes.items) self.old.one.entries }
        requires two { AreSetsOf Two (map turn_of self.old.nodes.items) self.old.two.entries }
        requires chance { AreChances self.old.chance.entries }
        ensures nodes { self.new.nodes ≡ self.old.nodes }
        ensures outline { self.new.outline ≡ self.old.outline }
        ensures fits { IfOk result (λ it. IsTrue (is_fit it.0 it.1)) }
        ensures chances { IfOk result (λ it. HasChances it.0 it.1) }
        ensures one { IfOk result (λ it. AreSetsOf One (map turn_of self.old.nodes.items ++ it ∷ []) self.new.one.entries) }
        ensures two { IfOk result (λ it. AreSetsOf Two (map turn_of self.old.nodes.items ++ it ∷ []) self.new.two.entries) }
        ensures chance { OnOk result (AreChances self.new.chance.entries) }
        ensures outcomes { self.new.outcomes ≡ self.old.outcomes }
        ensures refusal { Refuses result (turn_rules node line.now (mover_of turn) (kept_list self.old (mover_of turn))) }
        ensures sets_of_chance { OnOk result (AreWith chance line.now (mover_of turn) self.old.chance.entries self.new.chance.entries) }
        ensures sets_of_one { OnOk result (AreWith (player 1) line.now (mover_of turn) self.old.one.entries self.new.one.entries) }
        ensures sets_of_two { OnOk result (AreWith (player 2) line.now (mover_of turn) self.old.two.entries self.new.two.entries) }
        ensures kids { IfOk result (λ it. IsNamed (mover_of turn) (kept_list self.new (mover_of turn)) it.1) }
        ensures happening { IfOk result (λ it. (kids : List ℕ) → shape_with it.0 kids ≡ kept_shape self.new (mover_of turn) kids) }
    {
        match turn {
            Turn::Leaf => Ok((Event::Leaf, 0)),
            Turn::Chance { set, probs } => {
                let list = checked_list(acts_of(line), probs, node)?;
                take_chance(self.alloc, &mut self.chance, set, list, node)
            }
            Turn::Player { player: 1, set } => {
                let list = checked_list(acts_of(line), Vec::new(self.alloc), node)?;
                take_choice(&mut self.one, Side::One, set, list, node)
            }
            Turn::Player { player: 2, set } => {
                let list = checked_list(acts_of(line), Vec::new(self.alloc), node)?;
                take_choice(&mut self.two, Side::Two, set, list, node)
            }
            Turn::Player { .. } => Err(FileRefusal::PlayerUnknown { node }),
        }
    }

    /// The game, of which all lines have been taken.
    fn finish(self) -> Result<RawGame, FileRefusal>
        requires nodes { vec_len self.nodes ≤ 4096 }
        requires tree { awaited 1 self.nodes.items ≡ Some (places self.outline) }
        requires shallow { AreShallow [] self.nodes.items (above self.outline) }
        requires one { AreSetsOf One (map turn_of self.nodes.items) self.one.entries }
        requires two { AreSetsOf Two (map turn_of self.nodes.items) self.two.entries }
        ensures refusal { Refuses result (if is_whole self.entry.outline then None else Some (MissingNode (vec_len self.entry.nodes))) }
        ensures game { IfOk result (λ game. game ≡ built_game self.entry) }
    {
        if !self.outline.is_closed() {
            return Err(FileRefusal::MissingNode {
                node: self.nodes.len() as u32,
            });
        }
        let one = infos(self.alloc, &self.one)?;
        let two = infos(self.alloc, &self.two)?;
        let nodes = assemble(self.alloc, self.nodes)?;
        Ok(RawGame::of(nodes, one, two))
    }
}

/// The list of a line, where it has one.
fn acts_of(kind: &LineKind) -> Option<&ActLines>
    ensures { option_map (λ acts. acts.now) result ≡ acts_in kind.now }
{
    match kind {
        LineKind::Chance { acts, .. } => acts.as_ref(),
        LineKind::Player { acts, .. } => acts.as_ref(),
        LineKind::Leaf => None,
    }
}

/// The rules on the number of actions.
fn checked_list<'a>(
    acts: Option<&'a ActLines>,
    probs: Vec<Number>,
    node: u32,
) -> Result<Option<FirstList<'a>>, FileRefusal>
    ensures refusal { refusal_in result ≡ action_rules node (option_map (λ lines. lines.now) acts.entry) }
    ensures whole { IfSome acts.entry (λ lines. length probs.items ≡ length lines.now) → IfOk result (λ list. IfSome list IsWhole) }
    ensures listed { IfOk result (λ list. option_map listed_in list ≡ option_map (λ lines. list_of lines.now probs.items) acts.entry) }
{
    let Some(acts) = acts else {
        return Ok(None);
    };
    match acts.len() {
        0 => Err(FileRefusal::NoActions { node }),
        1..=64 => Ok(Some(FirstList { acts, probs })),
        _ => Err(FileRefusal::TooManyActions { node }),
    }
}

/// The rules on the probabilities of a list, and on the set.
fn take_chance<'a>(
    alloc: Global,
    lists: &mut IndexMap<u32, FirstList<'a>>,
    set: u32,
    list: Option<FirstList<'a>>,
    node: u32,
) -> Result<(Event, u32), FileRefusal>
    requires each { IfSome list IsWhole }
    requires lists { AreChances lists.old.entries }
    ensures fits { IfOk result (λ it. IsTrue (is_fit it.0 it.1)) }
    ensures chances { IfOk result (λ it. HasChances it.0 it.1) }
    ensures lists { OnOk result (AreChances lists.new.entries) }
    ensures draw { IfOk result (λ it. IsDraw it.0) }
    ensures refusal { Refuses result (first_of (list_chance_rules node list.entry
        ∷ named_rules node (option_map listed_in (get nat_eq lists.old set)) (option_map listed_in list.entry) ∷ [])) }
    ensures new_lists { OnOk result (map entry_in lists.new.entries
        ≡ with_given (list_entry set list.entry) (map entry_in lists.old.entries)) }
    ensures kids { IfOk result (λ it. (first : FirstList) × (get nat_eq lists.new set ≡ Some first) × (it.1 ≡ length first.acts.now)) }
    ensures event { IfOk result (λ it. (first : FirstList) × (get nat_eq lists.new set ≡ Some first)
        × (it.0 ≡ Chance (map fraction_of first.probs.items))) }
{
    check_list_chances(&list, node)?;
    check_set(lists.get(&set), &list, node)?;
    let index = define_set(lists, set, list)?;
    let first = list_at(lists, index);
    let probs = fracs_of(alloc, first.probs.as_slice())?;
    Ok((Event::Chance { probs }, first.acts.len() as u32))
}

/// The rules on the probabilities, where the line has a list.
fn check_list_chances(list: &Option<FirstList>, node: u32) -> Result<(), FileRefusal>
    ensures refusal { refusal_in result ≡ list_chance_rules node list.now }
    ensures parts { OnOk result (IfSome list.now (λ own. All IsPart own.probs.items)) }
{
    match list {
        Some(list) => check_chances(list.probs.as_slice(), node),
        None => Ok(()),
    }
}

fn check_chances(probs: &[Number], node: u32) -> Result<(), FileRefusal>
    ensures refusal { refusal_in result ≡ chance_rules node probs.now }
    ensures parts { OnOk result (All IsPart probs.now) }
{
    if has_negative(probs) {
        return Err(FileRefusal::ChanceNegative { node });
    }
    let Some(common) = common_denominator(probs) else {
        return Err(FileRefusal::ChanceTooFine { node });
    };
    if !sums_to_one(probs, common) {
        return Err(FileRefusal::ChanceSum { node });
    }
    Ok(())
}

/// The rules on the set.
fn take_choice<'a>(
    lists: &mut IndexMap<u32, FirstList<'a>>,
    side: Side,
    set: u32,
    list: Option<FirstList<'a>>,
    node: u32,
) -> Result<(Event, u32), FileRefusal>
    requires { index_map_len lists.old < 4096 }
    ensures fits { IfOk result (λ it. IsTrue (is_fit it.0 it.1)) }
    ensures choice { IfOk result (λ it. IsChoice side lists.old.entries set list.entry lists.new.entries it.0 it.1) }
    ensures refusal { Refuses result
        (named_rules node (option_map listed_in (get nat_eq lists.old set)) (option_map listed_in list.entry)) }
    ensures new_lists { OnOk result (map entry_in lists.new.entries
        ≡ with_given (list_entry set list.entry) (map entry_in lists.old.entries)) }
    ensures kids { IfOk result (λ it. (first : FirstList) × (get nat_eq lists.new set ≡ Some first) × (it.1 ≡ length first.acts.now)) }
    ensures event { IfOk result (λ it. it.0 ≡ Choice side (record { 0 = position_or_len (nat_eq set) (keys lists.new) })) }
{
    check_set(lists.get(&set), &list, node)?;
    let index = define_set(lists, set, list)?;
    let kids = list_at(lists, index).acts.len() as u32;
    let set = SetId(index as u32);
    Ok((Event::Choice { side, set }, kids))
}

fn fracs_of(alloc: Global, numbers: &[Number]) -> Result<FracList, NoMemory>
    requires { All IsPart numbers.now }
    ensures count { IfOk result (λ fracs. length fracs ≡ length numbers.now) }
    ensures values { IfOk result (λ fracs. fracs ≡ map fraction_of numbers.now) }
    ensures parts { IfOk result (λ fracs. All IsProbability fracs) }
{
    let mut fracs = FracList::new(alloc);
    for number in numbers {
        fracs.push(number.frac())?;
    }
    Ok(fracs)
}

/// The sets of a player, in the order of their first lines.
fn infos(alloc: Global, lists: &IndexMap<u32, FirstList>) -> Result<Vec<SetInfo>, NoMemory>
    ensures count { IfOk result (λ infos. length infos.items ≡ index_map_len lists.now) }
    ensures each { IfOk result (λ infos. infos.items ≡ map info_of lists.now.entries) }
    ensures own_files { IsDistinct nat_eq (keys lists.now) }
{
    let mut infos = Vec::new(alloc);
    for index in 0..lists.len() {
        infos.push(info_at(lists, index))?;
    }
    Ok(infos)
}

/// The set with this index.
fn info_at(lists: &IndexMap<u32, FirstList>, index: usize) -> SetInfo
    requires { index < index_map_len lists.now }
    ensures { slice_get (map info_of lists.now.entries) index ≡ Some result }
{
    match lists.get_index(index) {
        Some((file, first)) => SetInfo {
            file: *file,
            actions: first.acts.len() as u32,
        },
        None => unreachable!(),
    }
}
