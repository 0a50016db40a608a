ghost use Rattle.std.specs.Prelude.{◌≡◌, ◌<◌, ◌≤◌, ◌++◌, ◌∷◌, [], ℕ, length, map, slice_get, slice_index_or, Some, All, IfErr, IfOk, Option};
ghost use Rattle.corr_game.specs.declared.nodes.SetId.{SetId};
ghost use Rattle.corr_game.specs.Game.{GameView, sets_of};
ghost use Rattle.tree_recall.specs.declared.recalls.Met.{Met};
ghost use Rattle.tree_recall.specs.Forgetting.{NamesSet, IsLeast, IsLeastOf, IsMismatch, NoneForgotten};
ghost use Rattle.corr_game.specs.declared.sides.Side.TheVariants.{One, Two};
ghost use Rattle.tree_recall.specs.OwnSequence.{HasRecall};
ghost use Rattle.tree_recall.specs.LastMove.{IsRecallOf, AreEarlier, AreOfTree, IsHandedOn, moves_of};

use corr_game::{Game, Node, NodeList, SetId, Side};
use std::alloc::{AllocError, AllocFailed, Global};
use std::marker::Model;

/// A set and the action taken there.
type Move = (SetId, u32);

/// A set's first node and the last own move before it.
#[derive(Clone, Copy, Debug)]
struct Met {
    first: u32,
    last: Option<Move>,
}

/// The last own move before each set of each player, of a game in which both recall their moves.
#[derive(Debug, Drop)]
pub struct Recalled {
    one: Vec<Met>,
    two: Vec<Met>,
}

impl Model for Recalled {
    ghost use Rattle.std.specs.Prelude.{map};
    ghost use Rattle.tree_recall.specs.Forgetting.{NamesSet};
    ghost use Rattle.tree_recall.specs.LastMove.{RecalledView};

    ghost Value = { RecalledView };

    ghost use Rattle.tree_recall.specs.declared.recalls.Met.{Met};

    ghost view = { λ a. record {
      one = map (λ (met : Met). met.last) a.one.items;
      two = map (λ (met : Met). met.last) a.two.items;
    } };
}

/// Why a game has no recalled moves.
#[derive(Debug, PartialEq, Eq, Drop)]
pub enum RecallRefusal {
    /// The nodes `first` and `second` of this set come after different own moves. `first` is the set's first node,
    /// and `second` the least node of either player that differs so.
    Forgets {
        side: Side,
        set: SetId,
        first: u32,
        second: u32,
    },
    NoMemory,
}

impl From<AllocError> for RecallRefusal {
    ghost use Rattle.std.specs.Prelude.{◌≡◌};
    ghost use Rattle.tree_recall.specs.declared.recalls.RecallRefusal.TheVariants.{NoMemory};

    ghost from_gives = { λ _ r. r ≡ NoMemory };

    fn from(_: AllocError) -> RecallRefusal {
        RecallRefusal::NoMemory
    }
}

impl<T: Drop> From<AllocFailed<T>> for RecallRefusal {
    ghost use Rattle.std.specs.Prelude.{◌≡◌};
    ghost use Rattle.tree_recall.specs.declared.recalls.RecallRefusal.TheVariants.{NoMemory};

    ghost from_gives = { λ _ r. r ≡ NoMemory };

    fn from(_: AllocFailed<T>) -> RecallRefusal {
        RecallRefusal::NoMemory
    }
}

impl Recalled {
    /// The last own move before this set, or none.
    pub fn last(&self, side: Side, set: SetId) -> Option<Move>
        requires { set.0 < length (moves_of side self.now) }
        ensures { slice_get (moves_of side self.now) set.0 ≡ Some result }
    {
        match side {
            Side::One => self.one[set.0 as usize].last,
            Side::Two => self.two[set.0 as usize].last,
        }
    }
}

/// The last own moves, or the first pair of nodes at which a player forgets.
pub fn recall(alloc: Global, game: &Game) -> Result<Recalled, RecallRefusal>
    ensures recalled { IfOk result (λ recalled. IsRecallOf game.now recalled) }
    ensures named { IfErr result (NamesSet game.now) }
    ensures least { IfErr result (IsLeast game.now) }
{
    let one = side_recall(alloc, game, Side::One);
    let two = side_recall(alloc, game, Side::Two);
    match (one, two) {
        (Ok(one), Ok(two)) => Ok(Recalled { one, two }),
        (Err(one), Err(two)) => Err(earlier(one, two)),
        (Err(refusal), _) | (_, Err(refusal)) => Err(refusal),
    }
}

/// Of two refusals the one whose second node comes first; none is told where memory ran out.
fn earlier(one: RecallRefusal, two: RecallRefusal) -> RecallRefusal
    ensures named { (g : GameView) → NamesSet g one → NamesSet g two → NamesSet g result }
    ensures least { (g : GameView) → IsLeastOf One g one → IsLeastOf Two g two → IsLeast g result }
{
    let RecallRefusal::Forgets { second: a, .. } = &one else {
        return one;
    };
    let RecallRefusal::Forgets { second: b, .. } = &two else {
        return two;
    };
    if *b < *a { two } else { one }
}

fn side_recall(alloc: Global, game: &Game, side: Side) -> Result<Vec<Met>, RecallRefusal>
    ensures count { IfOk result (λ met. length met.items ≡ length (sets_of side game.now)) }
    ensures earlier { IfOk result
        (λ met. AreEarlier (sets_of side game.now) (map (λ m. m.last) met.items)) }
    ensures of_tree { IfOk result (λ met. AreOfTree side game.now (map (λ m. m.last) met.items)) }
    ensures perfect { IfOk result (λ _. HasRecall game.now side) }
    ensures named { IfErr result (NamesSet game.now) }
    ensures least { IfErr result (IsLeastOf side game.now) }
    ensures none { IfOk result (λ _. (n : ℕ) → NoneForgotten game.now side n) }
{
    let mut above: Vec<Option<Move>> = vec![in alloc; None; game.len() as usize]?;
    let mut met = Vec::new(alloc);
    for n in 0..game.len() {
        let here = above[n as usize];
        match game.node(n) {
            Node::Leaf { .. } => {}
            Node::Chance { kids } => pass_on(&mut above, kids, here),
            Node::Choice {
                side: mover,
                set,
                kids,
            } => {
                if *mover == side {
                    meet(
                        &mut met,
                        *mover,
                        *set,
                        Met {
                            first: n,
                            last: here,
                        },
                    )?;
                    pass_moves(&mut above, kids, *set);
                } else {
                    pass_on(&mut above, kids, here);
                }
            }
        }
    }
    Ok(met)
}

/// Adds a set at its first node; at a later one tells whether the player remembers the same last move.
fn meet(met: &mut Vec<Met>, side: Side, set: SetId, node: Met) -> Result<(), RecallRefusal>
    requires { set.0 ≤ length met.old.items }
    ensures known { IfOk result (λ _. set.0 < length met.old.items → met.new.items ≡ met.old.items) }
    ensures added { IfOk result
        (λ _. set.0 ≡ length met.old.items → met.new.items ≡ met.old.items ++ node ∷ []) }
    ensures alike { IfOk result
        (λ _. (known : Met) → slice_get met.old.items set.0 ≡ Some known → known.last ≡ node.last) }
    ensures named { IfErr result (λ refusal. (g : GameView) → set.0 < length (sets_of side g) → NamesSet g refusal) }
    ensures differs { IfErr result (IsMismatch side set met.old.items node) }
{
    let Some(known) = met.get(set.0 as usize) else {
        met.push(node)?;
        return Ok(());
    };
    if known.last == node.last {
        Ok(())
    } else {
        Err(RecallRefusal::Forgets {
            side,
            set,
            first: known.first,
            second: node.first,
        })
    }
}

/// Gives each kid this last move.
fn pass_on(above: &mut Vec<Option<Move>>, kids: &NodeList, last: Option<Move>)
    requires { All (λ kid. kid < length above.old.items) kids.now }
    ensures count { length above.new.items ≡ length above.old.items }
    ensures each { (k : ℕ) (none : Option (SetId × ℕ)) → IsHandedOn kids.now (λ _. last) (length kids.now) k (slice_index_or above.old.items k none) (slice_index_or above.new.items k none) }
{
    for k in 0..kids.len() {
        above[*kids.at(k) as usize] = last;
    }
}

/// Gives each kid the move at this set that leads to it.
fn pass_moves(above: &mut Vec<Option<Move>>, kids: &NodeList, set: SetId)
    requires behind { All (λ kid. kid < length above.old.items) kids.now }
    requires few { length kids.now ≤ 64 }
    ensures count { length above.new.items ≡ length above.old.items }
    ensures each { (k : ℕ) (none : Option (SetId × ℕ)) → IsHandedOn kids.now (λ action. Some (set, action)) (length kids.now) k (slice_index_or above.old.items k none) (slice_index_or above.new.items k none) }
{
    for k in 0..kids.len() {
        above[*kids.at(k) as usize] = Some((set, k as u32));
    }
}
