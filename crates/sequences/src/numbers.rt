ghost use Rattle.std.specs.Prelude.{◌≡◌, ◌++◌, ℕ, length, map, IfOk};
ghost use Rattle.std.specs.List.{range_with_len};
ghost use Rattle.corr_game.specs.Game.{sets_of};
ghost use Rattle.tree_recall.specs.LastMove.{IsRecallOf};
ghost use Rattle.sequences.specs.Number.{AreOwn, HasNumber, IsNumberingOf, IsTaken};

use crate::places::Place;
use corr_game::{Game, Node, NodeList, SetId, Side};
use std::alloc::{AllocError as NoMemory, Global};
use tree_recall::Recalled;

pub type Move = (SetId, u32);

/// The places of a player's sets and the last move of each sequence but the empty one.
#[derive(Debug, Drop)]
pub struct Numbers {
    pub places: Vec<Place>,
    pub lasts: Vec<Move>,
}

/// Numbers a player's sequences, set by set.
pub fn number(
    alloc: Global,
    game: &Game,
    recalled: &Recalled,
    side: Side,
) -> Result<Numbers, NoMemory>
    requires { IsRecallOf game.now recalled.now }
    ensures numbering { IfOk result
        (λ made. IsNumberingOf (sets_of side game.now) made.places.items made.lasts.items) }
    ensures own_of_tree { IfOk result (λ made. AreOwn side game.now made.places.items) }
{
    let mut places: Vec<Place> = Vec::new(alloc);
    let mut lasts = Vec::new(alloc);
    for set in 0..game.sets(side) {
        let own = number_of(&places, recalled.last(side, SetId(set)));
        let actions = game.set(side, SetId(set)).actions;
        let first = lasts.len() as u32 + 1;
        places.push(Place {
            own,
            first,
            actions,
        })?;
        add_moves(&mut lasts, SetId(set), actions)?;
    }
    Ok(Numbers { places, lasts })
}

/// The number of the sequence with this last move; 0 where there is none.
fn number_of(places: &[Place], last: Option<Move>) -> u32
    requires { IsTaken places.now last }
    ensures { HasNumber places.now last result }
{
    match last {
        None => 0,
        Some(taken) => places[taken.0.0 as usize].first + taken.1,
    }
}

/// Adds the moves of a set, by action.
fn add_moves(lasts: &mut Vec<Move>, set: SetId, actions: u32) -> Result<(), NoMemory>
    ensures { IfOk result
        (λ _. lasts.new.items ≡ lasts.old.items ++ map (λ (a : ℕ). (set, a)) (range_with_len 0 actions)) }
{
    for action in 0..actions {
        lasts.push((set, action))?;
    }
    Ok(())
}
