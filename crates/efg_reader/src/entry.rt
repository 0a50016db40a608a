//! The numbers of a node line.

ghost use Rattle.std.specs.Prelude.{◌≡◌, ◌≤◌, ◌<◌, ◌^◌, length, vec_len, option_map, IfOk, IfSome};
ghost use Rattle.number_words.specs.Value.{number_value};
ghost use Rattle.efg_reader.specs.Entry.{mover, mover_of, numbers, numbers_of, payoffs, probabilities, probability, values};
ghost use Rattle.efg_reader.specs.Turn.{acts_in, IsTurnOf};

use efg_lines::{ActLine, ActLines, LineKind, NodeLine, PayWords};
use number_words::{Number, number_value, whole_value};
use std::alloc::{AllocError as NoMemory, Global};

/// Who moves at a line, and at which set; in a chance line the probabilities that it lists.
#[derive(Debug, Drop)]
pub enum Turn {
    Chance { set: u32, probs: Vec<Number> },
    Player { player: u32, set: u32 },
    Leaf,
}

/// The numbers of a node line; a list that it doesn't have is empty.
#[derive(Debug, Drop)]
pub struct Entry {
    pub turn: Turn,
    pub outcome: u32,
    pub pays: Vec<Number>,
}

/// The numbers of a line; none where one of them passes its limit.
pub fn read_entry(alloc: Global, line: &NodeLine) -> Result<Option<Entry>, NoMemory>
    ensures value { IfOk result (λ entry. option_map numbers_of entry ≡ numbers line.now) }
    ensures turn { IfOk result (λ entry. IfSome entry (λ it. IsTurnOf line.now.kind it.turn)) }
{
    let Some(turn) = read_turn(alloc, &line.kind)? else {
        return Ok(None);
    };
    let Some(outcome) = whole_value(line.outcome.as_slice()) else {
        return Ok(None);
    };
    let Some(pays) = read_pays(alloc, &line.pays)? else {
        return Ok(None);
    };
    Ok(Some(Entry {
        turn,
        outcome,
        pays,
    }))
}

fn read_turn(alloc: Global, kind: &LineKind) -> Result<Option<Turn>, NoMemory>
    ensures value { IfOk result (λ turn. option_map mover_of turn ≡ mover kind.now) }
    ensures turn { IfOk result (λ turn. IfSome turn (IsTurnOf kind.now)) }
{
    match kind {
        LineKind::Chance { set, acts } => {
            let Some(set) = whole_value(set.as_slice()) else {
                return Ok(None);
            };
            let Some(probs) = read_probs(alloc, acts)? else {
                return Ok(None);
            };
            Ok(Some(Turn::Chance { set, probs }))
        }
        LineKind::Player { player, set, .. } => {
            let Some(player) = whole_value(player.as_slice()) else {
                return Ok(None);
            };
            let Some(set) = whole_value(set.as_slice()) else {
                return Ok(None);
            };
            Ok(Some(Turn::Player { player, set }))
        }
        LineKind::Leaf => Ok(Some(Turn::Leaf)),
    }
}

/// A probability for each action of the list.
fn read_probs(alloc: Global, acts: &Option<ActLines>) -> Result<Option<Vec<Number>>, NoMemory>
    ensures value { IfOk result (λ probs. option_map (λ list. list.items) probs ≡ probabilities acts.now) }
    ensures count { IfOk result (λ probs. IfSome probs (λ it. IfSome acts.now (λ lines. vec_len it ≡ length lines))) }
{
    match acts {
        Some(acts) => probs_of(alloc, acts),
        None => Ok(Some(Vec::new(alloc))),
    }
}

fn probs_of(alloc: Global, acts: &ActLines) -> Result<Option<Vec<Number>>, NoMemory>
    ensures value { IfOk result (λ probs. option_map (λ list. list.items) probs ≡ values probability acts.now) }
    ensures count { IfOk result (λ probs. IfSome probs (λ it. vec_len it ≡ length acts.now)) }
{
    let mut probs = Vec::new(alloc);
    for k in 0..acts.len() {
        let Some(prob) = prob_of(acts.at(k)) else {
            return Ok(None);
        };
        probs.push(prob)?;
    }
    Ok(Some(probs))
}

/// The probability of an action, 0 where the line has no word for it; none where it passes its limit.
fn prob_of(act: &ActLine) -> Option<Number>
    ensures { result ≡ probability act.now }
{
    match &act.prob {
        Some(word) => number_value(word.as_slice()),
        None => Some(Number::zero()),
    }
}

/// The payoffs of the list.
fn read_pays(alloc: Global, words: &Option<PayWords>) -> Result<Option<Vec<Number>>, NoMemory>
    ensures { IfOk result (λ pays. option_map (λ list. list.items) pays ≡ payoffs words.now) }
{
    match words {
        Some(words) => pays_of(alloc, words),
        None => Ok(Some(Vec::new(alloc))),
    }
}

fn pays_of(alloc: Global, words: &PayWords) -> Result<Option<Vec<Number>>, NoMemory>
    ensures { IfOk result (λ pays. option_map (λ list. list.items) pays ≡ values number_value words.now) }
{
    let mut pays = Vec::new(alloc);
    for k in 0..words.len() {
        let Some(pay) = number_value(words.at(k).as_slice()) else {
            return Ok(None);
        };
        pays.push(pay)?;
    }
    Ok(Some(pays))
}
