// From the bytes of a file to a game that may be solved.
ghost use Rattle.std.specs.Prelude.{◌≡◌, ◌<◌, ◌≤◌, ◌^◌, length, IfErr, IfOk};
ghost use Rattle.corr_game.specs.Game.{sets_of};
ghost use Rattle.report_form.specs.declared.refusals.Refusal.TheVariants.{AtNode};
ghost use Rattle.tree_recall.specs.LastMove.{IsRecallOf};
ghost use Rattle.connected_pairs.specs.Connected.{IsPairsOf};
ghost use Rattle.triangle_test.specs.Triangle.{IsLeastTriangle};
ghost use Rattle.corr_run.specs.declared.prepare.ReadyEnd.TheVariants.{NoMemory, Refused};
ghost use Rattle.corr_run.specs.FirstRefusal.{HasFileNumber, IsOfFile, IsOfRecall, IsOfTriangle};
ghost use Rattle.corr_run.specs.GameOfFile.{IsGameOfBytes, SayGame, SayRecalled, SayScaled};
ghost use Rattle.corr_run.specs.Refusals.{end_of, line_refusal, scale_refusal, IfRefused};

use connected_pairs::Pairs;
use corr_game::{Game, SetId, Side};
use efg_lines::{FileRefusal, read_lines};
use efg_reader::{RawGame, build};
use game_scale::{ScaleRefusal, scale};
use report_form::{NodeRule, Refusal};
use sequences::Seqs;
use std::alloc::{AllocError, AllocFailed, Global};
use tree_recall::{RecallRefusal, Recalled, recall};
use triangle_test::{Quad, triangle};

/// A game without a triangle, and the relevant pairs of its sequences.
#[derive(Debug, Drop)]
pub struct Ready {
    pub game: Game,
    pub pairs: Pairs,
}

/// Why there is no game to solve.
#[derive(Debug, PartialEq, Eq, Drop)]
pub enum ReadyEnd {
    Refused(Refusal),
    NoMemory,
}

impl From<AllocError> for ReadyEnd {
    ghost from_gives = { λ _ end. end ≡ NoMemory };

    fn from(_: AllocError) -> ReadyEnd {
        ReadyEnd::NoMemory
    }
}

impl<T: Drop> From<AllocFailed<T>> for ReadyEnd {
    ghost from_gives = { λ _ end. end ≡ NoMemory };

    fn from(_: AllocFailed<T>) -> ReadyEnd {
        ReadyEnd::NoMemory
    }
}

impl From<FileRefusal> for ReadyEnd {
    ghost from_gives = { λ refusal end. end ≡ end_of (line_refusal refusal) };

    fn from(refusal: FileRefusal) -> ReadyEnd {
        match refusal {
            FileRefusal::Syntax { at } => ReadyEnd::Refused(Refusal::Syntax { at }),
            FileRefusal::Players { count } => ReadyEnd::Refused(Refusal::Players { count }),
            FileRefusal::ExtraNode { node } => at_node(NodeRule::ExtraNode, node),
            FileRefusal::TooManyNodes { node } => at_node(NodeRule::TooManyNodes, node),
            FileRefusal::TooDeep { node } => at_node(NodeRule::TooDeep, node),
            FileRefusal::NumberTooWide { node } => at_node(NodeRule::NumberTooWide, node),
            FileRefusal::PlayerUnknown { node } => at_node(NodeRule::PlayerUnknown, node),
            FileRefusal::NoActions { node } => at_node(NodeRule::NoActions, node),
            FileRefusal::TooManyActions { node } => at_node(NodeRule::TooManyActions, node),
            FileRefusal::ChanceNegative { node } => at_node(NodeRule::ChanceNegative, node),
            FileRefusal::ChanceTooFine { node } => at_node(NodeRule::ChanceTooFine, node),
            FileRefusal::ChanceSum { node } => at_node(NodeRule::ChanceSum, node),
            FileRefusal::SetUnknown { node } => at_node(NodeRule::SetUnknown, node),
            FileRefusal::SetDiffers { node } => at_node(NodeRule::SetDiffers, node),
            FileRefusal::PayoffCount { node } => at_node(NodeRule::PayoffCount, node),
            FileRefusal::OutcomeUnknown { node } => at_node(NodeRule::OutcomeUnknown, node),
            FileRefusal::OutcomeDiffers { node } => at_node(NodeRule::OutcomeDiffers, node),
            FileRefusal::MissingNode { node } => at_node(NodeRule::MissingNode, node),
            FileRefusal::NoMemory => ReadyEnd::NoMemory,
        }
    }
}

impl From<ScaleRefusal> for ReadyEnd {
    ghost from_gives = { λ refusal end. end ≡ end_of (scale_refusal refusal) };

    fn from(refusal: ScaleRefusal) -> ReadyEnd {
        match refusal {
            ScaleRefusal::PathTooFine { node } => at_node(NodeRule::PathTooFine, node),
            ScaleRefusal::ScaleTooLarge { side } => {
                ReadyEnd::Refused(Refusal::ScaleTooLarge { side })
            }
            ScaleRefusal::AmountTooLarge { node } => at_node(NodeRule::AmountTooLarge, node),
            ScaleRefusal::NoMemory => ReadyEnd::NoMemory,
        }
    }
}

fn at_node(name: NodeRule, node: u32) -> ReadyEnd
    ensures { result ≡ Refused (AtNode name node) }
{
    ReadyEnd::Refused(Refusal::AtNode { name, node })
}

/// The game of a file, or its first refusal before those of sizes: the grammar, the rules at the nodes, the scales, recall, and
/// the triangle. Sets in a refusal have the file's numbers.
pub fn prepare(alloc: Global, bytes: &[u8]) -> Result<Ready, ReadyEnd>
    requires { length bytes.now ≤ 2 ^ 30 }
    ensures ready { IfOk result (λ ready. IsGameOfBytes bytes.now ready.game ready.pairs) }
    ensures refused { IfErr result (IfRefused (IsOfFile bytes.now)) }
{
    let ready = paired_game(alloc, bytes)?;
    match triangle(&ready.game, &ready.pairs) {
        Some(quad) => {
            let refusal = triangle_refusal(&ready.game, &ready.pairs, &quad);
            Err(ReadyEnd::Refused(refusal))
        }
        None => Ok(ready),
    }
}

/// The game that the lines say.
fn read_game(alloc: Global, bytes: &[u8]) -> Result<RawGame, ReadyEnd>
    requires { length bytes.now ≤ 2 ^ 30 }
    ensures said { IfOk result (SayGame bytes.now) }
    ensures refused { IfErr result (IfRefused (IsOfFile bytes.now)) }
{
    let file = read_lines(alloc, bytes)?;
    let raw = build(alloc, file)?;
    Ok(raw)
}

/// The same with whole amounts.
fn scaled_game(alloc: Global, bytes: &[u8]) -> Result<Game, ReadyEnd>
    requires { length bytes.now ≤ 2 ^ 30 }
    ensures scaled { IfOk result (SayScaled bytes.now) }
    ensures refused { IfErr result (IfRefused (IsOfFile bytes.now)) }
{
    let raw = read_game(alloc, bytes)?;
    let game = scale(alloc, raw)?;
    Ok(game)
}

/// The same with its relevant pairs, where both players recall their moves.
fn paired_game(alloc: Global, bytes: &[u8]) -> Result<Ready, ReadyEnd>
    requires { length bytes.now ≤ 2 ^ 30 }
    ensures recalled { IfOk result (λ ready. SayRecalled bytes.now ready.game ready.pairs) }
    ensures refused { IfErr result (IfRefused (IsOfFile bytes.now)) }
{
    let game = scaled_game(alloc, bytes)?;
    let recalled = recalled_moves(alloc, &game)?;
    let seqs = Seqs::of(alloc, &game, recalled)?;
    let pairs = Pairs::of(alloc, &game, seqs)?;
    let _ = pairs.len();
    Ok(Ready { game, pairs })
}

fn recalled_moves(alloc: Global, game: &Game) -> Result<Recalled, ReadyEnd>
    ensures recalled { IfOk result (IsRecallOf game.now) }
    ensures refused { IfErr result (IfRefused (IsOfRecall game.now)) }
{
    match recall(alloc, game) {
        Ok(recalled) => Ok(recalled),
        Err(
            RecallRefusal::Forgets {
                side,
                set,
                first,
                second,
            },
        ) => Err(ReadyEnd::Refused(Refusal::Forgets {
            side,
            set: file_number(game, side, set),
            first,
            second,
        })),
        Err(RecallRefusal::NoMemory) => Err(ReadyEnd::NoMemory),
    }
}

/// The number that a set has in the file.
fn file_number(game: &Game, side: Side, set: SetId) -> u32
    requires { set.0 < length (sets_of side game.now) }
    ensures { HasFileNumber game.now side set result }
{
    game.set(side, set).file
}

fn triangle_refusal(game: &Game, pairs: &Pairs, quad: &Quad) -> Refusal
    requires whose { IsPairsOf game.now pairs.now }
    requires triangle { IsLeastTriangle pairs.now quad.now }
    ensures { IsOfTriangle game.now pairs.now result }
{
    Refusal::Triangle {
        one_a: file_number(game, Side::One, quad.one_a),
        one_b: file_number(game, Side::One, quad.one_b),
        two_a: file_number(game, Side::Two, quad.two_a),
        two_b: file_number(game, Side::Two, quad.two_b),
    }
}
