ghost use Rattle.std.specs.Prelude.{◌≡◌, ◌<◌, ◌++◌, ◌∷◌, [], length, slice_get, slice_index, Some, OnErr, OnOk};
ghost use Rattle.report_form.specs.Ranges.{IsReport};
ghost use Rattle.report_form.specs.View.{scale_in};

use corr_game::{Notion, PairList, Side};
use lp_form::{NumList, Place};
use plane_hull::{Point, SideList};
use std::alloc::{AllocError as NoMemory, Global};
use std::marker::Model;

/// A corner of a polygon, and an equilibrium that reaches it: pairs of plans whose weights sum to `total`.
#[derive(Debug, Drop)]
pub struct Corner {
    pub point: Point,
    pub total: i128,
    pub pairs: PairList,
}

/// Corners, counter-clockwise from the greatest first payoff.
#[derive(Debug, Drop)]
pub struct Corners {
    corners: Vec<Corner>,
}

impl Model for Corners {
    ghost use Rattle.std.specs.Prelude.{List};
    ghost use Rattle.report_form.specs.declared.reports.Corner.{Corner};

    ghost Value = { List Corner };

    ghost view = { λ a. a.corners.items };
}

impl Corners {
    pub fn new(alloc: Global) -> Corners
        ensures empty { result ≡ [] }
    {
        Corners {
            corners: Vec::new(alloc),
        }
    }

    pub fn push(&mut self, item: Corner) -> Result<(), NoMemory>
        ensures ok { OnOk result (self.new ≡ self.old ++ item ∷ []) }
        ensures err { OnErr result (self.new ≡ self.old) }
    {
        self.corners.push(item)?;
        Ok(())
    }

    pub fn len(&self) -> usize
        ensures count { result ≡ length self.now }
    {
        self.corners.len()
    }

    pub fn at(&self, k: usize) -> &Corner
        requires { k < length self.now }
        ensures item { slice_get self.now k ≡ Some result.now }
    {
        &self.corners[k]
    }
}

/// Columns of a tableau.
#[derive(Debug, Drop)]
pub struct ColumnList {
    columns: Vec<u32>,
}

impl Model for ColumnList {
    ghost use Rattle.std.specs.Prelude.{ℕ, List};

    ghost Value = { List ℕ };

    ghost view = { λ a. a.columns.items };
}

impl ColumnList {
    pub fn new(alloc: Global) -> ColumnList
        ensures empty { result ≡ [] }
    {
        ColumnList {
            columns: Vec::new(alloc),
        }
    }

    pub fn push(&mut self, item: u32) -> Result<(), NoMemory>
        ensures ok { OnOk result (self.new ≡ self.old ++ item ∷ []) }
        ensures err { OnErr result (self.new ≡ self.old) }
    {
        self.columns.push(item)?;
        Ok(())
    }

    pub fn len(&self) -> usize
        ensures count { result ≡ length self.now }
    {
        self.columns.len()
    }

    pub fn at(&self, k: usize) -> &u32
        requires { k < length self.now }
        ensures item { result.now ≡ slice_index self.now k }
    {
        &self.columns[k]
    }
}

/// What was found for one notion.
#[derive(Debug, Drop)]
pub enum Block {
    /// The polygon.
    Found { corners: Corners, sides: SideList },
    /// The program has no solution, as the multipliers of its rows show.
    Empty { multipliers: NumList },
    /// The tableau of this basis has an entry of magnitude 2^62 or more at this place.
    TooWide { basis: ColumnList, place: Place },
}

#[derive(Debug, Drop)]
pub struct NamedBlock {
    pub notion: Notion,
    pub block: Block,
}

/// Blocks in the order of their notions.
#[derive(Debug, Drop)]
pub struct BlockList {
    blocks: Vec<NamedBlock>,
}

impl Model for BlockList {
    ghost use Rattle.std.specs.Prelude.{List};
    ghost use Rattle.report_form.specs.declared.reports.NamedBlock.{NamedBlock};

    ghost Value = { List NamedBlock };

    ghost view = { λ a. a.blocks.items };
}

impl BlockList {
    pub fn new(alloc: Global) -> BlockList
        ensures empty { result ≡ [] }
    {
        BlockList {
            blocks: Vec::new(alloc),
        }
    }

    pub fn push(&mut self, item: NamedBlock) -> Result<(), NoMemory>
        ensures ok { OnOk result (self.new ≡ self.old ++ item ∷ []) }
        ensures err { OnErr result (self.new ≡ self.old) }
    {
        self.blocks.push(item)?;
        Ok(())
    }

    pub fn len(&self) -> usize
        ensures count { result ≡ length self.now }
    {
        self.blocks.len()
    }

    pub fn at(&self, k: usize) -> &NamedBlock
        requires { k < length self.now }
        ensures item { slice_get self.now k ≡ Some result.now }
    {
        &self.blocks[k]
    }
}

/// A report on a game: the scales by which its payoffs were multiplied, and a block for each selected notion. The type
/// keeps all ranges of a report's numbers, and the order of its blocks.
#[derive(Debug, Drop)]
pub struct Report {
    scale_one: i64,
    scale_two: i64,
    blocks: BlockList,
}

impl Model for Report {
    ghost use Rattle.report_form.specs.Ranges.{IsReport};
    ghost use Rattle.report_form.specs.View.{ReportView};

    ghost Value = { ReportView };

    ghost view = { λ a. record {
      scale_one = a.scale_one;
      scale_two = a.scale_two;
      blocks = a.blocks;
    } };

    ghost invariant = { λ a. IsReport record {
      scale_one = a.scale_one;
      scale_two = a.scale_two;
      blocks = a.blocks;
    } };
}

impl Report {
    pub fn of(scale_one: i64, scale_two: i64, blocks: BlockList) -> Report
        requires { IsReport record {
          scale_one = scale_one;
          scale_two = scale_two;
          blocks = blocks;
        } }
        ensures made { result
            ≡ record {
              scale_one = scale_one;
              scale_two = scale_two;
              blocks = blocks;
            } }
    {
        Report {
            scale_one,
            scale_two,
            blocks,
        }
    }

    /// The scale of a player's payoffs.
    pub fn scale(&self, side: Side) -> &i64
        ensures scale { result.now ≡ scale_in side self.now }
        ensures rules { IsReport self.now }
    {
        match side {
            Side::One => &self.scale_one,
            Side::Two => &self.scale_two,
        }
    }

    pub fn blocks(&self) -> &BlockList
        ensures blocks { result.now ≡ self.now.blocks }
        ensures rules { IsReport self.now }
    {
        &self.blocks
    }
}
