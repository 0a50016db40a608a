ghost use Rattle.std.specs.Prelude.{◌≡◌, ◌≢◌, ℕ, ◌+◌, ◌<◌, ◌≤◌, ℤ, pos, ◌<ℤ◌, [], length, slice_index, slice_index_or, MatchOption, IfOk};
ghost use Rattle.corr_num.specs.Narrow.{Narrow};
ghost use Rattle.int_tableau.specs.Elimination.{IsRow, IsEliminated, IsWideIn};
ghost use Rattle.int_tableau.specs.Stored.{Stored, content_of};
ghost use Rattle.int_tableau.specs.Naming.{NamesRow};
ghost use Rattle.int_tableau.specs.Start.{StartsNarrow, IsStart};

use crate::ends::PivotEnd;
use crate::rows::Row;
use crate::starts::{start_basis, start_rows};
use crate::tableaus::Tableau;
use lp_form::{Lp, Place, RowName};
use std::alloc::{AllocError as NoMemory, Global};
use std::marker::Model;
use std::mem;

/// A tableau that keeps all its entries. Its pivots take no memory.
#[derive(Drop)]
pub struct Dense {
    alloc: Global,
    cols: u32,
    rows: Vec<Row>,
    basis: Vec<u32>,
    denom: i64,
    spent: bool,
}

impl Model for Dense {
    ghost use Rattle.int_tableau.specs.Stored.{Stored, IsStored};

    ghost Value = { Stored };

    ghost view = { λ a. record {
      cols = a.cols;
      rows = a.rows.items;
      basis = a.basis.items;
      denom = a.denom;
      spent = a.spent;
    } };

    ghost invariant = { λ a. IsStored record {
      cols = a.cols;
      rows = a.rows.items;
      basis = a.basis.items;
      denom = a.denom;
      spent = a.spent;
    } };
}

/// Puts the rows other than the pivot's into what a pivot makes of them, or answers a row and a column at which that is wide.
fn eliminate_others(
    rows: &mut [Row],
    at: usize,
    chosen: &Row,
    col: usize,
    denom: i64,
) -> Option<(usize, usize)>
    requires column { col < length chosen.now }
    requires rows { (i : ℕ) → i < length rows.old → i ≢ at → IsRow (length chosen.now) (slice_index_or rows.old i []) }
    requires pivot_row { IsRow (length chosen.now) chosen.now }
    requires positive { pos 0 <ℤ denom }
    requires narrow { Narrow denom }
    ensures { MatchOption result ((i : ℕ) → i < length rows.old → i ≢ at → IsEliminated (slice_index_or rows.old i []) chosen.now col denom (slice_index_or rows.new i [])) (λ place. (place.0 < length rows.old) × (place.0 ≢ at) × IsWideIn (slice_index_or rows.old place.0 []) chosen.now col denom place.1) }
{
    for i in 0..rows.len() {
        if i != at {
            if let Some(k) = rows[i].eliminate(chosen, col, denom) {
                return Some((i, k));
            }
        }
    }
    None
}

/// The name of a row over this basis.
fn row_name(basis: &[u32], row: usize) -> RowName
    requires { row < length basis.now + 3 }
    ensures { NamesRow basis.now row result }
{
    let behind = basis.len();
    if row < behind {
        RowName::Basic(basis[row])
    } else if row == behind {
        RowName::First
    } else if row == behind + 1 {
        RowName::Second
    } else {
        RowName::Phase
    }
}

impl Dense {
    /// The starting tableau of the program: each row with its artificial column, then the payoff rows turned and the
    /// artificial rows' sum turned.
    pub fn start(alloc: Global, lp: &Lp) -> Result<Dense, NoMemory>
        requires { StartsNarrow lp.now }
        ensures { IfOk result (λ table. IsStart lp.now (content_of table)) }
    {
        let (program_rows, program_cols) = (lp.rows(), lp.cols());
        Ok(Dense {
            alloc,
            cols: program_cols + program_rows + 1,
            rows: start_rows(alloc, lp)?,
            basis: start_basis(alloc, lp)?,
            denom: 1,
            spent: false,
        })
    }
}

impl Tableau for Dense {
    ghost content = { content_of };

    fn rows(&self) -> u32 {
        self.rows.len() as u32
    }

    fn cols(&self) -> u32 {
        self.cols
    }

    fn entry(&self, row: u32, col: u32) -> i128 {
        i128::from(self.rows[row as usize].at(col as usize))
    }

    fn basic(&self, row: u32) -> u32 {
        self.basis[row as usize]
    }

    fn denom(&self) -> i128 {
        i128::from(self.denom)
    }

    fn pivot(&mut self, row: u32, col: u32) -> Result<(), PivotEnd> {
        let (at, column) = (row as usize, col as usize);
        let mut chosen = mem::replace(&mut self.rows[at], Row::new(self.alloc));
        chosen.make_positive(column);
        let wide = eliminate_others(&mut self.rows, at, &chosen, column, self.denom);
        self.denom = chosen.at(column);
        self.rows[at] = chosen;
        self.basis[at] = col;
        match wide {
            None => Ok(()),
            Some((row, col)) => {
                self.spent = true;
                Err(PivotEnd::Wide(Place {
                    row: row_name(&self.basis, row),
                    col: col as u32,
                }))
            }
        }
    }
}
