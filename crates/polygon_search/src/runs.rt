// Runs of steps: to a feasible basis, and to the point of the polygon furthest along a direction.
use crate::costs::Objective;
use crate::headings::Heading;
use crate::numbers::Measure;
use crate::simplex::Simplex;
use crate::steps::Board;
use crate::stops::{Stop, item, known, put};
use std::cmp::Ordering;

/// How many columns may be refused before the perturbation is drawn anew.
const MOST_REFUSED: usize = 50;

/// How often in a row it may be drawn anew for that.
const MOST_SHAKES: u32 = 3;

/// Columns that were refused since the last step, and how often the perturbation was drawn anew since.
#[derive(Drop)]
struct Refused {
    cols: Vec<u32>,
    shakes: u32,
}

/// Whether a run goes on.
#[derive(Clone, Copy, PartialEq, Eq)]
enum Progress {
    GoesOn,
    HasEnded,
}

impl Simplex {
    /// Sets a column aside until the next step.
    fn refuse(&mut self, refused: &mut Refused, col: u32) -> Result<(), Stop> {
        let mut column = item(&self.columns, col)?;
        column.along = Measure::zero();
        put(&mut self.columns, col, column)?;
        refused.cols.push(col)?;
        Ok(())
    }

    /// Begins a run along a direction: all weights are alike, and the columns' costs along it are read.
    fn begin_run(&mut self, heading: Heading, refused: &mut Refused) -> Result<(), Stop> {
        self.heading = heading;
        for col in 0..self.program.cols() {
            let mut column = item(&self.columns, col)?;
            column.weight = 0;
            put(&mut self.columns, col, column)?;
            if column.is_open && !self.is_basic(col) && !self.measure(col)? {
                self.refuse(refused, col)?;
            }
        }
        Ok(())
    }

    /// Takes the refused columns up again, but for those whose costs still can't be read.
    fn readmit(&mut self, refused: &mut Refused) -> Result<(), Stop> {
        let mut kept = 0_u32;
        for number in 0..refused.cols.len() {
            let col = known(refused.cols.get(number).copied())?;
            if !self.is_basic(col) && !self.measure(col)? {
                put(&mut refused.cols, kept, col)?;
                kept = kept.saturating_add(1);
            }
        }
        refused.cols.truncate(kept as usize);
        Ok(())
    }

    /// Draws the perturbation anew and takes the refused columns up again, unless that was done too often.
    fn try_again(&mut self, refused: &mut Refused) -> Result<Progress, Stop> {
        if refused.shakes >= MOST_SHAKES {
            return Err(Stop::FoundNothing);
        }
        refused.shakes = refused.shakes.saturating_add(1);
        self.shake()?;
        self.readmit(refused)?;
        Ok(Progress::GoesOn)
    }

    /// Offers the next column to enter.
    fn advance(&mut self, board: &mut Board, refused: &mut Refused) -> Result<Progress, Stop> {
        let Some(col) = self.offered()? else {
            if refused.cols.is_empty() {
                return Ok(Progress::HasEnded);
            }
            return self.try_again(refused);
        };
        if !self.step(board, col)? {
            self.refuse(refused, col)?;
            if refused.cols.len() > MOST_REFUSED {
                return self.try_again(refused);
            }
            return Ok(Progress::GoesOn);
        }
        refused.shakes = 0;
        self.budget.steps = known(self.budget.steps.checked_sub(1))?;
        self.readmit(refused)?;
        Ok(Progress::GoesOn)
    }

    /// Whether the first phase is over: the first row's unit column isn't basic.
    fn is_feasible(&self) -> bool {
        !self.is_basic(self.program.cols())
    }

    /// Steps until no open column improves the direction or, in the first phase, until the basis is feasible.
    fn run(&mut self, board: &mut Board, heading: Heading, first_phase: bool) -> Result<(), Stop> {
        let mut refused = Refused {
            cols: Vec::new(self.alloc),
            shakes: 0,
        };
        self.begin_run(heading, &mut refused)?;
        for _ in 0..u32::MAX {
            if first_phase && self.is_feasible() {
                return Ok(());
            }
            if self.advance(board, &mut refused)? == Progress::HasEnded {
                return Ok(());
            }
        }
        Err(Stop::FoundNothing)
    }

    /// Leads to a feasible basis, and makes the reduced costs of the payoffs there.
    pub fn make_feasible(&mut self, board: &mut Board) -> Result<(), Stop> {
        self.shake()?;
        self.set_costs(Objective::Feasible, Objective::Nothing)?;
        self.run(board, Heading { one: 1, two: 0 }, true)?;
        if !self.is_feasible() {
            return Err(Stop::FoundNothing);
        }
        self.set_costs(Objective::One, Objective::Two)
    }

    /// Opens all columns, or leaves open those alone that cost nothing along the direction.
    fn open(&mut self, all: bool) -> Result<(), Stop> {
        for col in 0..self.program.cols() {
            let mut column = item(&self.columns, col)?;
            column.is_open = all || self.is_basic(col) || column.along.sign == Ordering::Equal;
            put(&mut self.columns, col, column)?;
        }
        Ok(())
    }

    /// Leads to the point that is furthest along a direction and, of all these, along another one.
    pub fn lead(&mut self, board: &mut Board, heading: Heading, next: Heading) -> Result<(), Stop> {
        self.open(true)?;
        self.run(board, heading, false)?;
        self.open(false)?;
        self.run(board, next, false)
    }
}
