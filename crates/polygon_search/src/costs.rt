// Objectives, the multipliers of the rows for them, and the reduced costs of the columns.
use crate::contents::{Payoffs, Primitive};
use crate::simplex::{Column, Simplex, measured};
use crate::stops::{Stop, item, put};
use residues::Residue;

/// What is made greatest.
#[derive(Clone, Copy, PartialEq, Eq)]
pub enum Objective {
    One,
    Two,
    /// That the first row holds: less of its unit column.
    Feasible,
    Nothing,
}

/// Takes a row's coefficients, times the multipliers of a row, into reduced costs.
fn add_costs(
    program: &Primitive,
    row: u32,
    weights: &Payoffs,
    columns: &mut Vec<Column>,
) -> Result<(), Stop> {
    if weights.one.is_zero() && weights.two.is_zero() {
        return Ok(());
    }
    for coefficient in program.row(row) {
        let mut column = item(columns, coefficient.col)?;
        let costs = column.costs;
        column.costs = Payoffs {
            one: costs.one.plus(weights.one.times(coefficient.value)),
            two: costs.two.plus(weights.two.times(coefficient.value)),
        };
        put(columns, coefficient.col, column)?;
    }
    Ok(())
}

impl Simplex {
    /// What a column brings to the objective.
    fn gain(&self, objective: Objective, col: u32) -> Residue {
        let paid = match self.program.payoffs.get(col as usize) {
            Some(payoffs) => *payoffs,
            None => Payoffs::nothing(),
        };
        match objective {
            Objective::One => paid.one,
            Objective::Two => paid.two,
            Objective::Feasible if col == self.program.cols() => Residue::one().negated(),
            _ => Residue::zero(),
        }
    }

    /// The multiplier of each row at the present basis.
    pub fn multipliers(&self, objective: Objective) -> Result<Vec<Residue>, Stop> {
        let rows = self.program.rows();
        let mut list = Vec::with_capacity(self.alloc, rows as usize)?;
        for row in 0..rows {
            list.push(self.gain(objective, self.factor.column_at(row)))?;
        }
        self.factor.solve_transposed(&mut list);
        Ok(list)
    }

    /// Begins the reduced costs with what the columns bring, taken away.
    fn begin_costs(&mut self, first: Objective, second: Objective) -> Result<(), Stop> {
        for col in 0..self.program.cols() {
            let mut column = item(&self.columns, col)?;
            column.costs = Payoffs {
                one: self.gain(first, col).negated(),
                two: self.gain(second, col).negated(),
            };
            put(&mut self.columns, col, column)?;
        }
        Ok(())
    }

    /// Makes all reduced costs for these objectives.
    pub fn set_costs(&mut self, first: Objective, second: Objective) -> Result<(), Stop> {
        let one = self.multipliers(first)?;
        let two = self.multipliers(second)?;
        self.begin_costs(first, second)?;
        for row in 0..self.program.rows() {
            let weights = Payoffs {
                one: item(&one, row)?,
                two: item(&two, row)?,
            };
            add_costs(&self.program, row, &weights, &mut self.columns)?;
        }
        Ok(())
    }

    /// Reads what a column's reduced costs come to along the direction. False where that can't be read.
    pub fn measure(&mut self, col: u32) -> Result<bool, Stop> {
        let mut column = item(&self.columns, col)?;
        let Some(along) = measured(&mut self.reader, &self.heading, &column.costs) else {
            return Ok(false);
        };
        column.along = along;
        put(&mut self.columns, col, column)?;
        Ok(true)
    }
}
