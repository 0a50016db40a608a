// One step: a column enters the basis and another one leaves it.
use crate::contents::{Payoffs, Primitive};
use crate::numbers::{Ratio, order_of, size_of};
use crate::simplex::{Column, NO_ROW, Number, Simplex, Value, measured};
use crate::stops::{Stop, item, known, put};
use residues::{Fraction, Reader, Residue};
use std::alloc::Global;
use std::cmp::Ordering;

/// A number of the entering column over the basis.
#[derive(Clone, Copy)]
struct Entry {
    row: u32,
    col: u32,
    number: Number,
}

/// A new value of a basic column.
#[derive(Clone, Copy)]
struct NewValue {
    col: u32,
    value: Value,
}

/// What a column of the program becomes.
#[derive(Clone, Copy)]
struct NewColumn {
    col: u32,
    column: Column,
}

/// The lists that a step fills, kept from step to step.
#[derive(Drop)]
pub struct Board {
    image: Vec<Residue>,
    entries: Vec<Entry>,
    multipliers: Vec<Residue>,
    row: Vec<Residue>,
    touched: Vec<u32>,
    is_touched: Vec<bool>,
    values: Vec<NewValue>,
    columns: Vec<NewColumn>,
    needs_shake: bool,
}

/// The row that a column leaves, and where it stands among the entries.
#[derive(Clone, Copy)]
struct Pivot {
    entering: u32,
    leaving: u32,
    row: u32,
    number: Number,
    inverse: Residue,
}

impl Board {
    pub fn new(alloc: Global, program: &Primitive) -> Result<Board, Stop> {
        let rows = program.rows() as usize;
        let cols = program.cols() as usize;
        Ok(Board {
            image: vec![in alloc; Residue::zero(); rows]?,
            entries: Vec::new(alloc),
            multipliers: vec![in alloc; Residue::zero(); rows]?,
            row: vec![in alloc; Residue::zero(); cols]?,
            touched: Vec::new(alloc),
            is_touched: vec![in alloc; false; cols]?,
            values: Vec::new(alloc),
            columns: Vec::new(alloc),
            needs_shake: false,
        })
    }

    /// Forgets the row of the last step.
    fn clear_row(&mut self) -> Result<(), Stop> {
        for col in self.touched.iter() {
            put(&mut self.row, *col, Residue::zero())?;
            put(&mut self.is_touched, *col, false)?;
        }
        self.touched.clear();
        Ok(())
    }

    /// Adds a program row, times its multiplier, to the row of the step.
    fn add_row(&mut self, program: &Primitive, slots: &[u32], row: u32) -> Result<(), Stop> {
        let multiplier = item(&self.multipliers, row)?;
        if multiplier.is_zero() {
            return Ok(());
        }
        for coefficient in program.row(row) {
            let col = coefficient.col;
            if item(slots, col)? != NO_ROW {
                continue;
            }
            let sum = item(&self.row, col)?.plus(multiplier.times(coefficient.value));
            put(&mut self.row, col, sum)?;
            self.touch(col)?;
        }
        Ok(())
    }

    fn touch(&mut self, col: u32) -> Result<(), Stop> {
        if !item(&self.is_touched, col)? {
            put(&mut self.is_touched, col, true)?;
            self.touched.push(col)?;
        }
        Ok(())
    }
}

fn number_of(reader: &mut Reader, residue: Residue) -> Option<Number> {
    let fraction = reader.read(residue)?;
    Some(Number { residue, fraction })
}

/// One number less a multiple of another one.
fn lessened(
    reader: &mut Reader,
    number: &Number,
    factor: Residue,
    other: Residue,
) -> Option<Number> {
    if factor.is_zero() {
        return Some(*number);
    }
    number_of(reader, number.residue.minus_product(factor, other))
}

/// The order of two rows' ratios: of the right sides, and where these are the same of the perturbation.
fn order_of_values(one: &Value, by: &Fraction, two: &Value, under: &Fraction) -> Ordering {
    let ratio = |over: Fraction, under: Fraction| -> Ratio { Ratio { over, under } };
    order_of(
        &ratio(one.right.fraction, *by),
        &ratio(two.right.fraction, *under),
    )
    .then(order_of(
        &ratio(one.shaken.fraction, *by),
        &ratio(two.shaken.fraction, *under),
    ))
}

impl Simplex {
    /// The entering column over the basis. False where it can't be read.
    fn make_image(&mut self, board: &mut Board, entering: u32) -> Result<bool, Stop> {
        board.image.fill(Residue::zero());
        for cell in self.program.matrix.column(entering) {
            put(&mut board.image, cell.row, cell.value)?;
        }
        self.factor.solve(&mut board.image);
        self.read_image(board)
    }

    fn read_image(&mut self, board: &mut Board) -> Result<bool, Stop> {
        board.entries.clear();
        for row in 0..self.program.rows() {
            let residue = item(&board.image, row)?;
            if residue.is_zero() {
                continue;
            }
            let Some(number) = number_of(&mut self.reader, residue) else {
                return Ok(false);
            };
            let col = self.factor.column_at(row);
            board.entries.push(Entry { row, col, number })?;
        }
        Ok(true)
    }

    /// The entry at which the entering column first meets a bound.
    fn least_ratio(&self, board: &Board) -> Result<Entry, Stop> {
        let mut least: Option<Entry> = None;
        for entry in board.entries.iter() {
            let sign = entry.number.fraction.num.cmp(&0);
            if sign == Ordering::Less && entry.col > self.program.cols() {
                return Err(Stop::FoundNothing);
            }
            if sign == Ordering::Greater && self.is_sooner(entry, &least)? {
                least = Some(*entry);
            }
        }
        known(least)
    }

    fn is_sooner(&self, entry: &Entry, least: &Option<Entry>) -> Result<bool, Stop> {
        let Some(least) = least else {
            return Ok(true);
        };
        let one = item(&self.values, entry.col)?;
        let two = item(&self.values, least.col)?;
        let order = order_of_values(&one, &entry.number.fraction, &two, &least.number.fraction);
        Ok(order == Ordering::Less)
    }

    /// The row of the pivot over the columns that aren't basic.
    fn make_row(&mut self, board: &mut Board, row: u32) -> Result<(), Stop> {
        board.clear_row()?;
        board.multipliers.fill(Residue::zero());
        put(&mut board.multipliers, row, Residue::one())?;
        self.factor.solve_transposed(&mut board.multipliers);
        for row in 0..self.program.rows() {
            board.add_row(&self.program, &self.slots, row)?;
        }
        Ok(())
    }

    /// The values after the step. False where one that is needed can't be read or is below 0.
    fn make_values(&mut self, board: &mut Board, pivot: &Pivot) -> Result<bool, Stop> {
        let old = item(&self.values, pivot.leaving)?;
        let right = old.right.residue.times(pivot.inverse);
        let shaken = old.shaken.residue.times(pivot.inverse);
        let base = Value {
            right: Number::whole(0),
            shaken: Number::whole(0),
        };
        board.values.clear();
        board.needs_shake = false;
        let minus_one = Residue::one().negated();
        let entered = self.moved(board, &base, (right, shaken), minus_one);
        let Some(value) = entered else {
            return Ok(false);
        };
        board.values.push(NewValue {
            col: pivot.entering,
            value,
        })?;
        self.move_others(board, pivot, (right, shaken))
    }

    /// A value less what the step takes from it, by the residue of the entering column there.
    fn moved(
        &mut self,
        board: &mut Board,
        value: &Value,
        by: (Residue, Residue),
        residue: Residue,
    ) -> Option<Value> {
        let right = lessened(&mut self.reader, &value.right, by.0, residue)?;
        if right.fraction.num < 0 {
            return None;
        }
        let shaken = match lessened(&mut self.reader, &value.shaken, by.1, residue) {
            Some(shaken) => shaken,
            None => {
                board.needs_shake = true;
                Number::whole(0)
            }
        };
        if right.fraction.num == 0 && shaken.fraction.num < 0 {
            board.needs_shake = true;
        }
        Some(Value { right, shaken })
    }

    fn move_others(
        &mut self,
        board: &mut Board,
        pivot: &Pivot,
        by: (Residue, Residue),
    ) -> Result<bool, Stop> {
        for number in 0..board.entries.len() {
            let Some(entry) = board.entries.get(number) else {
                break;
            };
            let (col, residue) = (entry.col, entry.number.residue);
            if col == pivot.leaving {
                continue;
            }
            let old = item(&self.values, col)?;
            let Some(value) = self.moved(board, &old, by, residue) else {
                return Ok(false);
            };
            board.values.push(NewValue { col, value })?;
        }
        Ok(true)
    }

    /// The reduced costs and weights after the step. False where one that is needed can't be read.
    fn make_columns(&mut self, board: &mut Board, pivot: &Pivot) -> Result<bool, Stop> {
        board.columns.clear();
        let entering = item(&self.columns, pivot.entering)?;
        let by = Payoffs {
            one: entering.costs.one.times(pivot.inverse),
            two: entering.costs.two.times(pivot.inverse),
        };
        if !self.add_leaving(board, pivot, &by, entering.weight)? {
            return Ok(false);
        }
        for number in 0..board.touched.len() {
            let Some(col) = board.touched.get(number) else {
                break;
            };
            let col = *col;
            if col != pivot.entering && !self.add_touched(board, pivot, &by, col)? {
                return Ok(false);
            }
        }
        Ok(true)
    }

    /// The column that leaves, where it is one of the program's.
    fn add_leaving(
        &mut self,
        board: &mut Board,
        pivot: &Pivot,
        by: &Payoffs,
        weight: i32,
    ) -> Result<bool, Stop> {
        if pivot.leaving >= self.program.cols() {
            return Ok(true);
        }
        let costs = Payoffs {
            one: by.one.negated(),
            two: by.two.negated(),
        };
        let Some(along) = measured(&mut self.reader, &self.heading, &costs) else {
            return Ok(false);
        };
        let fall = size_of(&pivot.number.fraction).saturating_mul(2);
        let column = Column {
            costs,
            along,
            weight: weight.saturating_sub(fall).max(0),
            is_open: true,
        };
        board.columns.push(NewColumn {
            col: pivot.leaving,
            column,
        })?;
        Ok(true)
    }

    /// A column in which the pivot's row has a number.
    fn add_touched(
        &mut self,
        board: &mut Board,
        pivot: &Pivot,
        by: &Payoffs,
        col: u32,
    ) -> Result<bool, Stop> {
        let residue = item(&board.row, col)?;
        if residue.is_zero() {
            return Ok(true);
        }
        let mut column = item(&self.columns, col)?;
        let costs = column.costs;
        column.costs = Payoffs {
            one: costs.one.minus_product(by.one, residue),
            two: costs.two.minus_product(by.two, residue),
        };
        if column.is_open {
            let Some(along) = measured(&mut self.reader, &self.heading, &column.costs) else {
                return Ok(false);
            };
            column.along = along;
            column.weight = self.heavier(pivot, &column, residue)?;
        }
        board.columns.push(NewColumn { col, column })?;
        Ok(true)
    }

    /// A column's weight after the step, after Harris (1973) with powers of 2 alone.
    fn heavier(&mut self, pivot: &Pivot, column: &Column, residue: Residue) -> Result<i32, Stop> {
        let Some(fraction) = self.reader.read(residue) else {
            return Ok(column.weight);
        };
        let growth = size_of(&fraction)
            .saturating_sub(size_of(&pivot.number.fraction))
            .saturating_mul(2);
        let entering = item(&self.columns, pivot.entering)?;
        Ok(column.weight.max(growth.saturating_add(entering.weight)))
    }

    /// Puts the new values and columns into the places of the old ones.
    fn take_over(&mut self, board: &Board, pivot: &Pivot) -> Result<(), Stop> {
        put(&mut self.values, pivot.leaving, Value::zero())?;
        for new in board.values.iter() {
            put(&mut self.values, new.col, new.value)?;
        }
        for new in board.columns.iter() {
            put(&mut self.columns, new.col, new.column)?;
        }
        self.enter(pivot)
    }

    fn enter(&mut self, pivot: &Pivot) -> Result<(), Stop> {
        let mut column = item(&self.columns, pivot.entering)?;
        column.costs = Payoffs::nothing();
        column.along = crate::numbers::Measure::zero();
        put(&mut self.columns, pivot.entering, column)?;
        put(&mut self.slots, pivot.leaving, NO_ROW)?;
        put(&mut self.slots, pivot.entering, pivot.row)
    }

    /// Changes the basis, and factors it anew where the changes have grown.
    fn change_basis(&mut self, board: &Board, pivot: &Pivot) -> Result<(), Stop> {
        let fits = self
            .factor
            .exchange(pivot.row, pivot.entering, &board.image)?;
        if !fits {
            return Err(Stop::FoundNothing);
        }
        let cells = u64::from(self.factor.cells());
        let changes = u64::from(self.factor.update_cells());
        self.spend(
            cells
                .saturating_add(changes)
                .saturating_add(board.touched.len() as u64),
        )?;
        let room = cells
            .saturating_mul(2)
            .saturating_add(u64::from(self.program.rows()).saturating_mul(4));
        if self.factor.updates() >= 24 || changes > room {
            self.refactor()?;
        }
        Ok(())
    }

    /// Lets a column enter. False, with nothing changed, where a number that is needed would be too wide.
    pub fn step(&mut self, board: &mut Board, entering: u32) -> Result<bool, Stop> {
        if !self.make_image(board, entering)? {
            return Ok(false);
        }
        let least = self.least_ratio(board)?;
        let pivot = Pivot {
            entering,
            leaving: least.col,
            row: least.row,
            number: least.number,
            inverse: known(least.number.residue.inverse())?,
        };
        if !self.make_values(board, &pivot)? {
            return Ok(false);
        }
        self.make_row(board, pivot.row)?;
        if !self.make_columns(board, &pivot)? {
            return Ok(false);
        }
        self.take_over(board, &pivot)?;
        self.change_basis(board, &pivot)?;
        if board.needs_shake {
            self.shake()?;
        }
        Ok(true)
    }
}
