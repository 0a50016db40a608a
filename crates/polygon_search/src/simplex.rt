// The state of the simplex method: a basis with its values, and the reduced costs of the columns.
use crate::contents::{Payoffs, Primitive};
use crate::headings::Heading;
use crate::numbers::{Measure, combined};
use crate::stops::{Stop, item, known, put};
use basis_lu::Factor;
use residues::{Fraction, Reader, Residue};
use std::alloc::Global;
use std::cmp::Ordering;

/// A number in both forms.
#[derive(Clone, Copy)]
pub struct Number {
    pub residue: Residue,
    pub fraction: Fraction,
}

impl Number {
    pub fn whole(value: i64) -> Number {
        let short = if value.unsigned_abs() < 1 << 62 {
            value
        } else {
            0
        };
        Number {
            residue: Residue::of(short),
            fraction: Fraction { num: short, den: 1 },
        }
    }
}

/// The value of a basic column: what the right sides give it, and what a random perturbation of them does, which decides
/// between equal values alone (Charnes 1952; lexicographic, as in Dantzig, Orden and Wolfe 1955).
#[derive(Clone, Copy)]
pub struct Value {
    pub right: Number,
    pub shaken: Number,
}

impl Value {
    pub fn zero() -> Value {
        Value {
            right: Number::whole(0),
            shaken: Number::whole(0),
        }
    }
}

/// A column's reduced costs for both players' payoffs, what they come to along the direction, its weight in the choice of
/// the next column, and whether it may enter.
#[derive(Clone, Copy)]
pub struct Column {
    pub costs: Payoffs,
    pub along: Measure,
    pub weight: i32,
    pub is_open: bool,
}

impl Column {
    fn new() -> Column {
        Column {
            costs: Payoffs::nothing(),
            along: Measure::zero(),
            weight: 0,
            is_open: true,
        }
    }
}

/// No row.
pub const NO_ROW: u32 = u32::MAX;

/// The steps and the work that an attempt may still take.
#[derive(Clone, Copy)]
pub struct Budget {
    pub steps: u32,
    pub work: u64,
}

/// A basis of a program on the way, with all that is known there.
#[derive(Drop)]
pub struct Simplex {
    pub alloc: Global,
    pub program: Primitive,
    pub factor: Factor,
    /// The row of each basic column, those of the program before the unit columns; `NO_ROW` of another.
    pub slots: Vec<u32>,
    pub values: Vec<Value>,
    pub columns: Vec<Column>,
    pub heading: Heading,
    pub reader: Reader,
    pub random: u64,
    pub cursor: u32,
    pub compared: u32,
    pub budget: Budget,
    /// The wide readings that were paid for.
    pub paid_reads: u64,
}

/// What reduced costs come to along a direction. None where it can't be read.
pub fn measured(reader: &mut Reader, heading: &Heading, costs: &Payoffs) -> Option<Measure> {
    let along = costs
        .one
        .times(Residue::of(heading.one))
        .plus(costs.two.times(Residue::of(heading.two)));
    if along.is_zero() {
        return Some(Measure::zero());
    }
    if let Some(fraction) = reader.read(along) {
        return Some(Measure::of(&fraction));
    }
    if heading.one == 0 || heading.two == 0 {
        return None;
    }
    let one = reader.read(costs.one)?;
    let two = reader.read(costs.two)?;
    Some(combined(heading, &one, &two))
}

/// The candidates for a first basis: the unit column of the first row, what stands alone in a row, and the other columns.
fn candidates(alloc: Global, program: &Primitive) -> Result<Vec<u32>, Stop> {
    let mut list = Vec::new(alloc);
    list.push(program.cols())?;
    add_columns(program, true, &mut list)?;
    add_columns(program, false, &mut list)?;
    Ok(list)
}

/// Adds the columns with one coefficient, or those with more.
fn add_columns(program: &Primitive, alone: bool, list: &mut Vec<u32>) -> Result<(), Stop> {
    for col in 0..program.cols() {
        if (program.matrix.column(col).len() == 1) == alone {
            list.push(col)?;
        }
    }
    Ok(())
}

/// The rows of a basis' columns.
fn slots_of(alloc: Global, program: &Primitive, factor: &Factor) -> Result<Vec<u32>, Stop> {
    let count = (program.cols() as usize).saturating_add(program.rows() as usize);
    let mut slots: Vec<u32> = vec![in alloc; NO_ROW; count]?;
    for row in 0..program.rows() {
        put(&mut slots, factor.column_at(row), row)?;
    }
    Ok(slots)
}

impl Simplex {
    /// A first basis, which is feasible since the right sides are 1 in the first row and 0 in the others.
    pub fn start(
        alloc: Global,
        program: Primitive,
        compared: u32,
        seed: u64,
    ) -> Result<Simplex, Stop> {
        let first = candidates(alloc, &program)?;
        let factor = known(Factor::of(alloc, &program.matrix, &first)?)?;
        let slots = slots_of(alloc, &program, &factor)?;
        let mut values: Vec<Value> = vec![in alloc; Value::zero(); slots.len()]?;
        let first_unit = Value {
            right: Number::whole(1),
            shaken: Number::whole(0),
        };
        put(&mut values, program.cols(), first_unit)?;
        let columns: Vec<Column> = vec![in alloc; Column::new(); program.cols() as usize]?;
        let size = program.cols().saturating_add(program.rows());
        Ok(Simplex {
            alloc,
            program,
            factor,
            slots,
            values,
            columns,
            heading: Heading { one: 1, two: 0 },
            reader: Reader::new(),
            random: seed,
            cursor: 0,
            compared,
            budget: Budget {
                steps: size.saturating_mul(4).saturating_add(2000),
                work: 1 << 30,
            },
            paid_reads: 0,
        })
    }

    pub fn is_basic(&self, col: u32) -> bool {
        match self.slots.get(col as usize) {
            Some(row) => *row != NO_ROW,
            None => false,
        }
    }

    /// Takes this work off the budget, and that of the wide readings since the last time.
    pub fn spend(&mut self, work: u64) -> Result<(), Stop> {
        let reads = self.reader.wide_reads();
        let of_reads = reads.saturating_sub(self.paid_reads).saturating_mul(400);
        self.paid_reads = reads;
        self.budget.work = known(self.budget.work.checked_sub(work.saturating_add(of_reads)))?;
        Ok(())
    }

    /// The next random number of 1 to 4096 (Knuth, The Art of Computer Programming 2, 3.3.4, has the multiplier).
    fn next_random(&mut self) -> i64 {
        self.random = self
            .random
            .wrapping_mul(6_364_136_223_846_793_005)
            .wrapping_add(1_442_695_040_888_963_407);
        i64::try_from(self.random >> 52)
            .unwrap_or(0)
            .saturating_add(1)
    }

    /// Draws the perturbation anew: each basic column of the program gets a random value of it, and the right sides are
    /// perturbed by what these values come to.
    pub fn shake(&mut self) -> Result<(), Stop> {
        for row in 0..self.program.rows() {
            let col = self.factor.column_at(row);
            let drawn = self.next_random();
            let is_unit = col >= self.program.cols();
            let mut value = item(&self.values, col)?;
            value.shaken = Number::whole(if is_unit { 0 } else { drawn });
            put(&mut self.values, col, value)?;
        }
        Ok(())
    }

    /// Factors the present basis anew, which has to keep its columns.
    pub fn refactor(&mut self) -> Result<(), Stop> {
        let mut basis = Vec::with_capacity(self.alloc, self.program.rows() as usize)?;
        for row in 0..self.program.rows() {
            basis.push(self.factor.column_at(row))?;
        }
        self.factor = known(Factor::of(self.alloc, &self.program.matrix, &basis)?)?;
        for row in 0..self.program.rows() {
            let col = self.factor.column_at(row);
            if !self.is_basic(col) {
                return Err(Stop::FoundNothing);
            }
            put(&mut self.slots, col, row)?;
        }
        Ok(())
    }
}
