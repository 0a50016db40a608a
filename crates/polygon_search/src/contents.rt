// A program whose rows and payoff rows are divided by what all their numbers have in common.
use crate::stops::{Stop, item, known, put};
use basis_lu::Matrix;
use corr_game::Side;
use corr_num::gcd;
use lp_form::{Entry, Lp};
use residues::Residue;
use std::alloc::Global;

/// A coefficient of a program, by its place.
#[derive(Clone, Copy)]
pub struct Coefficient {
    pub row: u32,
    pub col: u32,
    pub value: Residue,
}

/// What a column pays the two players, or costs them.
#[derive(Clone, Copy)]
pub struct Payoffs {
    pub one: Residue,
    pub two: Residue,
}

impl Payoffs {
    pub fn nothing() -> Payoffs {
        Payoffs {
            one: Residue::zero(),
            two: Residue::zero(),
        }
    }
}

/// A program over residues, by columns and by rows, with what each row and each payoff row was divided by.
#[derive(Drop)]
pub struct Primitive {
    pub matrix: Matrix,
    coefficients: Vec<Coefficient>,
    starts: Vec<u32>,
    pub payoffs: Vec<Payoffs>,
    pub contents: Vec<i64>,
    pub one: i64,
    pub two: i64,
}

/// The greatest number that divides all of a row's; 1 of a row without numbers.
fn content_of(entries: &[Entry]) -> i64 {
    let mut content = 0_u128;
    for entry in entries {
        content = gcd(content, u128::from(entry.value.unsigned_abs()));
    }
    match i64::try_from(content) {
        Ok(content) => content.max(1),
        Err(_) => 1,
    }
}

fn divided(entry: &Entry, content: i64) -> Residue {
    Residue::of(entry.value.checked_div(content).unwrap_or(entry.value))
}

/// Adds a row's coefficients, and hands out its content.
fn add_row(entries: &[Entry], row: u32, to: &mut Vec<Coefficient>) -> Result<i64, Stop> {
    let content = content_of(entries);
    for entry in entries {
        to.push(Coefficient {
            row,
            col: entry.col,
            value: divided(entry, content),
        })?;
    }
    Ok(content)
}

/// For each column its first coefficient, and for each coefficient the next one of its column. A number that is too great
/// ends a chain.
#[derive(Drop)]
struct Chains {
    heads: Vec<u32>,
    nexts: Vec<u32>,
}

fn chains_of(alloc: Global, coefficients: &[Coefficient], cols: u32) -> Result<Chains, Stop> {
    let mut heads: Vec<u32> = vec![in alloc; u32::MAX; cols as usize]?;
    let mut nexts: Vec<u32> = Vec::with_capacity(alloc, coefficients.len())?;
    for (number, coefficient) in coefficients.iter().enumerate() {
        nexts.push(item(&heads, coefficient.col)?)?;
        put(
            &mut heads,
            coefficient.col,
            known(u32::try_from(number).ok())?,
        )?;
    }
    Ok(Chains { heads, nexts })
}

/// Puts one column's coefficients into the matrix.
fn add_column(
    matrix: &mut Matrix,
    coefficients: &[Coefficient],
    nexts: &[u32],
    head: u32,
) -> Result<(), Stop> {
    let mut at = head;
    for _ in 0..matrix.rows() {
        let Some(coefficient) = coefficients.get(at as usize) else {
            break;
        };
        matrix.put(coefficient.row, coefficient.value)?;
        at = item(nexts, at)?;
    }
    matrix.end_column()?;
    Ok(())
}

fn by_columns(
    alloc: Global,
    coefficients: &[Coefficient],
    rows: u32,
    cols: u32,
) -> Result<Matrix, Stop> {
    let chains = chains_of(alloc, coefficients, cols)?;
    let mut matrix = Matrix::new(alloc, rows);
    for head in chains.heads.iter() {
        add_column(&mut matrix, coefficients, &chains.nexts, *head)?;
    }
    Ok(matrix)
}

fn divided_payoffs(alloc: Global, lp: &Lp, side: Side, content: i64) -> Result<Vec<Residue>, Stop> {
    let mut payoffs: Vec<Residue> = vec![in alloc; Residue::zero(); lp.cols() as usize]?;
    for entry in lp.payoffs(side) {
        put(&mut payoffs, entry.col, divided(entry, content))?;
    }
    Ok(payoffs)
}

fn both_payoffs(alloc: Global, lp: &Lp, one: i64, two: i64) -> Result<Vec<Payoffs>, Stop> {
    let first = divided_payoffs(alloc, lp, Side::One, one)?;
    let second = divided_payoffs(alloc, lp, Side::Two, two)?;
    let mut both = Vec::with_capacity(alloc, first.len())?;
    for (one, two) in first.iter().zip(second.iter()) {
        both.push(Payoffs {
            one: *one,
            two: *two,
        })?;
    }
    Ok(both)
}

impl Primitive {
    pub fn of(alloc: Global, lp: &Lp) -> Result<Primitive, Stop> {
        let mut coefficients = Vec::new(alloc);
        let mut starts = Vec::new(alloc);
        let mut contents = Vec::new(alloc);
        starts.push(0)?;
        for row in 0..lp.rows() {
            contents.push(add_row(lp.row(row), row, &mut coefficients)?)?;
            starts.push(known(u32::try_from(coefficients.len()).ok())?)?;
        }
        let one = content_of(lp.payoffs(Side::One));
        let two = content_of(lp.payoffs(Side::Two));
        Ok(Primitive {
            matrix: by_columns(alloc, &coefficients, lp.rows(), lp.cols())?,
            coefficients,
            starts,
            payoffs: both_payoffs(alloc, lp, one, two)?,
            contents,
            one,
            two,
        })
    }

    pub fn rows(&self) -> u32 {
        self.matrix.rows()
    }

    pub fn cols(&self) -> u32 {
        self.matrix.cols()
    }

    /// The coefficients of a row.
    pub fn row(&self, row: u32) -> &[Coefficient] {
        let start = self.starts.get(row as usize);
        let end = self.starts.get((row as usize).saturating_add(1));
        let (Some(start), Some(end)) = (start, end) else {
            return &[];
        };
        self.coefficients
            .get(*start as usize..*end as usize)
            .unwrap_or(&[])
    }
}
