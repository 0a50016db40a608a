// A polygon that is proposed for a program.
use crate::contents::Primitive;
use crate::simplex::Simplex;
use crate::steps::Board;
use crate::stops::Stop;
use crate::walks::walk_round;
use lp_form::Lp;
use polygon_sweep::Swept;
use std::alloc::{AllocError as NoMemory, Global};

/// A way to search: how many columns that would improve are compared before one enters, and the number that random
/// numbers begin with.
#[derive(Clone, Copy)]
pub struct Attempt {
    pub compared: u32,
    pub seed: u64,
}

fn search(alloc: Global, lp: &Lp, attempt: Attempt) -> Result<Swept, Stop> {
    let program = Primitive::of(alloc, lp)?;
    let mut board = Board::new(alloc, &program)?;
    let mut simplex = Simplex::start(alloc, program, attempt.compared, attempt.seed)?;
    simplex.make_feasible(&mut board)?;
    walk_round(lp, simplex, board)
}

/// The corners and sides of the program's polygon, as far as a search can tell: nothing is promised of them. None where
/// it found nothing within its budget and its numbers.
///
/// The right sides have to be 1 in the first row and 0 in the others: of another program nothing right is proposed.
pub fn propose(alloc: Global, lp: &Lp, attempt: Attempt) -> Result<Option<Swept>, NoMemory> {
    match search(alloc, lp, attempt) {
        Ok(swept) => Ok(Some(swept)),
        Err(Stop::FoundNothing) => Ok(None),
        Err(Stop::NoMemory) => Err(NoMemory),
    }
}
