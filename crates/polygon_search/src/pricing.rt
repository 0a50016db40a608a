// Which column is offered to enter next.
use crate::simplex::{Column, Simplex};
use crate::stops::{Stop, item};
use std::cmp::Ordering;

/// A column that may enter, and how much it promises.
#[derive(Clone, Copy)]
struct Offer {
    col: u32,
    promise: i32,
}

/// The gain of a column against its weight, as a logarithm.
fn promise_of(column: &Column) -> i32 {
    column
        .along
        .size
        .saturating_mul(2)
        .saturating_sub(column.weight)
}

fn better(best: Option<Offer>, offer: Offer) -> Offer {
    match best {
        Some(best) if best.promise >= offer.promise => best,
        _ => offer,
    }
}

impl Simplex {
    /// The column before another one, and the last one before the first.
    fn before(&self, col: u32) -> u32 {
        match col.checked_sub(1) {
            Some(before) => before,
            None => self.program.cols().saturating_sub(1),
        }
    }

    /// The most promising one among the next columns that improve the direction; at most `compared` of them are looked
    /// at. None where no column improves it.
    pub fn offered(&mut self) -> Result<Option<u32>, Stop> {
        let mut best: Option<Offer> = None;
        let mut seen = 0_u32;
        for _ in 0..self.program.cols() {
            self.cursor = self.before(self.cursor);
            let column = item(&self.columns, self.cursor)?;
            if !column.is_open || column.along.sign != Ordering::Less {
                continue;
            }
            let offer = Offer {
                col: self.cursor,
                promise: promise_of(&column),
            };
            best = Some(better(best, offer));
            seen = seen.saturating_add(1);
            if seen >= self.compared {
                break;
            }
        }
        Ok(best.map(|offer| offer.col))
    }
}
