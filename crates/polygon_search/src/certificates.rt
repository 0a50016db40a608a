// Sides with their multipliers, at the present basis.
use crate::costs::Objective;
use crate::headings::{Heading, short};
use crate::simplex::Simplex;
use crate::stops::{Stop, item, known};
use crate::vertices::{common_multiple, lowest_den, numerator_over};
use corr_game::Side;
use lp_form::{Lp, NumList};
use plane_hull::{Dir, SideRow};
use polygon_sweep::SweptCorner;
use residues::{Fraction, Reader, Residue};
use std::alloc::Global;

/// Multipliers of the rows for both players, over one denominator.
#[derive(Drop)]
struct Multipliers {
    den: i128,
    first: NumList,
    second: NumList,
}

/// The fractions that residues stand for. None where one is too wide.
fn fractions_of(
    alloc: Global,
    reader: &mut Reader,
    residues: &[Residue],
) -> Result<Option<Vec<Fraction>>, Stop> {
    let mut fractions = Vec::with_capacity(alloc, residues.len())?;
    for residue in residues {
        let Some(fraction) = reader.read(*residue) else {
            return Ok(None);
        };
        fractions.push(fraction)?;
    }
    Ok(Some(fractions))
}

/// The least common multiple of a number and the denominators.
fn common_den(from: i128, fractions: &[Fraction]) -> Option<i128> {
    let mut den = from;
    for fraction in fractions {
        den = common_multiple(den, lowest_den(fraction)?)?;
    }
    Some(den)
}

/// The numerators over a denominator. None where one is too wide.
fn numerators(alloc: Global, fractions: &[Fraction], den: i128) -> Result<Option<NumList>, Stop> {
    let mut list = NumList::with_capacity(alloc, fractions.len())?;
    for fraction in fractions {
        let Some(numerator) = numerator_over(fraction, den) else {
            return Ok(None);
        };
        list.push(numerator)?;
    }
    Ok(Some(list))
}

/// Adds a multiple of a row to sums over the columns. None where that is too wide.
fn add_multiple(entries: &[lp_form::Entry], factor: i128, sums: &mut [i128]) -> Option<()> {
    for entry in entries {
        let sum = sums.get_mut(entry.col as usize)?;
        *sum = sum.checked_add(factor.checked_mul(i128::from(entry.value))?)?;
    }
    Some(())
}

fn add_multiples(lp: &Lp, list: &NumList, sums: &mut [i128]) -> Option<()> {
    for row in 0..lp.rows() {
        if (row as usize) >= list.len() {
            return None;
        }
        let factor = *list.at(row as usize);
        if factor != 0 {
            add_multiple(lp.row(row), factor, sums)?;
        }
    }
    Some(())
}

/// Whether what multipliers leave of each column is narrow for a player.
fn leave_narrow(
    alloc: Global,
    lp: &Lp,
    side: Side,
    den: i128,
    list: &NumList,
) -> Result<bool, Stop> {
    let mut sums: Vec<i128> = vec![in alloc; 0; lp.cols() as usize]?;
    if add_multiples(lp, list, &mut sums).is_none() {
        return Ok(false);
    }
    let Some(minus_den) = den.checked_neg() else {
        return Ok(false);
    };
    if add_multiple(lp.payoffs(side), minus_den, &mut sums).is_none() {
        return Ok(false);
    }
    Ok(sums.iter().all(|sum| short(*sum).is_some()))
}

/// Two numbers that come to `whole` where they are weighed with the direction, the smaller weight's as small as may be.
fn split(dir: &Dir, whole: i128) -> Option<(i128, i128)> {
    if dir.b.unsigned_abs() >= dir.a.unsigned_abs() {
        return split_by(dir.a, dir.b, whole);
    }
    let (second, first) = split_by(dir.b, dir.a, whole)?;
    Some((first, second))
}

/// Numbers x and y with x times `less` and y times `more` coming to `whole`, of which x is nearest to 0.
fn split_by(less: i128, more: i128, whole: i128) -> Option<(i128, i128)> {
    let modulus = more.checked_abs()?;
    let inverse = inverse_of(less.checked_rem_euclid(modulus)?, modulus)?;
    let rest = whole.checked_rem_euclid(modulus)?;
    let least = rest.checked_mul(inverse)?.checked_rem_euclid(modulus)?;
    let x = if least > modulus.checked_div(2)? {
        least.checked_sub(modulus)?
    } else {
        least
    };
    let y = whole.checked_sub(less.checked_mul(x)?)?.checked_div(more)?;
    short(x)?;
    short(y)?;
    Some((x, y))
}

/// The inverse of a number modulo another one, by Euclid's algorithm. None where there is none.
fn inverse_of(number: i128, modulus: i128) -> Option<i128> {
    let (mut upper, mut lower) = (modulus, number);
    let (mut before, mut here) = (0_i128, 1_i128);
    for _ in 0..200 {
        if lower == 0 {
            break;
        }
        let quotient = upper.checked_div(lower)?;
        let rest = upper.checked_sub(quotient.checked_mul(lower)?)?;
        let next = before.checked_sub(quotient.checked_mul(here)?)?;
        (upper, lower) = (lower, rest);
        (before, here) = (here, next);
    }
    if upper != 1 {
        return None;
    }
    before.checked_rem_euclid(modulus)
}

/// A payoff of a corner over another denominator.
fn over(payoff: i128, corner: &SweptCorner, den: i128) -> Option<i128> {
    let product = payoff.checked_mul(den)?;
    if product.checked_rem(corner.den)? != 0 {
        return None;
    }
    let numerator = product.checked_div(corner.den)?;
    short(numerator)?;
    Some(numerator)
}

impl Simplex {
    /// A direction of the program's own payoffs, for one of divided payoffs.
    fn direction(&self, heading: &Heading) -> Result<Dir, Stop> {
        let one = i128::from(heading.one).checked_mul(i128::from(self.program.two));
        let two = i128::from(heading.two).checked_mul(i128::from(self.program.one));
        let own = known(Heading::of(known(one)?, known(two)?))?;
        known(direction_of(&own))
    }

    /// The multipliers of the program's own rows for a player's own payoffs.
    fn own_multipliers(&self, objective: Objective, content: i64) -> Result<Vec<Residue>, Stop> {
        let mut list = self.multipliers(objective)?;
        let times = Residue::of(content);
        for (residue, row_content) in list.iter_mut().zip(self.program.contents.iter()) {
            let by = known(Residue::of(*row_content).inverse())?;
            *residue = residue.times(times).times(by);
        }
        Ok(list)
    }

    /// Both players' multipliers as the basis has them.
    fn read_both(
        &mut self,
        first: &[Residue],
        second: &[Residue],
    ) -> Result<Option<Multipliers>, Stop> {
        let Some(first) = fractions_of(self.alloc, &mut self.reader, first)? else {
            return Ok(None);
        };
        let Some(second) = fractions_of(self.alloc, &mut self.reader, second)? else {
            return Ok(None);
        };
        let den = common_den(1, &first).and_then(|den| common_den(den, &second));
        let Some(den) = den else {
            return Ok(None);
        };
        let first = numerators(self.alloc, &first, den)?;
        let second = numerators(self.alloc, &second, den)?;
        let (Some(first), Some(second)) = (first, second) else {
            return Ok(None);
        };
        Ok(Some(Multipliers { den, first, second }))
    }

    /// What both players' multipliers come to along the direction, as fractions.
    fn read_along(
        &mut self,
        dir: &Dir,
        first: &[Residue],
        second: &[Residue],
    ) -> Result<Vec<Fraction>, Stop> {
        let a = Residue::of(known(short(dir.a))?);
        let b = Residue::of(known(short(dir.b))?);
        let mut along = Vec::with_capacity(self.alloc, first.len())?;
        for (one, two) in first.iter().zip(second.iter()) {
            along.push(one.times(a).plus(two.times(b)))?;
        }
        known(fractions_of(self.alloc, &mut self.reader, &along)?)
    }

    /// Multipliers that come to the same along the direction, in smaller numbers: those of the first row are the corner's
    /// payoffs, the others' are split.
    fn split_both(
        &self,
        dir: &Dir,
        along: &[Fraction],
        corner: &SweptCorner,
    ) -> Result<Multipliers, Stop> {
        let den = known(common_den(corner.den, along))?;
        let mut first = NumList::with_capacity(self.alloc, along.len())?;
        let mut second = NumList::with_capacity(self.alloc, along.len())?;
        for (row, fraction) in along.iter().enumerate() {
            let whole = known(numerator_over(fraction, den))?;
            let (one, two) = if row == 0 {
                let one = known(over(corner.one, corner, den))?;
                (one, known(over(corner.two, corner, den))?)
            } else {
                known(split(dir, whole))?
            };
            first.push(one)?;
            second.push(two)?;
        }
        Ok(Multipliers { den, first, second })
    }

    /// Whether multipliers leave narrow numbers for both players.
    fn are_narrow(&self, lp: &Lp, found: &Multipliers) -> Result<bool, Stop> {
        Ok(
            leave_narrow(self.alloc, lp, Side::One, found.den, &found.first)?
                && leave_narrow(self.alloc, lp, Side::Two, found.den, &found.second)?,
        )
    }

    fn certificate(
        &mut self,
        lp: &Lp,
        dir: &Dir,
        corner: &SweptCorner,
    ) -> Result<Multipliers, Stop> {
        let first = self.own_multipliers(Objective::One, self.program.one)?;
        let second = self.own_multipliers(Objective::Two, self.program.two)?;
        if let Some(found) = self.read_both(&first, &second)? {
            if self.are_narrow(lp, &found)? {
                return Ok(found);
            }
        }
        let along = self.read_along(dir, &first, &second)?;
        let found = self.split_both(dir, &along, corner)?;
        if self.are_narrow(lp, &found)? {
            return Ok(found);
        }
        Err(Stop::FoundNothing)
    }

    /// The side in a direction at the present basis, whose corner this is.
    pub fn side(
        &mut self,
        lp: &Lp,
        heading: &Heading,
        corner: &SweptCorner,
        number: usize,
    ) -> Result<SideRow, Stop> {
        let dir = self.direction(heading)?;
        let found = self.certificate(lp, &dir, corner)?;
        let Multipliers { den, first, second } = found;
        Ok(SideRow {
            dir,
            corner: number,
            den,
            first,
            second,
        })
    }
}

fn direction_of(own: &Heading) -> Option<Dir> {
    let a = i128::from(own.one);
    let b = i128::from(own.two);
    if corr_num::narrow(a) && corr_num::narrow(b) {
        Some(Dir { a, b })
    } else {
        None
    }
}
