// The point that a basis reaches, with the values of the program's columns there.
use crate::headings::{Heading, short};
use crate::simplex::Simplex;
use crate::stops::{Stop, item, known};
use corr_game::Side;
use corr_num::gcd;
use lp_form::{Lp, NumList};
use polygon_sweep::SweptCorner;
use residues::Fraction;

/// A point of the plane of divided payoffs, as numerators over a denominator above 0.
#[derive(Clone, Copy)]
pub struct Vertex {
    pub one: i128,
    pub two: i128,
    pub den: i128,
}

impl Vertex {
    /// Whether two points are the same. None where that is too wide to tell.
    pub fn is_at(&self, other: &Vertex) -> Option<bool> {
        let one = self.one.checked_mul(other.den)? == other.one.checked_mul(self.den)?;
        let two = self.two.checked_mul(other.den)? == other.two.checked_mul(self.den)?;
        Some(one && two)
    }

    /// The vector from one point to another, times both denominators.
    fn vector_to(&self, other: &Vertex) -> Option<(i128, i128)> {
        let one = other
            .one
            .checked_mul(self.den)?
            .checked_sub(self.one.checked_mul(other.den)?)?;
        let two = other
            .two
            .checked_mul(self.den)?
            .checked_sub(self.two.checked_mul(other.den)?)?;
        Some((one, two))
    }

    /// The direction a quarter turn clockwise from the way to another point. None where its numbers are too wide.
    pub fn normal_to(&self, other: &Vertex) -> Option<Heading> {
        let (one, two) = self.vector_to(other)?;
        Heading::of(two, one.checked_neg()?)
    }

    /// About that direction, in numbers of at most 14 bits.
    pub fn rough_normal_to(&self, other: &Vertex) -> Option<Heading> {
        let (one, two) = self.vector_to(other)?;
        let length = one.unsigned_abs().max(two.unsigned_abs());
        let bits = length.checked_ilog2()?.saturating_add(1);
        let unit = 1_i128.checked_shl(bits.saturating_sub(14))?;
        Heading::of(
            two.checked_div(unit)?,
            one.checked_div(unit)?.checked_neg()?,
        )
    }
}

/// The least common multiple of two numbers above 0, where it is below 2^62.
pub fn common_multiple(one: i128, two: i128) -> Option<i128> {
    let divisor = i128::try_from(gcd(one.unsigned_abs(), two.unsigned_abs())).ok()?;
    let multiple = one.checked_div(divisor)?.checked_mul(two)?;
    short(multiple)?;
    Some(multiple)
}

/// A fraction's denominator in lowest terms.
pub fn lowest_den(fraction: &Fraction) -> Option<i128> {
    let num = u128::from(fraction.num.unsigned_abs());
    let den = u128::from(fraction.den.unsigned_abs());
    i128::try_from(den.checked_div(gcd(num, den))?).ok()
}

/// A fraction's numerator over another denominator, where that is a whole number below 2^62.
pub fn numerator_over(fraction: &Fraction, den: i128) -> Option<i128> {
    let product = i128::from(fraction.num).checked_mul(den)?;
    let under = i128::from(fraction.den);
    if product.checked_rem(under)? != 0 {
        return None;
    }
    let numerator = product.checked_div(under)?;
    short(numerator)?;
    Some(numerator)
}

/// What values pay a player, where that is below 2^62.
fn paid(lp: &Lp, side: Side, values: &NumList) -> Option<i128> {
    let mut sum = 0_i128;
    for entry in lp.payoffs(side) {
        if (entry.col as usize) >= values.len() {
            return None;
        }
        let term = i128::from(entry.value).checked_mul(*values.at(entry.col as usize))?;
        sum = sum.checked_add(term)?;
    }
    short(sum)?;
    Some(sum)
}

impl Simplex {
    /// The least common denominator of the basic values.
    fn total(&self) -> Result<i128, Stop> {
        let mut total = 1_i128;
        for row in 0..self.program.rows() {
            let value = item(&self.values, self.factor.column_at(row))?;
            let den = known(lowest_den(&value.right.fraction))?;
            total = known(common_multiple(total, den))?;
        }
        Ok(total)
    }

    /// The corner at the present basis, in the payoffs of the program.
    pub fn corner(&self, lp: &Lp) -> Result<SweptCorner, Stop> {
        let den = self.total()?;
        let mut values = NumList::with_capacity(self.alloc, self.program.cols() as usize)?;
        for col in 0..self.program.cols() {
            let value = item(&self.values, col)?;
            values.push(known(numerator_over(&value.right.fraction, den))?)?;
        }
        Ok(SweptCorner {
            one: known(paid(lp, Side::One, &values))?,
            two: known(paid(lp, Side::Two, &values))?,
            den,
            values,
        })
    }

    /// A corner's point in divided payoffs.
    pub fn vertex_of(&self, corner: &SweptCorner) -> Result<Vertex, Stop> {
        Ok(Vertex {
            one: known(corner.one.checked_div(i128::from(self.program.one)))?,
            two: known(corner.two.checked_div(i128::from(self.program.two)))?,
            den: corner.den,
        })
    }
}
