// Directions in which a program is searched.
use corr_num::gcd;

/// A direction in the plane of divided payoffs: what the first and the second player's payoff weigh.
#[derive(Clone, Copy, PartialEq, Eq)]
pub struct Heading {
    pub one: i64,
    pub two: i64,
}

impl Heading {
    /// The direction in coprime numbers below 2^62. None where there is none.
    pub fn of(one: i128, two: i128) -> Option<Heading> {
        let divisor = i128::try_from(gcd(one.unsigned_abs(), two.unsigned_abs())).ok()?;
        Some(Heading {
            one: short(one.checked_div(divisor)?)?,
            two: short(two.checked_div(divisor)?)?,
        })
    }

    /// A quarter turn counter-clockwise.
    pub fn left(&self) -> Heading {
        Heading {
            one: self.two.wrapping_neg(),
            two: self.one,
        }
    }

    /// A quarter turn clockwise.
    pub fn right(&self) -> Heading {
        Heading {
            one: self.two,
            two: self.one.wrapping_neg(),
        }
    }

    /// Whether one of its two numbers needs this many bits or more.
    pub fn is_long(&self, bits: u32) -> bool {
        let bound = 1_u64.checked_shl(bits).unwrap_or(u64::MAX);
        self.one.unsigned_abs() >= bound || self.two.unsigned_abs() >= bound
    }
}

/// A number below 2^62 in magnitude. None for another.
pub fn short(number: i128) -> Option<i64> {
    if number.unsigned_abs() < 1 << 62 {
        i64::try_from(number).ok()
    } else {
        None
    }
}
