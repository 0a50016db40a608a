// Signs, sizes and orders of fractions.
use crate::headings::Heading;
use residues::Fraction;
use std::cmp::Ordering;

/// A number's sign, and eight times the logarithm to base 2 of its magnitude, roughly.
#[derive(Clone, Copy, PartialEq, Eq)]
pub struct Measure {
    pub sign: Ordering,
    pub size: i32,
}

impl Measure {
    pub fn zero() -> Measure {
        Measure {
            sign: Ordering::Equal,
            size: 0,
        }
    }

    pub fn of(fraction: &Fraction) -> Measure {
        Measure {
            sign: fraction.num.cmp(&0),
            size: size_of(fraction),
        }
    }
}

/// Eight times the logarithm of a magnitude. The three bits after the first one serve as its fraction.
fn length_of(magnitude: u64) -> i32 {
    let Some(top) = magnitude.checked_ilog2() else {
        return 0;
    };
    let scaled = if top < 3 {
        magnitude.checked_shl(3 - top)
    } else {
        magnitude.checked_shr(top - 3)
    };
    let eighths = scaled.unwrap_or(0) % 8;
    i32::try_from(u64::from(top).saturating_mul(8).saturating_add(eighths)).unwrap_or(0)
}

/// Eight times the logarithm of a fraction's magnitude.
pub fn size_of(fraction: &Fraction) -> i32 {
    length_of(fraction.num.unsigned_abs()).saturating_sub(length_of(fraction.den.unsigned_abs()))
}

/// A product of four magnitudes below 2^62, as digits to base 2^64: four of the product, of which the upper two are one.
#[derive(Clone, Copy, PartialEq, Eq)]
struct Product {
    upper: u128,
    middle: u128,
    lower: u128,
}

impl Product {
    /// The product of two numbers below 2^124. No sum or product here passes 2^128.
    fn of(x: u128, y: u128) -> Product {
        let (high_x, low_x) = (x >> 64, x % (1 << 64));
        let (high_y, low_y) = (y >> 64, y % (1 << 64));
        let lowest = low_x.wrapping_mul(low_y);
        let crossed = high_x
            .wrapping_mul(low_y)
            .wrapping_add(low_x.wrapping_mul(high_y))
            .wrapping_add(lowest >> 64);
        Product {
            upper: high_x.wrapping_mul(high_y).wrapping_add(crossed >> 64),
            middle: crossed % (1 << 64),
            lower: lowest % (1 << 64),
        }
    }

    fn order(&self, other: &Product) -> Ordering {
        self.upper
            .cmp(&other.upper)
            .then(self.middle.cmp(&other.middle))
            .then(self.lower.cmp(&other.lower))
    }
}

/// The product of two magnitudes below 2^64.
fn magnitude_of(x: i64, y: i64) -> u128 {
    u128::from(x.unsigned_abs()).wrapping_mul(u128::from(y.unsigned_abs()))
}

/// A fraction over another one that is greater than 0.
#[derive(Clone, Copy)]
pub struct Ratio {
    pub over: Fraction,
    pub under: Fraction,
}

/// The order of two ratios.
pub fn order_of(x: &Ratio, y: &Ratio) -> Ordering {
    let signs = x.over.num.signum().cmp(&y.over.num.signum());
    if signs != Ordering::Equal {
        return signs;
    }
    let of_x = Product::of(
        magnitude_of(x.over.num, x.under.den),
        magnitude_of(y.over.den, y.under.num),
    );
    let of_y = Product::of(
        magnitude_of(y.over.num, y.under.den),
        magnitude_of(x.over.den, x.under.num),
    );
    if x.over.num < 0 {
        of_y.order(&of_x)
    } else {
        of_x.order(&of_y)
    }
}

/// One of two numbers whose sum is wanted.
fn weighed(weight: i64, fraction: &Fraction) -> Measure {
    let sign = weight.signum().cmp(&0);
    Measure {
        sign: if weight < 0 {
            fraction.num.cmp(&0).reverse()
        } else if weight == 0 {
            sign
        } else {
            fraction.num.cmp(&0)
        },
        size: length_of(weight.unsigned_abs()).saturating_add(size_of(fraction)),
    }
}

/// What two fractions come to along a direction. Where their signs differ, the size is that of the greater one.
pub fn combined(heading: &Heading, x: &Fraction, y: &Fraction) -> Measure {
    let one = weighed(heading.one, x);
    let two = weighed(heading.two, y);
    if one.sign == two.sign || two.sign == Ordering::Equal {
        return one;
    }
    if one.sign == Ordering::Equal {
        return two;
    }
    let of_x = Product::of(
        magnitude_of(heading.one, x.num),
        u128::from(y.den.unsigned_abs()),
    );
    let of_y = Product::of(
        magnitude_of(heading.two, y.num),
        u128::from(x.den.unsigned_abs()),
    );
    match of_x.order(&of_y) {
        Ordering::Greater => one,
        Ordering::Equal => Measure::zero(),
        Ordering::Less => two,
    }
}
