ghost use Rattle.std.specs.Prelude.{◌<◌, ◌^◌, pos, ◌<ℤ◌, unsigned_abs};

/// A fraction, in lowest terms or not.
#[derive(Clone, Copy, PartialEq, Eq)]
pub struct Fraction {
    pub num: i64,
    pub den: i64,
    pub ghost num_bound: { unsigned_abs num < 2 ^ 62 },
    pub ghost den_positive: { pos 0 <ℤ den },
    pub ghost den_bound: { unsigned_abs den < 2 ^ 62 },
}
