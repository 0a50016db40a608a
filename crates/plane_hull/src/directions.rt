ghost use Rattle.corr_num.specs.Narrow.{Narrow};

/// A direction in the plane of payoffs: `a` weighs the first player's payoff and `b` the second's.
///
/// The sweep and the reader of reports make only directions whose two numbers are coprime.
#[derive(Clone, Copy, Debug, PartialEq, Eq)]
pub struct Dir {
    pub a: i128,
    pub b: i128,
    ghost a_narrow: { Narrow a },
    ghost b_narrow: { Narrow b },
}
