//! Whole numbers and fractions by their remainders modulo two primes below 2^61.
//!
//! `Residue` adds, subtracts, multiplies and inverts such remainders exactly, and no number grows.
//! `Reader` finds the fraction that has given residues, by Euclid's algorithm, where numerator and
//! denominator are small beside the primes. It tests what it answers; what it fails to find may
//! still be a fraction.
//!
//! It depends on `corr_num` for `gcd`. The layers above use `Residue`, `Fraction` and `Reader`.
#![tactic(auto)]

mod candidates;
mod euclid;
mod fractions;
mod numbers;
mod readers;
mod remainders;
mod wide_euclid;

pub use fractions::Fraction;
pub use numbers::Residue;
pub use readers::Reader;
pub use remainders::{P1, P2};
