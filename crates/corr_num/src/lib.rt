//! Exact arithmetic in 128 bits: whole numbers, quotients, dot products and fractions.
//!
//! It answers in the values of whole numbers and of fractions, or says that an answer is wide, which means that its
//! magnitude is 2^62 or more. Products of narrow numbers, and sums of many such products, fit 128 bits. No call takes memory.
//!
//! It stands on the laws of `exact_algebra` alone. The layers above use the functions and `Frac` that this file names, do
//! all signed arithmetic by `sum`, `difference`, `product` and `quotient`, and cite the lemmas of `proofs/PrintedTerms` for
//! what such code prints.
#![tactic(auto)]

mod divisors;
mod fractions;
mod integers;
mod magnitudes;
mod pivots;
mod products;

pub use divisors::gcd;
pub use fractions::Frac;
pub use integers::{difference, product, quotient, sum};
pub use magnitudes::narrow;
pub use pivots::pivot_entry;
pub use products::{cmp_products, dot};
