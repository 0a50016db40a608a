//! Laws of whole numbers for the proofs of every crate above: lemmas alone, and no function.
//!
//! It answers how an identity of polynomials, an order of products, a sum, a choice among finitely many or the end of a loop
//! is proved in a line or two. It stands on the pigeonhole principle of `std_collections`.
//!
//! A layer above imports the lemmas by their file, as `use Rattle.exact_algebra.proofs.RingTactic.{ring_laws, linear}`:
//!
//! - `RingLaws`, `RingTactic`: the ring laws, and the rulesets that prove identities and inequalities by them
//! - `Identities`, on `Polynomial`: larger identities by computation; `Combinations`: equations from given ones
//! - `Order`, `Fractions`: order of products, factors taken away, squares, fractions compared across
//! - `Sums`, `SumOrder`, `ListSums`, `Dot`, `Matrices`, `Families`: sums over an index and over a list, and what they add up
//! - `Duality`, `DualityOfLists`: weak duality of linear programs
//! - `FiniteChoice`, `FiniteTests`, `Greatest`: a first, last, best or greatest number below a bound
//! - `RisingKeys`, `StepsLeft`, `NoReturn`, `RunStates`: ends of loops
//!
//! Contracts may cite `specs/`: `Sums` (`sum_to`, `sum_over`, `dot`) and `Runs` (`Leads`). The files of `proofs/` whose names
//! end in `Samples` or `Sample` show uses, and no layer above cites them.
#![tactic(auto)]
