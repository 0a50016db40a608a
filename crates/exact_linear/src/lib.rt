//! Integer tableaus of linear programs, for the proofs of every crate above: lemmas alone, and no function.
//!
//! It answers why each division of a pivot leaves nothing over, what a pivot keeps, why one basis has one tableau, what a
//! tableau shows of the program (solutions, an optimum, multipliers), and why the simplex method ends by Bland's rule. It
//! stands on `exact_algebra`. A matrix is a function of row and column, `ℕ → ℕ → ℤ`; a family of vectors is one of vector and
//! coordinate; a basis is one from rows to columns.
//!
//! Contracts may cite `specs/`: `Determinant`, `Tableau` (`IsTableau`, `IsCostRow`, and `IsTableauOf` for a whole matrix over
//! its start), `Pivot` (`IsPivot`, `numerator`), `Basis` (`IsSameBasis`), `Simplex` (feasible, the ratio rule, solutions, the
//! basic solution, inert rows), `Content` (`IsPricedTableau`) and `BlandRule` (`IsBlandStep`).
//!
//! A layer above imports the lemmas by their file, as `use Rattle.exact_linear.proofs.WholeTableaus.{pivot_exact}`:
//!
//! - `WholeTableaus`: the start is a tableau, each numerator of a pivot has a whole quotient, the pivot keeps the tableau, and
//!   one basis has one tableau up to the order of rows. It says so of a whole matrix, from `Start`, `Exactness`, `PivotKeeps`,
//!   `CostRows` and `OneBasis`
//! - `Alike`: a matrix, basis or pivot kept in lists that agrees with a function at each index
//! - `SimplexSteps`, `InertRows`: a pivot by the ratio rule, or in a row whose right side is 0, keeps the tableau feasible
//! - `Solutions`, `Optimality`, `Multipliers`, `Phase`, `Rays`: what a tableau shows
//! - `BlandMeasure`: the measure of a loop by Bland's rule, from what its state holds, and that it falls. It stands on `BlandEnds`
//!   (the end of a rule over states of one's own) and on `BlandsRule` (`no_basis_returns`, over a run as families
//!   in time)
//! - `Determinant`, `Mixtures`, `Permutations`: determinants, linear in each vector, and families in another order
//!
//! `PivotSamples` shows uses, and no layer above cites it.
#![tactic(auto)]
