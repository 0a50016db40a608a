//! Sparse factors of a basis over residues, with exchanges in product form.
//!
//! A `Matrix` is a program by columns. A `Factor` is a basis of it, chosen among candidates. It
//! solves by the basis and by its transpose, and exchanges one basic column for another. Singletons
//! come first (Markowitz 1957), the other columns one by one (Gilbert and Peierls 1988); exchanges
//! are steps after the factors (Dantzig and Orchard-Hays 1954).
//!
//! Whatever the search proposes is checked, so nothing is promised of the numbers that are solved
//! for. Contracts say that each call returns and keeps to its types, and which column is basic at
//! which row.
//!
//! It depends on `residues`. The layer above uses `Matrix`, `Cell` and `Factor`.
#![tactic(auto)]

mod building;
mod candidates;
mod counts;
mod elimination;
mod factors;
mod kernel;
mod matrices;
mod remaining;
mod singletons;
mod solving;
mod steps;
mod updates;

pub use factors::Factor;
pub use matrices::{Cell, Matrix};
