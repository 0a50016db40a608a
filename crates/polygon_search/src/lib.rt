//! A search for the polygon of payoffs of a program, of which nothing is promised.
//!
//! `propose` runs a revised simplex method on residues (Dantzig and Orchard-Hays 1954, the product form; Harris 1973, the
//! choice of columns), with the right sides perturbed (Charnes 1952), and walks once round the polygon. It depends on
//! `basis_lu` for the factors of a basis and on `residues` for its numbers. Whatever it proposes, `polygon_check` has to
//! accept: no answer rests on this crate. It is proved that it is safe and ends.
#![tactic(auto)]

mod certificates;
mod contents;
mod costs;
mod headings;
mod numbers;
mod pricing;
mod proposals;
mod runs;
mod simplex;
mod steps;
mod stops;
mod vertices;
mod walks;

pub use proposals::{Attempt, propose};
