//! The incentive rows of a notion: no player gains by leaving the mediator at a trigger.
//!
//! It stands on `lp_form` and `connected_pairs`. The layer above uses `program_size`, how large the whole program of a
//! notion is, and `incentives`, the rows that stand behind the correlation rows: for each trigger the values of its sets
//! and one row that following pays no less (von Stengel and Forges 2008; Farina, Bianchi and Sandholm 2020).
#![tactic(auto)]

mod adding;
mod blocks;
mod leaves;
mod places;
mod rows;
mod sizes;
mod triggers;

pub use rows::incentives;
pub use sizes::program_size;
