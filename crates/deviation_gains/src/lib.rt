//! Whether a player gains by leaving the mediator, against a list of weighted pairs of plans.
//!
//! It depends on `equilibrium` for what deviations and reduced plans are, on `equilibrium_solutions`
//! for laws of what the sets of a player who leaves are worth, and on `connected_pairs` for the
//! numbers of sequences. Of reports it knows the ranges of a pair alone. The layer above uses
//! `all_planned`, whether both plans of each pair are reduced, and `gains`, whether a player gains
//! at a trigger of a notion (von Stengel and Forges 2008; Farina, Bianchi and Sandholm 2020).
#![tactic(auto)]

mod deviations;
mod gaining;
mod planned;

pub use gaining::gains;
pub use planned::all_planned;
