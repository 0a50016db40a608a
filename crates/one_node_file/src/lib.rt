//! The files of one terminal node whose payoffs are whole amounts: `first_form` tells them from all others.
//!
//! It stands on the tokens of `efg_token` and the payoffs of `corr_game`. The layer above may use that the amounts of a
//! file are found exactly where its bytes have the first form.
#![tactic(auto)]

mod amounts;
mod one_node;

pub use one_node::first_form;
