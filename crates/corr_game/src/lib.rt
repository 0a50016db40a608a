//! The game that every other crate speaks of: its tree, its players, plans for them, and what a pair of plans pays.
//!
//! It stands on nothing. Players are numbered 1 and 2 in texts and are `Side::One` and `Side::Two` here. A `Game` is
//! seen as the list of its nodes, the sets of each player and the two scales, and its type keeps the rules of
//! `IsGame`; the accessors hand that fact on. Above this crate a game is read by the accessors alone.
#![tactic(auto)]

mod games;
mod nodes;
mod notions;
mod payoffs;
mod plans;
mod sides;
mod walks;

pub use games::Game;
pub use nodes::{Node, NodeList, SetId, SetInfo};
pub use notions::Notion;
pub use payoffs::{Pay, Pays};
pub use plans::{Choice, Pair, PairList, Plan};
pub use sides::Side;
pub use walks::walk_pay;
