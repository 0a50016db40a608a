//! Games made from a number, for tests and measurements: bargains behind a public chance move, and centipedes.
//!
//! It stands on `text_pieces` for writing. `generate` makes the file of a game; its text is `game_text` of `specs/GameText`, a function
//! of the kind, the size and the seed, with the random numbers of `specs/Random`. The bytes are the same at each run.
#![tactic(auto)]

mod draws;
mod games;
mod kinds;
mod lines;
mod outcomes;

pub use games::generate;
pub use kinds::{GenRefusal, Kind, kind_text};
