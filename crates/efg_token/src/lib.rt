//! The tokens of a game file: texts, words, braces and commas, each with its place in the bytes.
//!
//! `Tokens` hands them out one after the other. What the tokens of some bytes are is defined in `specs/`, apart from
//! this code: `front` is the first token and what is left behind it, `AreTokens` a whole list. It stands on nothing
//! but the standard library. The layer above may use that `next` gives exactly `front` of what is left, and that a
//! token's content is the bytes at its place.
#![tactic(auto)]

mod cutting;
mod token;
mod tokens;

pub use token::{Spot, Token, TokenFault};
pub use tokens::Tokens;
