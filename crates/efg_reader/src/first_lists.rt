//! The first list of each set, and the payoffs of each outcome.

ghost use Rattle.std.specs.Prelude.{◌≡◌, ◌≤◌, length};
ghost use Rattle.efg_reader.specs.Told.{nothing};

use efg_lines::ActLines;
use number_words::Number;

/// The first list of a set: its actions, and in a chance set their probabilities.
#[derive(Debug, Drop)]
pub struct FirstList<'a> {
    pub acts: &'a ActLines,
    pub probs: Vec<Number>,
    ghost some: { 1 ≤ length acts.now },
    ghost few: { length acts.now ≤ 64 },
}

/// The payoffs of an outcome.
#[derive(Clone, Copy, Debug, PartialEq, Eq)]
pub struct OutcomePays {
    pub one: Number,
    pub two: Number,
}

impl OutcomePays {
    /// What an outcome pays that pays nothing.
    pub fn nothing() -> OutcomePays
        ensures one { result.one ≡ nothing }
        ensures two { result.two ≡ nothing }
    {
        OutcomePays {
            one: Number::zero(),
            two: Number::zero(),
        }
    }
}
