use corr_game::{Notion, Side};

/// The part of a block at which a rule fails: a corner, the side at which the belt breaks, a side, or the multipliers
/// of an empty program.
#[derive(Clone, Copy, Debug, PartialEq, Eq)]
pub enum Item {
    Corner(usize),
    Belt(usize),
    Side(usize),
    Multipliers,
}

/// The rule that fails.
#[derive(Clone, Copy, Debug, PartialEq, Eq)]
pub enum Cause {
    /// A plan misses an entry, names an action that its set lacks, or names one just where it isn't led to.
    Plan,
    /// The weights don't sum to the total.
    Total,
    /// A sum has a magnitude of 2^62 or more.
    Width,
    /// The point isn't what the pairs or the multipliers pay.
    Point,
    /// This player gains by leaving the mediator.
    Gain(Side),
    /// The sides don't go once round the corners.
    Belt,
    /// There isn't one multiplier a row.
    Length,
    /// The multipliers show nothing.
    Sign,
}

/// What a report is worth. A `Partial` one has blocks that are too wide, of which nothing is verified.
#[derive(Clone, Copy, Debug, PartialEq, Eq)]
pub enum Verdict {
    Yes,
    Partial,
    NoScale,
    No {
        notion: Notion,
        item: Item,
        cause: Cause,
    },
}
