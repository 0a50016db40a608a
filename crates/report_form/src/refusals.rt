use corr_game::{Notion, Side};

/// The rules whose refusal names a node.
#[derive(Clone, Copy, Debug, PartialEq, Eq)]
pub enum NodeRule {
    ExtraNode,
    TooManyNodes,
    TooDeep,
    NumberTooWide,
    PlayerUnknown,
    NoActions,
    TooManyActions,
    ChanceNegative,
    ChanceTooFine,
    ChanceSum,
    SetUnknown,
    SetDiffers,
    PayoffCount,
    OutcomeUnknown,
    OutcomeDiffers,
    MissingNode,
    PathTooFine,
    AmountTooLarge,
}

/// Why a command was refused. Numbers stand in the order of the refusal's line; those of sets are the file's.
#[derive(Clone, Copy, Debug, PartialEq, Eq)]
pub enum Refusal {
    InputTooLong {
        limit: u32,
    },
    /// The input begins with no report; `at` is the byte where none can go on.
    Report {
        at: usize,
    },
    /// The input is no game file; `at` is the byte where none can go on.
    Syntax {
        at: usize,
    },
    Players {
        count: u32,
    },
    AtNode {
        name: NodeRule,
        node: u32,
    },
    ScaleTooLarge {
        side: Side,
    },
    Forgets {
        side: Side,
        set: u32,
        first: u32,
        second: u32,
    },
    Triangle {
        one_a: u32,
        one_b: u32,
        two_a: u32,
        two_b: u32,
    },
    Size {
        notion: Notion,
        rows: u64,
        columns: u64,
    },
    TooLarge {
        greatest: u32,
    },
}
