/// What both players get at one leaf, as scaled whole amounts.
#[derive(Clone, Copy, Debug, PartialEq, Eq)]
pub struct Pay {
    pub one: i64,
    pub two: i64,
}

/// What both players get in all, as sums of scaled whole amounts.
#[derive(Clone, Copy, Debug, PartialEq, Eq)]
pub struct Pays {
    pub one: i128,
    pub two: i128,
}
