/// A row of a tableau: a program row by its basic column, or one of the three rows behind them.
#[derive(Clone, Copy, Debug, PartialEq, Eq)]
pub enum RowName {
    Basic(u32),
    /// The first player's payoff row.
    First,
    /// The second player's payoff row.
    Second,
    /// The row that the first phase makes 0.
    Phase,
}

/// An entry's place in a tableau. A place outlives the order of the rows, because its row is named by its basic column.
#[derive(Clone, Copy, Debug, PartialEq, Eq)]
pub struct Place {
    pub row: RowName,
    pub col: u32,
}
