ghost use Rattle.std.specs.Prelude.{◌≡◌, ◌≢◌, ◌<◌, ◌<ℤ◌, ◌^◌, false, pos, unsigned_abs};
ghost use Rattle.int_tableau.specs.Content.{Content, IsTableau, IsProgramRow, IsColumn, right_side};
ghost use Rattle.int_tableau.specs.Pivot.{PivotAnswer};

use crate::ends::PivotEnd;

/// An integer tableau: the rows of a program, then First, Second and Phase; the columns of the program, then an artificial
/// column for each row, then the right sides.
pub trait Tableau {
    ghost content: { Self → Content };

    /// The number of rows.
    fn rows(&self) -> u32
        ensures count { result ≡ (content self.now).rows }
        ensures rules { IsTableau (content self.now) };

    /// The number of columns.
    fn cols(&self) -> u32
        ensures count { result ≡ (content self.now).cols }
        ensures rules { IsTableau (content self.now) };

    fn entry(&self, row: u32, col: u32) -> i128
        requires fresh { (content self.now).spent ≡ false }
        requires in_rows { row < (content self.now).rows }
        requires in_columns { col < (content self.now).cols }
        ensures value { result ≡ (content self.now).entry row col }
        ensures narrow { unsigned_abs result < 2 ^ 62 };

    /// The basic column of a program row.
    fn basic(&self, row: u32) -> u32
        requires { IsProgramRow (content self.now) row }
        ensures value { result ≡ (content self.now).basic row }
        ensures column { IsColumn (content self.now) result };

    /// The denominator of all entries.
    fn denom(&self) -> i128
        requires { (content self.now).spent ≡ false }
        ensures value { result ≡ (content self.now).denom }
        ensures narrow { unsigned_abs result < 2 ^ 62 };

    /// Makes the column basic in the row. After an error the table is spent: only its size and its basis may be asked.
    fn pivot(&mut self, row: u32, col: u32) -> Result<(), PivotEnd>
        requires fresh { (content self.old).spent ≡ false }
        requires program_row { IsProgramRow (content self.old) row }
        requires column { IsColumn (content self.old) col }
        requires not_zero { (content self.old).entry row col ≢ pos 0 }
        requires level { (content self.old).entry row col <ℤ pos 0 → right_side (content self.old) row ≡ pos 0 }
        ensures answer { PivotAnswer (content self.old) (content self.new) row col result }
        ensures rules { IsTableau (content self.new) };
}
