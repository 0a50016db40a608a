use crate::factors::Factor;
use residues::Residue;

impl Factor {
    /// Turns a vector, by rows, into its coordinates over the basis, by pivot rows.
    ///
    /// A vector that doesn't have one number for each row is left alone.
    pub fn solve(&self, vector: &mut [Residue]) {
        self.lower.forward(0, vector);
        self.upper.backward(vector);
        self.updates.forward(0, vector);
    }

    /// Turns numbers of the basic columns, by pivot rows, into the vector, by rows, whose product
    /// with each basic column is that column's number.
    ///
    /// A vector that doesn't have one number for each row is left alone.
    pub fn solve_transposed(&self, vector: &mut [Residue]) {
        self.updates.backward_transposed(vector);
        self.upper.forward_transposed(vector);
        self.lower.backward_transposed(vector);
    }
}
