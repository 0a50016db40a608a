//! Sums of multiples of a program's rows, and the products of multipliers with its columns.
//!
//! It depends on `corr_num` for arithmetic in 128 bits and on `lp_form` for programs. Each sum is exact: the contracts
//! ask for room for what is added. The layer above uses `plus_product`, a sum and one more product, `add_row` and
//! `add_rows`, which add multiples of one row and of a program's rows to the sums of the columns, and `column_products`,
//! the products with all columns of one program. Proofs above cite the lemmas of `proofs/ColumnSums`.
#![tactic(auto)]

mod columns;
mod products;
mod rows;

pub use columns::column_products;
pub use products::plus_product;
pub use rows::{add_row, add_rows};
