//! Integer tableaus of linear programs: whole numbers over one denominator, changed by exact pivots.
//!
//! It answers with the pivoted tableau, or with a place at which that has an entry of 2^62 or more. It stands on `lp_form`
//! for the program and the names of places, and on `corr_num` for exact arithmetic. The layer above asks and pivots any
//! `Tableau`; `Dense` keeps all entries, and its pivots take no memory.
#![tactic(auto)]

mod dense;
mod ends;
mod laws;
mod rows;
mod starts;
mod tableaus;

pub use dense::Dense;
pub use ends::PivotEnd;
pub use laws::{
    one_basis_has_one_tableau, pivoting_at_an_artificial_one_changes_nothing,
    pivots_keep_the_start, small_programs_start_narrow, starts_are_reached,
};
pub use lp_form::{NumList, Place, RowName};
pub use starts::starts_narrow;
pub use tableaus::Tableau;
