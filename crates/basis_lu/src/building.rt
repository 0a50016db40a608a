ghost use Rattle.std.specs.Prelude.{◌≡◌, length, IfOk, IfSome};

use crate::candidates::candidate_columns;
use crate::elimination::Elimination;
use crate::factors::Factor;
use crate::kernel::eliminate_kernel;
use crate::matrices::Matrix;
use crate::remaining::Remaining;
use crate::singletons::eliminate_singletons;
use crate::steps::Steps;
use std::alloc::{AllocError as NoMemory, Global};

impl Factor {
    /// Factors of a basis that is chosen among the candidates, the first ones preferred. A row
    /// without a pivot gets its unit column.
    ///
    /// None where the factors have too many cells, where a candidate is no column, or where the
    /// only number left in a row or a column is 0 modulo one prime.
    pub fn of(
        alloc: Global,
        matrix: &Matrix,
        candidates: &[u32],
    ) -> Result<Option<Factor>, NoMemory>
        ensures { IfOk result (λ made. IfSome made (λ factor. length factor ≡ matrix.now.rows)) }
    {
        let Some(columns) = candidate_columns(alloc, matrix, candidates)? else {
            return Ok(None);
        };
        let mut remaining = Remaining::of(alloc, &columns)?;
        let mut elimination = Elimination::new(alloc, matrix.cols(), matrix.rows())?;
        if !eliminate_singletons(&mut elimination, &mut remaining, &columns, candidates)? {
            return Ok(None);
        }
        if !eliminate_kernel(
            alloc,
            &mut elimination,
            &mut remaining,
            &columns,
            candidates,
        )? {
            return Ok(None);
        }
        Ok(Some(Factor {
            basis: elimination.basis,
            lower: elimination.lower,
            upper: elimination.upper,
            updates: Steps::new(alloc, matrix.rows()),
        }))
    }
}
