ghost use Rattle.std.specs.Prelude.{◌≡◌, vec_len};

use crate::candidates::candidate_at;
use crate::elimination::Elimination;
use crate::matrices::Matrix;
use crate::remaining::Remaining;
use std::alloc::AllocError as NoMemory;

/// Makes columns basic as long as a column or a row has one cell left. False where a pivot fails.
pub(crate) fn eliminate_singletons(
    elimination: &mut Elimination,
    remaining: &mut Remaining,
    columns: &Matrix,
    candidates: &[u32],
) -> Result<bool, NoMemory>
    ensures { vec_len elimination.new.basis ≡ vec_len elimination.old.basis }
{
    for _ in 0..columns.cols() {
        let Some(place) = remaining.singleton(columns) else {
            return Ok(true);
        };
        let cells = columns.column(place.candidate);
        let column = candidate_at(candidates, place.candidate);
        if !elimination.pivot(remaining, cells, place.row, column)? {
            return Ok(false);
        }
        remaining.take(place, cells)?;
    }
    Ok(true)
}
