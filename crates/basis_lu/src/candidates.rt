// The columns among which a basis is chosen.
use crate::matrices::Matrix;
use residues::Residue;
use std::alloc::{AllocError as NoMemory, Global};

/// Copies an own or a unit column, without its zeros. False where the number means none.
fn copy_column(columns: &mut Matrix, matrix: &Matrix, number: u32) -> Result<bool, NoMemory> {
    let own = matrix.cols();
    if number >= own {
        return columns.put(number - own, Residue::one());
    }
    for cell in matrix.column(number) {
        if !cell.value.is_zero() && !columns.put(cell.row, cell.value)? {
            return Ok(false);
        }
    }
    Ok(true)
}

/// The columns of the candidates in their order, or none where a number means no column.
pub(crate) fn candidate_columns(
    alloc: Global,
    matrix: &Matrix,
    candidates: &[u32],
) -> Result<Option<Matrix>, NoMemory> {
    let mut columns = Matrix::new(alloc, matrix.rows());
    for number in candidates {
        if !copy_column(&mut columns, matrix, *number)? {
            return Ok(None);
        }
        columns.end_column()?;
    }
    Ok(Some(columns))
}

/// The candidate with this number, or one that is no column.
pub(crate) fn candidate_at(candidates: &[u32], number: u32) -> u32 {
    match candidates.get(number as usize) {
        Some(column) => *column,
        None => u32::MAX,
    }
}
