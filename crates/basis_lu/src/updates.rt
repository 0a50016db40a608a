ghost use Rattle.std.specs.Prelude.{◌≡◌, ◌<◌, length, IfOk, OnErr, OnSome};
ghost use Rattle.std.specs.Bool.{OnTrue, OnFalse};
ghost use Rattle.basis_lu.specs.Exchange.{IsExchanged};

use crate::factors::Factor;
use crate::steps::Steps;
use residues::Residue;
use std::alloc::AllocError as NoMemory;

/// Puts the image's numbers in other rows than this one. False where there is no room.
fn put_others(updates: &mut Steps, at: u32, image: &[Residue]) -> Result<bool, NoMemory> {
    updates.begin();
    let mut row = 0;
    for number in image {
        if row != at && !number.is_zero() && !updates.put(row, *number)? {
            return Ok(false);
        }
        row = row.saturating_add(1);
    }
    Ok(true)
}

/// The inverse of the number at this row.
fn inverse_at(image: &[Residue], row: u32) -> Option<Residue>
    ensures { OnSome result (row < length image.now) }
{
    match image.get(row as usize) {
        Some(number) => number.inverse(),
        None => None,
    }
}

impl Factor {
    /// Makes a column basic at a row, in the place of the one that is, given what `solve` makes of
    /// the column.
    ///
    /// False, with nothing changed, where that is 0 at the row modulo a prime, or where there is no
    /// such row, not one number for each row, or no room.
    pub fn exchange(&mut self, row: u32, column: u32, image: &[Residue]) -> Result<bool, NoMemory>
        ensures exchanged { IfOk result
            (λ done. OnTrue done (IsExchanged self.old row column self.new)) }
        ensures kept { IfOk result (λ done. OnFalse done (self.new ≡ self.old)) }
        ensures err { OnErr result (self.new ≡ self.old) }
    {
        if image.len() != self.basis.len() {
            return Ok(false);
        }
        let Some(inverse) = inverse_at(image, row) else {
            return Ok(false);
        };
        if !put_others(&mut self.updates, row, image)? || !self.updates.end(row, inverse)? {
            return Ok(false);
        }
        self.basis[row as usize] = column;
        Ok(true)
    }
}
