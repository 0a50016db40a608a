// Single values: each is the next piece, or the reader stops before it.
ghost use Rattle.std.specs.Prelude.{◌≡◌, ◌≤◌, ◌<◌, ◌^◌, ◌∷◌, [], length, drop, IfErr, IfOk, OnOk, codes};
ghost use Rattle.std.specs.Fmt.{decimal, signed_decimal};
ghost use Rattle.corr_num.specs.Narrow.{Narrow};
ghost use Rattle.report_form.specs.Ranges.{AreSome, IsPositive, IsAction, IsPayoff, IsRow, IsScale, notion_number};
ghost use Rattle.report_reader.specs.Reading.{Reads, ReadsBehind, ReadsPieces, StopsAt};
ghost use Rattle.report_text.specs.NameText.{notion_name};
ghost use Rattle.report_text.specs.PartText.{action_text, frac_text, row_text};

use crate::pieces::Pieces;
use crate::refusals::Stop;
use crate::words::{fraction, magnitude, notion, whole};
use corr_game::Notion;
use corr_num::Frac;
use lp_form::RowName;

const NARROW: u128 = 1 << 62;

pub(crate) fn read_int(pieces: &mut Pieces) -> Result<i128, Stop>
    ensures narrow { IfOk result (λ value. Narrow value) }
    ensures text { IfOk result (λ value. Reads pieces.old pieces.new (signed_decimal value)) }
    ensures refused { IfErr result (StopsAt (λ value. Narrow value) signed_decimal pieces.old pieces.new) }
    ensures piece { IfOk result (λ value. ReadsPieces pieces.old pieces.new (signed_decimal value ∷ [])) }
    ensures same_input { pieces.new.bytes ≡ pieces.old.bytes }
    ensures forward { IfOk result (λ value. pieces.old.at ≤ pieces.new.at) }
    ensures within { IfOk result (λ value. pieces.new.at ≤ length pieces.new.bytes) }
{
    let Some(value) = whole(pieces.next(), NARROW) else {
        return Err(Stop::Syntax);
    };
    pieces.pass();
    Ok(value)
}

pub(crate) fn read_positive(pieces: &mut Pieces) -> Result<i128, Stop>
    ensures positive { IfOk result (λ value. IsPositive value) }
    ensures text { IfOk result (λ value. Reads pieces.old pieces.new (signed_decimal value)) }
    ensures refused { IfErr result (StopsAt (λ value. IsPositive value) signed_decimal pieces.old pieces.new) }
    ensures piece { IfOk result (λ value. ReadsPieces pieces.old pieces.new (signed_decimal value ∷ [])) }
    ensures same_input { pieces.new.bytes ≡ pieces.old.bytes }
{
    let Some(value) = whole(pieces.next(), NARROW) else {
        return Err(Stop::Syntax);
    };
    if value < 1 {
        return Err(Stop::Syntax);
    }
    pieces.pass();
    Ok(value)
}

/// A number from 1 up to below the limit.
fn read_counted(pieces: &mut Pieces, limit: u128) -> Result<u128, Stop>
    ensures some { IfOk result (λ count. 1 ≤ count) }
    ensures below { IfOk result (λ count. count < limit) }
    ensures text { IfOk result (λ count. Reads pieces.old pieces.new (decimal count)) }
    ensures refused { IfErr result (StopsAt (λ count. (1 ≤ count) × (count < limit)) decimal pieces.old pieces.new) }
    ensures piece { IfOk result (λ count. ReadsPieces pieces.old pieces.new (decimal count ∷ [])) }
    ensures same_input { pieces.new.bytes ≡ pieces.old.bytes }
{
    let Some(count) = magnitude(pieces.next(), limit) else {
        return Err(Stop::Syntax);
    };
    if count < 1 {
        return Err(Stop::Syntax);
    }
    pieces.pass();
    Ok(count)
}

/// How many corners or sides there are.
pub(crate) fn read_count(pieces: &mut Pieces) -> Result<usize, Stop>
    ensures some { IfOk result AreSome }
    ensures text { IfOk result (λ count. Reads pieces.old pieces.new (decimal count)) }
    ensures refused { IfErr result (StopsAt (λ count. AreSome count) decimal pieces.old pieces.new) }
    ensures piece { IfOk result (λ count. ReadsPieces pieces.old pieces.new (decimal count ∷ [])) }
    ensures same_input { pieces.new.bytes ≡ pieces.old.bytes }
{
    Ok(read_counted(pieces, 1 << 64)? as usize)
}

/// How many pairs there are.
pub(crate) fn read_pair_count(pieces: &mut Pieces) -> Result<usize, Stop>
    ensures some { IfOk result (λ count. 1 ≤ count) }
    ensures few { IfOk result (λ count. count ≤ 65535) }
    ensures text { IfOk result (λ count. Reads pieces.old pieces.new (decimal count)) }
    ensures refused { IfErr result (StopsAt (λ count. (1 ≤ count) × (count ≤ 65535)) decimal pieces.old pieces.new) }
    ensures piece { IfOk result (λ count. ReadsPieces pieces.old pieces.new (decimal count ∷ [])) }
    ensures same_input { pieces.new.bytes ≡ pieces.old.bytes }
{
    Ok(read_counted(pieces, 65536)? as usize)
}

pub(crate) fn read_scale(pieces: &mut Pieces) -> Result<i64, Stop>
    ensures scale { IfOk result (λ scale. IsScale scale) }
    ensures text { IfOk result (λ scale. Reads pieces.old pieces.new (signed_decimal scale)) }
    ensures refused { IfErr result (StopsAt (λ scale. IsScale scale) signed_decimal pieces.old pieces.new) }
    ensures piece { IfOk result (λ scale. ReadsPieces pieces.old pieces.new (signed_decimal scale ∷ [])) }
    ensures same_input { pieces.new.bytes ≡ pieces.old.bytes }
{
    Ok(read_counted(pieces, (1 << 24) + 1)? as i64)
}

/// The number of one of so many corners.
pub(crate) fn read_corner_number(pieces: &mut Pieces, corners: usize) -> Result<usize, Stop>
    ensures below { IfOk result (λ number. number < corners) }
    ensures text { IfOk result (λ number. Reads pieces.old pieces.new (decimal number)) }
    ensures refused { IfErr result (StopsAt (λ number. number < corners) decimal pieces.old pieces.new) }
    ensures piece { IfOk result (λ number. ReadsPieces pieces.old pieces.new (decimal number ∷ [])) }
    ensures same_input { pieces.new.bytes ≡ pieces.old.bytes }
{
    let Some(number) = magnitude(pieces.next(), corners as u128) else {
        return Err(Stop::Syntax);
    };
    pieces.pass();
    Ok(number as usize)
}

/// A corner's own number, which is its position.
pub(crate) fn expect_position(pieces: &mut Pieces, position: usize) -> Result<(), Stop>
    ensures text { OnOk result (Reads pieces.old pieces.new (decimal position)) }
    ensures refused { IfErr result (StopsAt (λ number. number ≡ position) decimal pieces.old pieces.new) }
    ensures piece { OnOk result (ReadsPieces pieces.old pieces.new (decimal position ∷ [])) }
    ensures same_input { pieces.new.bytes ≡ pieces.old.bytes }
{
    let Some(number) = magnitude(pieces.next(), 1 << 64) else {
        return Err(Stop::Syntax);
    };
    if number != position as u128 {
        return Err(Stop::Syntax);
    }
    pieces.pass();
    Ok(())
}

pub(crate) fn read_fraction(pieces: &mut Pieces) -> Result<Frac, Stop>
    ensures payoff { IfOk result IsPayoff }
    ensures text { IfOk result (λ value. Reads pieces.old pieces.new (frac_text value)) }
    ensures refused { IfErr result (StopsAt (λ value. IsPayoff value) frac_text pieces.old pieces.new) }
    ensures piece { IfOk result (λ value. ReadsPieces pieces.old pieces.new (frac_text value ∷ [])) }
    ensures same_input { pieces.new.bytes ≡ pieces.old.bytes }
{
    let Some(value) = fraction(pieces.next()) else {
        return Err(Stop::Syntax);
    };
    pieces.pass();
    Ok(value)
}

/// What a plan names at a set. The text counts actions from 1.
pub(crate) fn read_action(pieces: &mut Pieces) -> Result<Option<u32>, Stop>
    ensures action { IfOk result (λ action. IsAction action) }
    ensures text { IfOk result (λ action. ReadsBehind (codes " ") pieces.old pieces.new (action_text action)) }
    ensures refused { IfErr result (StopsAt (λ action. IsAction action) (λ action. drop 1 (action_text action)) pieces.old pieces.new) }
    ensures piece { IfOk result (λ action. ReadsPieces pieces.old pieces.new (drop 1 (action_text action) ∷ [])) }
    ensures same_input { pieces.new.bytes ≡ pieces.old.bytes }
    ensures forward { IfOk result (λ action. pieces.old.at ≤ pieces.new.at) }
    ensures within { IfOk result (λ action. pieces.new.at ≤ length pieces.new.bytes) }
{
    if pieces.take(b"-") {
        return Ok(None);
    }
    let Some(number) = magnitude(pieces.next(), 65) else {
        return Err(Stop::Syntax);
    };
    if number < 1 {
        return Err(Stop::Syntax);
    }
    pieces.pass();
    Ok(Some(number as u32 - 1))
}

/// A column that isn't below `least`.
pub(crate) fn read_column(pieces: &mut Pieces, least: u64) -> Result<u32, Stop>
    ensures least { IfOk result (λ column. least ≤ column) }
    ensures fits { IfOk result (λ column. column < 2 ^ 32) }
    ensures text { IfOk result (λ column. Reads pieces.old pieces.new (decimal column)) }
    ensures refused { IfErr result (StopsAt (λ column. (least ≤ column) × (column < 2 ^ 32)) decimal pieces.old pieces.new) }
    ensures piece { IfOk result (λ column. ReadsPieces pieces.old pieces.new (decimal column ∷ [])) }
    ensures same_input { pieces.new.bytes ≡ pieces.old.bytes }
    ensures forward { IfOk result (λ column. pieces.old.at ≤ pieces.new.at) }
    ensures within { IfOk result (λ column. pieces.new.at ≤ length pieces.new.bytes) }
{
    let Some(column) = magnitude(pieces.next(), 1 << 32) else {
        return Err(Stop::Syntax);
    };
    if column < u128::from(least) {
        return Err(Stop::Syntax);
    }
    pieces.pass();
    Ok(column as u32)
}

pub(crate) fn read_row(pieces: &mut Pieces) -> Result<RowName, Stop>
    ensures row { IfOk result IsRow }
    ensures text { IfOk result (λ row. Reads pieces.old pieces.new (row_text row)) }
    ensures refused { IfErr result (StopsAt (λ row. IsRow row) row_text pieces.old pieces.new) }
    ensures piece { IfOk result (λ row. ReadsPieces pieces.old pieces.new (row_text row ∷ [])) }
    ensures same_input { pieces.new.bytes ≡ pieces.old.bytes }
{
    if pieces.take(b"first") {
        return Ok(RowName::First);
    }
    if pieces.take(b"second") {
        return Ok(RowName::Second);
    }
    if pieces.take(b"phase") {
        return Ok(RowName::Phase);
    }
    Ok(RowName::Basic(read_column(pieces, 0)?))
}

/// The place of a notion in the order of blocks.
pub(crate) fn number_of(notion: Notion) -> u32
    ensures number { result ≡ notion_number notion }
    ensures small { result ≤ 2 }
{
    match notion {
        Notion::Efce => 0,
        Notion::Efcce => 1,
        Notion::Nfcce => 2,
    }
}

/// A notion whose number isn't below `least`.
pub(crate) fn read_notion(pieces: &mut Pieces, least: u32) -> Result<Notion, Stop>
    ensures least { IfOk result (λ notion. least ≤ notion_number notion) }
    ensures text { IfOk result (λ notion. Reads pieces.old pieces.new (notion_name notion)) }
    ensures refused { IfErr result (StopsAt (λ notion. least ≤ notion_number notion) notion_name pieces.old pieces.new) }
    ensures piece { IfOk result (λ notion. ReadsPieces pieces.old pieces.new (notion_name notion ∷ [])) }
    ensures same_input { pieces.new.bytes ≡ pieces.old.bytes }
{
    let Some(notion) = notion(pieces.next()) else {
        return Err(Stop::Syntax);
    };
    if number_of(notion) < least {
        return Err(Stop::Syntax);
    }
    pieces.pass();
    Ok(notion)
}
