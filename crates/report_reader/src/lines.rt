// The parts of a block: pairs, corners, sides.
ghost use Rattle.std.specs.Prelude.{◌≡◌, ◌++◌, ◌∷◌, [], length, All, IfErr, IfOk, OnOk, codes, unsigned_abs};
ghost use Rattle.std.specs.Fmt.{signed_decimal};
ghost use Rattle.std.specs.Int.{IsGcd};
ghost use Rattle.corr_num.specs.Narrow.{Narrow};
ghost use Rattle.report_form.specs.Ranges.{AreSome, IsPair, IsPoint, IsCorner, IsSide};
ghost use Rattle.report_text.specs.Joined.{each_text, texts_from};
ghost use Rattle.report_text.specs.PartText.{count_text, frac_text, int_text, pair_text, side_text};
ghost use Rattle.report_text.specs.ReportText.{corner_text};
ghost use Rattle.report_reader.specs.Reading.{Reads, ReadsBehind, ReadsPieces, StopsAt};

use crate::items::{
    expect_position, read_corner_number, read_count, read_fraction, read_int, read_pair_count,
    read_positive,
};
use crate::lists::{read_numbers, read_plan};
use crate::pieces::Pieces;
use crate::refusals::Stop;
use crate::words::{are_coprime, whole};
use corr_game::{Pair, PairList};
use plane_hull::{Dir, Point, SideList, SideRow};
use report_form::{Corner, Corners};
use std::alloc::Global;

/// A word at the front of a line, and the space behind it.
pub(crate) fn expect_first(pieces: &mut Pieces, word: &[u8]) -> Result<(), Stop>
    ensures text { OnOk result (Reads pieces.old pieces.new (word.now ++ codes " ")) }
    ensures same_input { pieces.new.bytes ≡ pieces.old.bytes }
{
    pieces.expect(word)?;
    pieces.expect(b" ")?;
    Ok(())
}

/// A word within a line, between spaces.
pub(crate) fn expect_between(pieces: &mut Pieces, word: &[u8]) -> Result<(), Stop>
    ensures text { OnOk result (Reads pieces.old pieces.new (codes " " ++ word.now ++ codes " ")) }
    ensures same_input { pieces.new.bytes ≡ pieces.old.bytes }
{
    pieces.expect(b" ")?;
    expect_first(pieces, word)?;
    Ok(())
}

/// The line that says how many corners or sides follow.
pub(crate) fn read_count_line(pieces: &mut Pieces, word: &[u8]) -> Result<usize, Stop>
    ensures some { IfOk result AreSome }
    ensures text { IfOk result (λ count. Reads pieces.old pieces.new (word.now ++ count_text count ++ codes "\n")) }
    ensures same_input { pieces.new.bytes ≡ pieces.old.bytes }
{
    expect_first(pieces, word)?;
    let count = read_count(pieces)?;
    pieces.expect(b"\n")?;
    Ok(count)
}

fn read_pair(alloc: Global, pieces: &mut Pieces) -> Result<Pair, Stop>
    ensures pair { IfOk result (λ pair. IsPair pair) }
    ensures text { IfOk result (λ pair. Reads pieces.old pieces.new (pair_text pair)) }
    ensures same_input { pieces.new.bytes ≡ pieces.old.bytes }
{
    expect_first(pieces, b"weight")?;
    let weight = read_positive(pieces)?;
    pieces.expect(b"\n")?;
    pieces.expect(b"one")?;
    let one = read_plan(alloc, pieces)?;
    pieces.expect(b"two")?;
    let two = read_plan(alloc, pieces)?;
    Ok(Pair { one, two, weight })
}

fn read_pairs(alloc: Global, pieces: &mut Pieces, count: usize) -> Result<PairList, Stop>
    ensures pairs { IfOk result (λ pairs. All IsPair pairs) }
    ensures counted { IfOk result (λ pairs. length pairs ≡ count) }
    ensures text { IfOk result (λ pairs. Reads pieces.old pieces.new (each_text pair_text pairs)) }
    ensures same_input { pieces.new.bytes ≡ pieces.old.bytes }
{
    let mut pairs = PairList::new(alloc);
    for _ in 0..count {
        pairs.push(read_pair(alloc, pieces)?)?;
    }
    Ok(pairs)
}

fn read_point(pieces: &mut Pieces) -> Result<Point, Stop>
    ensures point { IfOk result IsPoint }
    ensures text { IfOk result (λ point. Reads pieces.old pieces.new (frac_text point.one ++ codes " " ++ frac_text point.two)) }
    ensures same_input { pieces.new.bytes ≡ pieces.old.bytes }
{
    let one = read_fraction(pieces)?;
    pieces.expect(b" ")?;
    let two = read_fraction(pieces)?;
    Ok(Point { one, two })
}

fn read_corner(alloc: Global, pieces: &mut Pieces, position: usize) -> Result<Corner, Stop>
    ensures corner { IfOk result (λ corner. IsCorner corner) }
    ensures text { IfOk result (λ corner. Reads pieces.old pieces.new (corner_text position corner)) }
    ensures same_input { pieces.new.bytes ≡ pieces.old.bytes }
{
    expect_first(pieces, b"corner")?;
    expect_position(pieces, position)?;
    pieces.expect(b" ")?;
    let point = read_point(pieces)?;
    expect_between(pieces, b"total")?;
    let total = read_positive(pieces)?;
    expect_between(pieces, b"pairs")?;
    let count = read_pair_count(pieces)?;
    pieces.expect(b"\n")?;
    let pairs = read_pairs(alloc, pieces, count)?;
    Ok(Corner {
        point,
        total,
        pairs,
    })
}

pub(crate) fn read_corners(
    alloc: Global,
    pieces: &mut Pieces,
    count: usize,
) -> Result<Corners, Stop>
    ensures corners { IfOk result (λ corners. All IsCorner corners) }
    ensures counted { IfOk result (λ corners. length corners ≡ count) }
    ensures text { IfOk result (λ corners. Reads pieces.old pieces.new (texts_from corner_text 0 corners)) }
    ensures same_input { pieces.new.bytes ≡ pieces.old.bytes }
{
    let mut corners = Corners::new(alloc);
    for position in 0..count {
        corners.push(read_corner(alloc, pieces, position)?)?;
    }
    Ok(corners)
}

/// A number that is coprime to `a`.
fn read_coprime(pieces: &mut Pieces, a: i128) -> Result<i128, Stop>
    ensures narrow { IfOk result (λ b. Narrow b) }
    ensures coprime { IfOk result (λ b. IsGcd (unsigned_abs a) (unsigned_abs b) 1) }
    ensures text { IfOk result (λ b. Reads pieces.old pieces.new (signed_decimal b)) }
    ensures piece { IfOk result (λ b. ReadsPieces pieces.old pieces.new (signed_decimal b ∷ [])) }
    ensures refused { IfErr result
        (StopsAt (λ b. Narrow b × IsGcd (unsigned_abs a) (unsigned_abs b) 1) signed_decimal pieces.old pieces.new) }
    ensures same_input { pieces.new.bytes ≡ pieces.old.bytes }
{
    let Some(b) = whole(pieces.next(), 1 << 62) else {
        return Err(Stop::Syntax);
    };
    if !are_coprime(a, b) {
        return Err(Stop::Syntax);
    }
    pieces.pass();
    Ok(b)
}

/// A direction, whose two numbers are coprime.
fn read_direction(pieces: &mut Pieces) -> Result<Dir, Stop>
    ensures coprime { IfOk result (λ dir. IsGcd (unsigned_abs dir.a) (unsigned_abs dir.b) 1) }
    ensures text { IfOk result (λ dir. ReadsBehind (codes " ") pieces.old pieces.new (int_text dir.a ++ int_text dir.b)) }
    ensures same_input { pieces.new.bytes ≡ pieces.old.bytes }
{
    let a = read_int(pieces)?;
    pieces.expect(b" ")?;
    let b = read_coprime(pieces, a)?;
    Ok(Dir { a, b })
}

fn read_side(alloc: Global, pieces: &mut Pieces, corners: usize) -> Result<SideRow, Stop>
    ensures side { IfOk result (λ side. IsSide corners side) }
    ensures text { IfOk result (λ side. Reads pieces.old pieces.new (side_text side)) }
    ensures same_input { pieces.new.bytes ≡ pieces.old.bytes }
{
    expect_first(pieces, b"side")?;
    let dir = read_direction(pieces)?;
    expect_between(pieces, b"corner")?;
    let corner = read_corner_number(pieces, corners)?;
    expect_between(pieces, b"den")?;
    let den = read_positive(pieces)?;
    pieces.expect(b"\n")?;
    pieces.expect(b"first")?;
    let first = read_numbers(alloc, pieces)?;
    pieces.expect(b"second")?;
    let second = read_numbers(alloc, pieces)?;
    Ok(SideRow {
        dir,
        corner,
        den,
        first,
        second,
    })
}

pub(crate) fn read_sides(
    alloc: Global,
    pieces: &mut Pieces,
    count: usize,
    corners: usize,
) -> Result<SideList, Stop>
    ensures sides { IfOk result (λ sides. All (IsSide corners) sides) }
    ensures counted { IfOk result (λ sides. length sides ≡ count) }
    ensures text { IfOk result (λ sides. Reads pieces.old pieces.new (each_text side_text sides)) }
    ensures same_input { pieces.new.bytes ≡ pieces.old.bytes }
{
    let mut sides = SideList::new(alloc);
    for _ in 0..count {
        sides.push(read_side(alloc, pieces, corners)?)?;
    }
    Ok(sides)
}
