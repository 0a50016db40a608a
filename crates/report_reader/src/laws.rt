// Laws of a report's bytes, as functions that do nothing: what their pieces are, and that they leave the format at one place.
ghost use Rattle.std.specs.Prelude.{◌≡◌, ◌⊎◌, ℕ, ◌+◌, ◌<◌, ◌≤◌, List, [], ◌∷◌, length, Some, slice_get, true};
ghost use Rattle.std.specs.List.{concat};
ghost use Rattle.report_form.specs.View.{ReportView};
ghost use Rattle.report_reader.specs.Pieces.{is_blank, pieces};
ghost use Rattle.report_reader.specs.Syntax.{IsReadFrom, IsSyntaxAt};

/// The pieces of some bytes, joined, are the bytes. None is empty, a blank is a piece by itself, and of two side by side one is
/// a blank; so all others are as long as can be.
pub fn pieces_of_bytes()
    ensures joined { (bytes : List ℕ) → concat (pieces bytes) ≡ bytes }
    ensures some { (bytes : List ℕ) (k : ℕ) (piece : List ℕ) → slice_get (pieces bytes) k ≡ Some piece → 0 < length piece }
    ensures alone { (bytes : List ℕ) (k j : ℕ) (piece : List ℕ) (byte : ℕ) → slice_get (pieces bytes) k ≡ Some piece
        → slice_get piece j ≡ Some byte → is_blank byte ≡ true → length piece ≡ 1 }
    ensures longest { (bytes : List ℕ) (k : ℕ) (a b : List ℕ) → slice_get (pieces bytes) k ≡ Some a
        → slice_get (pieces bytes) (k + 1) ≡ Some b → (byte : ℕ) × (is_blank byte ≡ true) × ((a ≡ byte ∷ []) ⊎ (b ≡ byte ∷ [])) }
{}

/// Bytes leave the format at one place, which is a byte of theirs or their end; where a report is read from them, at none.
pub fn one_place_of_syntax()
    ensures once { (bytes : List ℕ) (a b : ℕ) → IsSyntaxAt bytes a → IsSyntaxAt bytes b → a ≡ b }
    ensures within { (bytes : List ℕ) (at : ℕ) → IsSyntaxAt bytes at → at ≤ length bytes }
    ensures read { (bytes : List ℕ) (report : ReportView) (count at : ℕ) → IsReadFrom bytes report count → IsSyntaxAt bytes at → ⊥ }
{}

/// A report that is read from some bytes has its text within them.
pub fn reports_end_within()
    ensures { (bytes : List ℕ) (report : ReportView) (count : ℕ) → IsReadFrom bytes report count → count ≤ length bytes }
{}
