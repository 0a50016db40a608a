// Laws of counts of faults and of bytes in memory, as functions that do nothing.
ghost use Rattle.std.specs.Prelude.{◌≡◌, ◌⊎◌, ◌↔◌, ℕ, ◌+◌, ◌-◌, ◌^◌, ◌<◌, ◌≤◌, List, [], ◌++◌, length, take, Option, Some};
ghost use Rattle.std.specs.Io.KnownBytes.{Appends, Keeps};
ghost use Rattle.corr_port.specs.Count.{Rose, next_count};
ghost use Rattle.corr_port.specs.Known.{AppendsFront};
ghost use Rattle.corr_port.specs.Memory.{source_left, stock_left, sure_source_left};
ghost use Rattle.corr_port.specs.declared.mem_source.MemSource.{MemSource};
ghost use Rattle.corr_port.specs.declared.mem_source.SureSource.{SureSource};
ghost use Rattle.corr_port.specs.declared.stock.Stock.{Stock};

/// The count behind one is higher, but for the last value of the type, at which alone it stands still.
pub fn counts_rise_to_their_last_value()
    ensures higher { (n : ℕ) → n < 2 ^ 64 - 1 → n < next_count n }
    ensures last { (n : ℕ) → n < 2 ^ 64 → (next_count n ≡ n) ↔ (n ≡ 2 ^ 64 - 1) }
    ensures within { (n : ℕ) → next_count n < 2 ^ 64 }
    ensures order { (m n : ℕ) → m ≤ n → next_count m ≤ next_count n }
{}

/// A count that rose and then didn't fall rose, and so did one that didn't fall and then rose; it is higher, or at the last value.
pub fn rises_go_on()
    ensures before { (a b c : ℕ) → a ≤ b → Rose b c → Rose a c }
    ensures behind { (a b c : ℕ) → Rose a b → b ≤ c → Rose a c }
    ensures higher { (a b : ℕ) → Rose a b → (a < b) ⊎ (2 ^ 64 - 1 ≤ b) }
{}

/// Bytes that have the whole piece behind them have a front of it, and so have bytes that were kept; of the empty piece there is no
/// other front.
pub fn a_front_may_be_all_or_none()
    ensures all { (old new : Option (List ℕ)) (piece : List ℕ) → Appends old new piece → AppendsFront old new piece }
    ensures none { (old new : Option (List ℕ)) (piece : List ℕ) → Keeps old new → AppendsFront old new piece }
    ensures empty { (old new : Option (List ℕ)) → AppendsFront old new [] → Appends old new [] }
{}

/// A front of a piece behind a whole piece is a front of both together; and a front adds no more bytes than the piece has.
pub fn fronts_behind_whole_pieces_are_fronts()
    ensures joined { (a b c : Option (List ℕ)) (piece more : List ℕ) → Appends a b piece → AppendsFront b c more
        → AppendsFront a c (piece ++ more) }
    ensures longest { (old new : List ℕ) (piece : List ℕ) → AppendsFront (Some old) (Some new) piece
        → (length old ≤ length new) × (length new ≤ length old + length piece) }
{}

/// The bytes that a stock in memory gave and those that it has left are all its bytes; a source that gave none has all of them left.
pub fn given_and_left_bytes_are_all()
    ensures all { (s : Stock) → take s.given s.bytes.items ++ stock_left s ≡ s.bytes.items }
    ensures count { (s : Stock) → length (stock_left s) ≡ length s.bytes.items - s.given }
    ensures source { (m : MemSource) → m.stock.given ≡ 0 → source_left m ≡ m.stock.bytes.items }
    ensures sure { (m : SureSource) → m.stock.given ≡ 0 → sure_source_left m ≡ m.stock.bytes.items }
{}
