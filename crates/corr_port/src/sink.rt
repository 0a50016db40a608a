// What takes bytes in.
ghost use Rattle.std.specs.Prelude.{◌≡◌, ℕ, ◌<◌, ◌≤◌, List, length, take, IfOk, OnErr, IsErrOf};
ghost use Rattle.std.specs.declared.option.Option.{Option};
ghost use Rattle.std.specs.Io.KnownBytes.{Appends, Keeps};
ghost use Rattle.corr_port.specs.Count.{Rose};
ghost use Rattle.corr_port.specs.declared.sink.PutEnd.TheVariants.{NoMemory};

use std::alloc::AllocError;

/// Why a put took nothing: the sink could not be written, or there was no memory to grow it.
#[derive(Clone, Copy, Debug, PartialEq, Eq)]
pub enum PutEnd {
    Failed,
    NoMemory,
}

impl From<AllocError> for PutEnd {
    ghost from_gives = { λ _ e. e ≡ NoMemory };

    fn from(_: AllocError) -> Self {
        PutEnd::NoMemory
    }
}

/// Bytes put in order.
///
/// A sink that tells what it holds goes on telling it. The count of faults is below 2^64 and stands still at its
/// last value.
pub trait Sink {
    /// The bytes held, or none where the sink doesn't tell.
    ghost held: { Self → Option (List ℕ) };

    /// How often a put has failed.
    ghost faults: { Self → ℕ };

    /// Adds a front of the piece, of one byte or more, and says how many bytes it was.
    fn put(&mut self, piece: &[u8]) -> Result<usize, PutEnd>
        requires { 0 < length piece.now }
        ensures some { IfOk result (λ n. 1 ≤ n) }
        ensures within { IfOk result (λ n. n ≤ length piece.now) }
        ensures added { IfOk result (λ n. Appends (held self.old) (held self.new) (take n piece.now)) }
        ensures kept { OnErr result (Keeps (held self.old) (held self.new)) }
        ensures cause { IsErrOf result PutEnd.Failed → Rose (faults self.old) (faults self.new) }
        ensures count { faults self.old ≤ faults self.new };
}
