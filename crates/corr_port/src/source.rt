// What gives bytes.
ghost use Rattle.std.specs.Prelude.{◌≡◌, ℕ, ◌<◌, ◌≤◌, List, length, take, IfOk, OnErr};
ghost use Rattle.std.specs.declared.option.Option.{Option};
ghost use Rattle.std.specs.Io.KnownBytes.{Consumes, IsAtEnd, Keeps};
ghost use Rattle.corr_port.specs.Count.{Rose};

/// A source that could not be read. How often that happened is the source's count of faults.
#[derive(Clone, Copy, Debug, PartialEq, Eq)]
pub struct Failed;

/// Bytes to be taken in order.
///
/// A source that tells what it has left goes on telling it. The count of faults is below 2^64 and stands still at its
/// last value.
pub trait Source {
    /// The bytes that are left, or none where the source doesn't tell.
    ghost left: { Self → Option (List ℕ) };

    /// How often a take has failed.
    ghost faults: { Self → ℕ };

    /// Moves the next bytes to the front of `buf` and says how many; 0 only at the end.
    fn take(&mut self, buf: &mut [u8]) -> Result<usize, Failed>
        requires { 0 < length buf.old }
        ensures within { IfOk result (λ n. n ≤ length buf.new) }
        ensures given { IfOk result (λ n. Consumes (left self.old) (left self.new) (take n buf.new)) }
        ensures end { IfOk result (λ n. n ≡ 0 → IsAtEnd (left self.new)) }
        ensures kept { OnErr result (Keeps (left self.old) (left self.new)) }
        ensures cause { OnErr result (Rose (faults self.old) (faults self.new)) }
        ensures count { faults self.old ≤ faults self.new };
}
