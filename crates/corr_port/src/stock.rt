// Bytes in memory that are given out in steps.
ghost use Rattle.std.specs.Prelude.{◌≡◌, ◌≤◌, ◌++◌, min, length, take, drop, vec_len};

/// Bytes of which at most `step` are given at a time.
#[derive(Drop)]
pub struct Stock {
    bytes: Vec<u8>,
    given: usize,
    step: usize,
    ghost given_within: { given ≤ vec_len bytes },
    ghost step_moves: { 1 ≤ step },
}

// Writes the bytes over the front of the buffer.
fn copy_front(buf: &mut [u8], bytes: &[u8])
    requires { length bytes.now ≤ length buf.old }
    ensures { take (length bytes.now) buf.new ≡ bytes.now }
{
    buf[..bytes.len()].copy_from_slice(bytes);
}

impl Stock {
    ghost use Rattle.corr_port.specs.Memory.{stock_left};

    pub fn new(bytes: Vec<u8>, step: usize) -> Self
        requires { 1 ≤ step }
        ensures left { stock_left result ≡ bytes.items }
        ensures step { result.step ≡ step }
    {
        Stock {
            bytes,
            given: 0,
            step,
        }
    }

    /// Gives as many bytes as the step, the buffer and what is left allow.
    pub fn give(&mut self, buf: &mut [u8]) -> usize
        ensures count { result ≡ min (min self.old.step (length buf.old)) (length (stock_left self.old)) }
        ensures given { stock_left self.old ≡ take result buf.new ++ stock_left self.new }
        ensures step { self.new.step ≡ self.old.step }
    {
        let left = &self.bytes[self.given..];
        let n = self.step.min(buf.len()).min(left.len());
        copy_front(buf, &left[..n]);
        self.given += n;
        n
    }
}
