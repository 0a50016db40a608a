// The edge to the real thing: std's readers and writers.
ghost use Rattle.std.specs.Prelude.{◌≡◌};

use crate::{Failed, PutEnd, Sink, Source};
use std::io::{Read, Write};

/// A reader as a source: each take is one read. It tells the bytes left where the reader does.
#[derive(Drop)]
pub struct StdSource<R> {
    inner: R,
    faults: u64,
}

/// A writer as a sink: each put is one write. It tells the bytes held where the writer does.
#[derive(Drop)]
pub struct StdSink<W> {
    /// The writer itself, so that its owner can flush it.
    pub inner: W,
    faults: u64,
}

impl<R: Read> StdSource<R> {
    pub fn new(inner: R) -> Self
        ensures inner { result.inner ≡ inner }
        ensures no_fault { result.faults ≡ 0 }
    {
        StdSource { inner, faults: 0 }
    }
}

impl<R: Read> Source for StdSource<R> {
    ghost left = { λ s. R.remaining s.inner };

    ghost faults = { λ s. s.faults };

    fn take(&mut self, buf: &mut [u8]) -> Result<usize, Failed> {
        match self.inner.read(buf) {
            Ok(n) => Ok(n),
            Err(_) => {
                self.faults = self.faults.saturating_add(1);
                Err(Failed)
            }
        }
    }
}

impl<W: Write> StdSink<W> {
    pub fn new(inner: W) -> Self
        ensures inner { result.inner ≡ inner }
        ensures no_fault { result.faults ≡ 0 }
    {
        StdSink { inner, faults: 0 }
    }
}

impl<W: Write> Sink for StdSink<W> {
    ghost held = { λ s. W.contents s.inner };

    ghost faults = { λ s. s.faults };

    // A write that takes no byte of a piece is a fault too: nothing says that another one would take any.
    fn put(&mut self, piece: &[u8]) -> Result<usize, PutEnd> {
        match self.inner.write(piece) {
            Ok(n) if n > 0 => Ok(n),
            _ => {
                self.faults = self.faults.saturating_add(1);
                Err(PutEnd::Failed)
            }
        }
    }
}
