// Sinks in memory, for tests and for callers that want the bytes.
ghost use Rattle.std.specs.Prelude.{◌≡◌, ℕ, ◌<◌, ◌≤◌, ◌↔◌, [], Some, min, length, take, IfOk, OnErr, IsErrOf, Contains};
ghost use Rattle.std.specs.Io.KnownBytes.{Appends, Keeps};
ghost use Rattle.corr_port.specs.Count.{Rose, next_count};

use crate::store::Store;
use crate::{PutEnd, Sink};
use std::alloc::Global;

/// A sink in memory of which given calls fail, counted from 0.
#[derive(Drop)]
pub struct MemSink {
    store: Store,
    fails: Vec<u64>,
    calls: u64,
    faults: u64,
}

/// A sink in memory that never fails.
#[derive(Drop)]
pub struct SureSink {
    store: Store,
}

impl MemSink {
    ghost use Rattle.corr_port.specs.Memory.{sink_held, sink_step, sink_fails, sink_faults, sink_call};

    /// `fails` lists the calls that fail. The number of a call stays at 2^64 - 1 once it is there.
    pub fn new(alloc: Global, step: usize, fails: Vec<u64>) -> Self
        requires { 1 ≤ step }
        ensures empty { sink_held result ≡ [] }
        ensures step { sink_step result ≡ step }
        ensures fails { sink_fails result ≡ fails.items }
        ensures first_call { sink_call result ≡ 0 }
        ensures no_fault { sink_faults result ≡ 0 }
    {
        MemSink {
            store: Store::new(alloc, step),
            fails,
            calls: 0,
            faults: 0,
        }
    }

    pub fn held(&self) -> &[u8]
        ensures { result.now ≡ sink_held self.now }
    {
        self.store.bytes()
    }
}

impl Sink for MemSink {
    ghost use Rattle.corr_port.specs.Memory.{sink_held, sink_step, sink_fails, sink_faults, sink_call};

    ghost held = { λ m. Some (sink_held m) };

    ghost faults = { λ m. sink_faults m };

    fn put(&mut self, piece: &[u8]) -> Result<usize, PutEnd>
        requires { 0 < length piece.now }
        ensures some { IfOk result (λ n. 1 ≤ n) }
        ensures within { IfOk result (λ n. n ≤ length piece.now) }
        ensures added { IfOk result (λ n. Appends (Some (sink_held self.old)) (Some (sink_held self.new)) (take n piece.now)) }
        ensures kept { OnErr result (Keeps (Some (sink_held self.old)) (Some (sink_held self.new))) }
        ensures cause { IsErrOf result PutEnd.Failed → Rose (sink_faults self.old) (sink_faults self.new) }
        ensures count { sink_faults self.old ≤ sink_faults self.new }
        ensures size { IfOk result (λ n. n ≡ min (sink_step self.old) (length piece.now)) }
        ensures fails { IsErrOf result PutEnd.Failed ↔ Contains (sink_fails self.old) (sink_call self.old) }
        ensures call { sink_call self.new ≡ next_count (sink_call self.old) }
        ensures settings { (sink_step self.new ≡ sink_step self.old) × (sink_fails self.new ≡ sink_fails self.old) }
    {
        let call = self.calls;
        self.calls = call.saturating_add(1);
        if self.fails.contains(&call) {
            self.faults = self.faults.saturating_add(1);
            return Err(PutEnd::Failed);
        }
        Ok(self.store.add(piece)?)
    }
}

impl SureSink {
    ghost use Rattle.corr_port.specs.Memory.{sure_sink_held, sure_sink_step};

    pub fn new(alloc: Global, step: usize) -> Self
        requires { 1 ≤ step }
        ensures empty { sure_sink_held result ≡ [] }
        ensures step { sure_sink_step result ≡ step }
    {
        SureSink {
            store: Store::new(alloc, step),
        }
    }

    pub fn held(&self) -> &[u8]
        ensures { result.now ≡ sure_sink_held self.now }
    {
        self.store.bytes()
    }
}

impl Sink for SureSink {
    ghost use Rattle.corr_port.specs.Memory.{sure_sink_held, sure_sink_step};

    ghost held = { λ m. Some (sure_sink_held m) };

    ghost faults = { λ _. 0 };

    fn put(&mut self, piece: &[u8]) -> Result<usize, PutEnd>
        requires { 0 < length piece.now }
        ensures some { IfOk result (λ n. 1 ≤ n) }
        ensures within { IfOk result (λ n. n ≤ length piece.now) }
        ensures added { IfOk result (λ n. Appends (Some (sure_sink_held self.old)) (Some (sure_sink_held self.new)) (take n piece.now)) }
        ensures kept { OnErr result (Keeps (Some (sure_sink_held self.old)) (Some (sure_sink_held self.new))) }
        ensures never_failed { ¬ IsErrOf result PutEnd.Failed }
        ensures size { IfOk result (λ n. n ≡ min (sure_sink_step self.old) (length piece.now)) }
        ensures step { sure_sink_step self.new ≡ sure_sink_step self.old }
    {
        Ok(self.store.add(piece)?)
    }
}
