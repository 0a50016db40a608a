// Sources in memory, for tests and for callers that have all bytes already.
ghost use Rattle.std.specs.Prelude.{◌≡◌, ℕ, ◌<◌, ◌≤◌, ◌↔◌, Some, min, length, take, IfOk, OnOk, OnErr, IsOk, IsErr, Contains};
ghost use Rattle.std.specs.Io.KnownBytes.{Consumes, IsAtEnd, Keeps};
ghost use Rattle.corr_port.specs.Count.{Rose, next_count};

use crate::stock::Stock;
use crate::{Failed, Source};

/// A source of given bytes of which given calls fail, counted from 0.
#[derive(Drop)]
pub struct MemSource {
    stock: Stock,
    fails: Vec<u64>,
    calls: u64,
    faults: u64,
}

/// A source of given bytes that never fails.
#[derive(Drop)]
pub struct SureSource {
    stock: Stock,
}

impl MemSource {
    ghost use Rattle.corr_port.specs.Memory.{source_left, source_step, source_fails, source_faults, source_call};

    /// `fails` lists the calls that fail. The number of a call stays at 2^64 - 1 once it is there.
    pub fn new(bytes: Vec<u8>, step: usize, fails: Vec<u64>) -> Self
        requires { 1 ≤ step }
        ensures left { source_left result ≡ bytes.items }
        ensures step { source_step result ≡ step }
        ensures fails { source_fails result ≡ fails.items }
        ensures first_call { source_call result ≡ 0 }
        ensures no_fault { source_faults result ≡ 0 }
    {
        MemSource {
            stock: Stock::new(bytes, step),
            fails,
            calls: 0,
            faults: 0,
        }
    }
}

impl Source for MemSource {
    ghost use Rattle.corr_port.specs.Memory.{source_left, source_step, source_fails, source_faults, source_call};

    ghost left = { λ m. Some (source_left m) };

    ghost faults = { λ m. source_faults m };

    fn take(&mut self, buf: &mut [u8]) -> Result<usize, Failed>
        requires { 0 < length buf.old }
        ensures within { IfOk result (λ n. n ≤ length buf.new) }
        ensures given { IfOk result (λ n. Consumes (Some (source_left self.old)) (Some (source_left self.new)) (take n buf.new)) }
        ensures end { IfOk result (λ n. n ≡ 0 → IsAtEnd (Some (source_left self.new))) }
        ensures kept { OnErr result (Keeps (Some (source_left self.old)) (Some (source_left self.new))) }
        ensures cause { OnErr result (Rose (source_faults self.old) (source_faults self.new)) }
        ensures count { source_faults self.old ≤ source_faults self.new }
        ensures size { IfOk result (λ n. n ≡ min (min (source_step self.old) (length buf.old)) (length (source_left self.old))) }
        ensures fails { IsErr result ↔ Contains (source_fails self.old) (source_call self.old) }
        ensures call { source_call self.new ≡ next_count (source_call self.old) }
        ensures settings { (source_step self.new ≡ source_step self.old) × (source_fails self.new ≡ source_fails self.old) }
    {
        let call = self.calls;
        self.calls = call.saturating_add(1);
        if self.fails.contains(&call) {
            self.faults = self.faults.saturating_add(1);
            return Err(Failed);
        }
        Ok(self.stock.give(buf))
    }
}

impl SureSource {
    ghost use Rattle.corr_port.specs.Memory.{sure_source_left, sure_source_step};

    pub fn new(bytes: Vec<u8>, step: usize) -> Self
        requires { 1 ≤ step }
        ensures left { sure_source_left result ≡ bytes.items }
        ensures step { sure_source_step result ≡ step }
    {
        SureSource {
            stock: Stock::new(bytes, step),
        }
    }
}

impl Source for SureSource {
    ghost use Rattle.corr_port.specs.Memory.{sure_source_left, sure_source_step};

    ghost left = { λ m. Some (sure_source_left m) };

    ghost faults = { λ _. 0 };

    fn take(&mut self, buf: &mut [u8]) -> Result<usize, Failed>
        requires { 0 < length buf.old }
        ensures within { IfOk result (λ n. n ≤ length buf.new) }
        ensures given { IfOk result (λ n. Consumes (Some (sure_source_left self.old)) (Some (sure_source_left self.new)) (take n buf.new)) }
        ensures end { IfOk result (λ n. n ≡ 0 → IsAtEnd (Some (sure_source_left self.new))) }
        ensures sure { IsOk result }
        ensures size { IfOk result (λ n. n ≡ min (min (sure_source_step self.old) (length buf.old)) (length (sure_source_left self.old))) }
        ensures step { sure_source_step self.new ≡ sure_source_step self.old }
    {
        Ok(self.stock.give(buf))
    }
}
