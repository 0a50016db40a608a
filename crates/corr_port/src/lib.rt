//! Where bytes come from and go to: sources, sinks, and the call that puts a whole text.
//!
//! It stands on nothing. A `Source` tells, where it can, which bytes it has left, and a `Sink` which bytes it holds;
//! each counts its faults, and answers `Failed` only where that count rose. So the layer above can say of every
//! source and every sink what was read and written, and that a fault is never made up.
#![tactic(auto)]

mod mem_sink;
mod mem_source;
mod put_whole;
mod sink;
mod source;
mod std_port;
mod stock;
mod store;

pub use mem_sink::{MemSink, SureSink};
pub use mem_source::{MemSource, SureSource};
pub use put_whole::put_all;
pub use sink::{PutEnd, Sink};
pub use source::{Failed, Source};
pub use std_port::{StdSink, StdSource};
