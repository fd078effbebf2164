//! Bytes in and out, with a count of faults: the sources that a program reads and the sinks that it
//! writes, in memory or over a real stream, and how a whole stream is read and a text written.
#![tactic(auto)]

mod calls;
mod clean_source;
mod mem_sink;
mod mem_source;
mod sink;
mod source;
mod std_streams;
mod transfer;

pub use clean_source::CleanSource;
pub use mem_sink::{MemSink, SinkNoMemory};
pub use mem_source::MemSource;
pub use sink::Sink;
pub use source::{Failed, Source};
pub use std_streams::{StdSink, StdSource};
pub use transfer::{ReadAllFault, read_all, write_all};
