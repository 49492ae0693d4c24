//! What the program meets outside of itself: sources of bytes and sinks for them, each with a
//! count of its faults, and the calls that read a source to its end and write a whole text.

mod all_bytes;
mod failed;
mod fault_plan;
mod memory_sink;
mod memory_source;
mod sink;
mod source;
mod std_objects;
mod sure_source;

pub use all_bytes::{MAX_INPUT, ReadAllError, read_all, write_all};
pub use failed::Failed;
pub use fault_plan::FaultPlan;
pub use memory_sink::MemorySink;
pub use memory_source::MemorySource;
pub use sink::Sink;
pub use source::Source;
pub use std_objects::{StdSink, StdSource};
pub use sure_source::SureSource;
