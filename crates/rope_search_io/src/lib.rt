//! Sources and sinks of bytes, and the faults of `rope_search`.
#![tactic(auto)]

mod device;
mod faults;
mod fuse;
mod read_buffer;
mod sinks;
mod sources;
mod utf8_judge;
mod write_buffer;

pub use device::Device;
pub use faults::{Broken, Failed, Fault};
pub use read_buffer::{MOST_READS, READ_LEN, ReadBuffer};
pub use sinks::{MemorySink, Sink};
pub use sources::{MemorySource, Source};
pub use utf8_judge::Utf8Judge;
pub use write_buffer::{WRITE_LEN, WriteBuffer, write_all};
