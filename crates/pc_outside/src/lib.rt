// What the program needs from outside: memory, a source of bytes and sinks of bytes. Each of them may fail.
#![tactic(auto)]

mod answers;
mod counts;
mod file_sink;
mod file_source;
mod memory_sink;
mod memory_source;
mod pieces;
mod reading;
mod sink;
mod slice_sink;
mod slice_source;
mod source;

pub use answers::{Failed, NoMemory, Refused};
pub use file_sink::FileSink;
pub use file_source::FileSource;
pub use memory_sink::MemorySink;
pub use memory_source::MemorySource;
pub use pieces::write_pieces;
pub use reading::{ReadError, read_all};
pub use sink::Sink;
pub use slice_sink::SliceSink;
pub use slice_source::SliceSource;
pub use source::Source;
