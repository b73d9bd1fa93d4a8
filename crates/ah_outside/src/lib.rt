//! What the program has to do with the outside: bytes that come in from a source, bytes that go out to a
//! sink, and named entries that go to a shelf. Each is a trait with a meaning that contracts can name, and
//! has forms in memory and adapters over std's readers and writers.
#![tactic(auto)]

mod buffered_sink;
mod fault_plan;
mod flushing_source;
mod folder_shelf;
mod memory_shelf;
mod memory_sink;
mod memory_source;
mod read_source;
mod shared_writer;
mod shelf;
mod sink;
mod sound_shelf;
mod sound_sink;
mod sound_source;
mod source;
mod write_sink;

pub use buffered_sink::BufferedSink;
pub use flushing_source::FlushingSource;
pub use folder_shelf::FolderShelf;
pub use memory_shelf::MemoryShelf;
pub use memory_sink::MemorySink;
pub use memory_source::MemorySource;
pub use read_source::ReadSource;
pub use shared_writer::SharedWriter;
pub use shelf::Shelf;
pub use sink::{Sink, put_all};
pub use sound_shelf::SoundShelf;
pub use sound_sink::SoundSink;
pub use sound_source::SoundSource;
pub use source::{Failed, Source};
pub use write_sink::WriteSink;
