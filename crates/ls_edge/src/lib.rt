//! The outside of the program: where its bytes come from, where they go, and where its files are
//! kept.
//!
//! Three traits say what the program asks of the outside. Objects in memory tell all that they
//! hold, and the adapters over the standard streams and over a folder tell nothing.
#![tactic(auto)]

mod calls;
mod folder_shelf;
mod mem_shelf;
mod mem_sink;
mod mem_source;
mod standard;
mod sure_shelf;
mod sure_sink;
mod sure_source;
mod traits;
mod write;

pub use folder_shelf::FolderShelf;
pub use mem_shelf::MemShelf;
pub use mem_sink::MemSink;
pub use mem_source::MemSource;
pub use standard::{StdSink, StdSource};
pub use sure_shelf::SureShelf;
pub use sure_sink::SureSink;
pub use sure_source::SureSource;
pub use traits::{Failed, FetchFault, LONGEST_FILE, Shelf, Sink, SinkFault, Source, StoreFault};
pub use write::write_whole;
