//! The outside: a store of files, a host with clocks, and a sink of bytes, each with a form in memory.
#![tactic(auto)]

mod files;
mod folder_files;
mod host;
mod listing;
mod mem_files;
mod mem_host;
mod mem_sink;
mod opens;
mod order;
mod sink;
mod stored;
mod streams;
mod walk;

pub use files::{Files, ListError, ReadError};
pub use folder_files::FolderFiles;
pub use host::{Host, HostAnswer, HostError};
pub use listing::list_folder;
pub use mem_files::MemFiles;
pub use mem_host::MemHost;
pub use mem_sink::MemSink;
pub use opens::{OpensFiles, read_file};
pub use order::Order;
pub use sink::{Sink, SinkError, put_all};
pub use stored::paths_differ;
pub use streams::{read_bounded, read_error, write_piece};
pub use walk::{EntryKind, FolderEntry, Folders, files_below};
