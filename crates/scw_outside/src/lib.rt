//! What the program meets outside: stores of files by name, and sinks of bytes, each as a trait with
//! one implementation in memory and one over the system.
//!
//! It knows nothing of sources: a content is bytes, and a name is characters.
#![tactic(auto)]

mod calls;
mod dir_store;
mod mem_sink;
mod mem_store;
mod puts;
mod sink;
mod std_sink;
mod store;

pub use calls::Counts;
pub use dir_store::DirStore;
pub use mem_sink::MemSink;
pub use mem_store::{Entries, MemStore};
pub use puts::put_all;
pub use sink::{Sink, SinkFailed};
pub use std_sink::StdSink;
pub use store::{Store, StoreFault};
