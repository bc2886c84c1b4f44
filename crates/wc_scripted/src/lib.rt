//! What the program meets outside itself, in memory: sockets that play a script, a keeper and a sink.
#![tactic(auto)]

mod cursors;
mod fault_counts;
mod memory_keeper;
mod memory_sink;
mod memory_sockets;
mod places;
mod play;
mod report;
mod rows;
mod script;
mod scripted;
mod told;

pub use memory_keeper::MemoryKeeper;
pub use memory_sink::MemorySink;
pub use memory_sockets::MemorySockets;
pub use scripted::Scripted;
