//! The real edge: sockets over epoll, the file of the configuration, and standard output.
#![tactic(auto)]

mod addresses;
mod file_keeper;
mod links;
mod mio_sockets;
mod misses;
mod moment;
mod report;
mod rows;
mod std_sink;
mod streams;

pub use file_keeper::FileKeeper;
pub use mio_sockets::MioSockets;
pub use std_sink::StdSink;
