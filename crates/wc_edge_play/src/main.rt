//! Plays clients over real sockets, and a file that is kept, and prints what comes back.
//!
//! Nothing is claimed here: what is printed is compared.
#![tactic(auto)]

mod arrival_story;
mod clock_story;
mod connect_story;
mod crowd_story;
mod edge_story;
mod keeper_story;
mod ping_story;
mod stage;

use std::io;
use wc_edge::StdSink;
use wc_outside::Sink;

/// Says whether the sink takes bytes that are no UTF-8, and none.
fn print_to_the_sink(rt: &HostRuntime) -> io::Result<()> {
    print!(rt; "== standard output takes any bytes\n")?;
    let mut sink = StdSink::new(rt);
    let is_taken = sink.write(b"written \xff\n").is_ok();
    let is_nothing_taken = sink.write(b"").is_ok();
    print!(rt; "{is_taken} {is_nothing_taken}\n")
}

fn main(rt: HostRuntime) -> io::Result<()> {
    ping_story::play(&rt)?;
    edge_story::play(&rt)?;
    crowd_story::play(&rt)?;
    connect_story::play(&rt)?;
    arrival_story::play(&rt)?;
    clock_story::play(&rt)?;
    keeper_story::play(&rt)?;
    print_to_the_sink(&rt)
}
