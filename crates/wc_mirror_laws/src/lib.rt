//! A client that settled holds the lines of all buffers, the buffers in their groups, or the
//! nicklists: it logged in, asked for all events by `sync`, and then took the line dump, the buffer
//! dump, or the nicklists of all buffers, under an id of its own.
#![tactic(auto)]

mod laws;

pub use laws::{
    change_keeps_parts, core_keeps, each_request_gets_one_reply, event_keeps_buffers,
    event_keeps_lines, event_keeps_nicks, hotlist_means_lines, push_keeps_parts,
    sent_bytes_show_buffers, sent_bytes_show_lines, sent_bytes_show_nicks,
    settled_client_has_buffers, settled_client_has_lines, settled_client_has_nicks,
    three_lines_settle,
};
