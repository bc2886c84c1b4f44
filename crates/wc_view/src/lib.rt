//! A client's mirror of what a relay tells.
#![tactic(auto)]

mod buffer_lines;
mod buffer_nicks;
mod flags;
mod grouped;
mod items;
mod laws;
mod mirror;
mod mirror_buffer;
mod mirror_line;
mod mirror_lines;
mod mirror_nicks;
mod named;
mod nick_groups;
mod nick_items;
mod nick_list;
mod nick_rows;
mod rows;
mod told;
mod told_buffer;
mod trims;
mod values;

pub use laws::{
    dump_shows_buffers, dump_shows_nicks, dump_shows_world, flags_show_lines_alone,
    notice_shows_buffers, notice_shows_nicks, notice_shows_world, push_shows_nicks,
    trims_show_lines_alone,
};
pub use mirror::{Mirror, MirrorRefused};
pub use mirror_buffer::{MirrorBuffer, MirrorLine, SharedBuffer};
pub use mirror_line::{MirrorLineIter, PackedMirrorLine};
