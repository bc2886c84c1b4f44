//! Parts of messages, for those who write a long message without making its objects: what each
//! leaves of a room, by which the length of the message is found first, and each as bytes after
//! those that are in a buffer.

pub use crate::size::{
    MAX_MESSAGE, room_after_bytes, room_after_decimal, room_after_item_values, room_after_pointer,
};
pub use crate::write::{put_bytes, put_chr, put_count, put_decimal, put_kind, put_pointer};
