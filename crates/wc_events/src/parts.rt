//! Values of keys and of objects, and what a message has before its items, for those who tell the
//! same of a buffer or a line in a form of their own.

pub use crate::event_values::entry_value;
pub use crate::front::{Front, put_front, room_after_front};
pub use crate::lent_value::LentValue;
pub use crate::line_bytes::{put_line, room_after_line};
pub use crate::line_objects::{line_value, truth};
pub use crate::values::{count, text};
