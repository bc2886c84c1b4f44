use wc_text::{Handle, Items, Text};

/// A line of a buffer, as contracts see it.
#[derive(Drop)]
pub struct Line {
    /// The line's own name.
    pub handle: Handle,
    /// The name of what the line says, which a mixed buffer's line shares.
    pub content: Handle,
    /// How many lines were printed in the buffer before it, modulo 2^31.
    pub id: u32,
    /// In seconds since 1970.
    pub date: u64,
    /// The microseconds of the date.
    pub usec: u32,
    /// In seconds since 1970.
    pub date_printed: u64,
    /// The microseconds of the date of printing.
    pub usec_printed: u32,
    /// No filter hides it.
    pub displayed: bool,
    /// The level of notification, from -1 for none to 3.
    pub notify: i8,
    pub highlight: bool,
    pub tags: Items<Text>,
    pub prefix: Text,
    pub message: Text,
}
