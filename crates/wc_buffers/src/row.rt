use crate::vars::Vars;
use wc_text::{Handle, Items, Pair, Text};

/// What is kept of a buffer beside its variables.
#[derive(Drop)]
pub struct BufferRow {
    pub handle: Handle,
    /// The handle of its own lines.
    pub own_lines: Handle,
    /// The handle of the lines of its group.
    pub mixed_lines: Handle,
    pub full_name: Text,
    pub short_name: Text,
    pub title: Text,
    pub hidden: bool,
}

/// What a new buffer is made of, before its handles are drawn. The variables `plugin` and `name`
/// are not among its variables, since they follow from the full name.
#[derive(Drop)]
pub struct BufferSpec {
    pub full_name: Text,
    pub short_name: Text,
    pub title: Text,
    pub vars: Items<Pair>,
}

/// A buffer with its variables.
#[derive(Drop)]
pub struct BufferEntry {
    pub(crate) row: BufferRow,
    pub(crate) vars: Vars,
}
