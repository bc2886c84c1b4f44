ghost use Rattle.std.specs.Prelude.{◌≡◌};
ghost use Rattle.wc_lines.specs.Ring.{counted};

/// How many lines a buffer holds at most, and how often that was changed.
#[derive(Clone, Copy)]
pub(crate) struct LineLimit {
    pub(crate) most: u32,
    /// It stops at the greatest number.
    pub(crate) changes: u64,
}

impl LineLimit {
    /// Another limit, which is counted as a change.
    pub(crate) fn changed(self, most: u32) -> LineLimit
        ensures { result ≡ record { most = most; changes = counted self.changes } }
    {
        LineLimit {
            most,
            changes: self.changes.saturating_add(1),
        }
    }
}
