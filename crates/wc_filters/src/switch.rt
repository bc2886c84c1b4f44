ghost use Rattle.std.specs.Prelude.{◌≡◌};
ghost use Rattle.wc_filters.specs.Kept.{switched};

/// What becomes of whether a filter is enabled.
#[derive(Clone, Copy, PartialEq, Eq, Debug)]
pub enum Switch {
    Enable,
    Disable,
    /// What is enabled is disabled, and what is disabled is enabled.
    Toggle,
}

impl Switch {
    /// Whether a filter is enabled after it, where it was so before or was not.
    pub(crate) fn of(self, enabled: bool) -> bool
        ensures { result ≡ switched self enabled }
    {
        match self {
            Switch::Enable => true,
            Switch::Disable => false,
            Switch::Toggle => !enabled,
        }
    }
}
