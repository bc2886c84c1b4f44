ghost use Rattle.std.specs.Prelude.{◌≡◌};
ghost use Rattle.wc_hooks.specs.Kinds.{is_relay, same_kind, kind_number};

/// What an entry is hooked for.
#[derive(Clone, Copy, Debug, PartialEq, Eq)]
pub enum HookKind {
    /// Telling a relay session of a change.
    Relay,
    /// A signal.
    Signal,
    /// A printed line.
    Print,
    /// A text that may be changed on its way.
    Modifier,
    /// A command of the hook's own.
    Command,
    /// Another command that is about to run.
    CommandRun,
    /// A timer.
    Timer,
}

impl HookKind {
    /// Whether this is the kind of relay sessions, which has a limit and a pass of its own.
    pub(crate) fn is_relay(self) -> bool
        ensures { result ≡ is_relay self }
    {
        matches!(self, HookKind::Relay)
    }

    /// Whether both are the same kind.
    pub(crate) fn is_same(self, other: HookKind) -> bool
        ensures { result ≡ same_kind self other }
    {
        self == other
    }

    /// Its place among the kinds.
    pub(crate) fn number(self) -> u8
        ensures { result ≡ kind_number self }
    {
        match self {
            HookKind::Relay => 0,
            HookKind::Signal => 1,
            HookKind::Print => 2,
            HookKind::Modifier => 3,
            HookKind::Command => 4,
            HookKind::CommandRun => 5,
            HookKind::Timer => 6,
        }
    }
}
