ghost use Rattle.std.specs.Prelude.{◌≡◌, bytes_eq};
ghost use Rattle.std.specs.List.{list_any};
ghost use Rattle.wc_triggers.specs.Hooks.{hook_name, kind_named, is_among, signals, modifiers};
ghost use Rattle.wc_triggers.specs.Hooks.{variables_of, own_variable};

use wc_hooks::HookKind;

/// What triggers may be hooked for.
const HOOKS: [HookKind; 6] = [
    HookKind::Signal,
    HookKind::Print,
    HookKind::Modifier,
    HookKind::Command,
    HookKind::CommandRun,
    HookKind::Timer,
];

const SIGNALS: [&[u8]; 16] = [
    b"buffer_opened",
    b"buffer_closing",
    b"buffer_moved",
    b"buffer_merged",
    b"buffer_unmerged",
    b"buffer_hidden",
    b"buffer_unhidden",
    b"buffer_renamed",
    b"buffer_title_changed",
    b"buffer_localvar_added",
    b"buffer_localvar_changed",
    b"buffer_localvar_removed",
    b"buffer_cleared",
    b"buffer_line_added",
    b"irc_server_connected",
    b"irc_server_disconnected",
];

const MODIFIERS: [&[u8]; 2] = [b"weechat_print", b"input_text_for_buffer"];

const SIGNAL_VARIABLES: [&[u8]; 2] = [b"tg_signal", b"tg_signal_data"];

const PRINT_VARIABLES: [&[u8]; 3] = [b"tg_tags", b"tg_prefix", b"tg_message"];

const MODIFIER_VARIABLES: [&[u8]; 2] = [b"tg_modifier", b"tg_string"];

const COMMAND_VARIABLES: [&[u8]; 10] = [
    b"tg_argv1",
    b"tg_argv2",
    b"tg_argv3",
    b"tg_argv4",
    b"tg_argv5",
    b"tg_argv6",
    b"tg_argv7",
    b"tg_argv8",
    b"tg_argv9",
    b"tg_argv_eol1",
];

const COMMAND_RUN_VARIABLES: [&[u8]; 1] = [b"tg_command"];

const TIMER_VARIABLES: [&[u8]; 1] = [b"tg_remaining_calls"];

/// The name of a hook.
fn hook_name(kind: HookKind) -> &'static [u8]
    ensures { result.now ≡ hook_name kind }
{
    match kind {
        HookKind::Relay => b"",
        HookKind::Signal => b"signal",
        HookKind::Print => b"print",
        HookKind::Modifier => b"modifier",
        HookKind::Command => b"command",
        HookKind::CommandRun => b"command_run",
        HookKind::Timer => b"timer",
    }
}

fn is_called(kind: HookKind, word: &[u8]) -> bool
    ensures { result ≡ bytes_eq word.now (hook_name kind) }
{
    word == hook_name(kind)
}

/// The hook that a word names.
pub(crate) fn kind_named(word: &[u8]) -> Option<HookKind>
    ensures { result ≡ kind_named word.now }
{
    HOOKS.iter().copied().find(|kind| is_called(*kind, word))
}

/// Whether the name is one of these.
fn is_among(names: &[&[u8]], name: &[u8]) -> bool
    ensures { result ≡ list_any (λ other. bytes_eq other.now name.now) names.now }
{
    names.iter().any(|other| *other == name)
}

#[tactic(auto, unfolding(crate::specs::Hooks::signals))]
pub(crate) fn is_signal(name: &[u8]) -> bool
    ensures { result ≡ is_among signals name.now }
{
    is_among(&SIGNALS, name)
}

#[tactic(auto, unfolding(crate::specs::Hooks::modifiers))]
pub(crate) fn is_modifier(name: &[u8]) -> bool
    ensures { result ≡ is_among modifiers name.now }
{
    is_among(&MODIFIERS, name)
}

/// Whether a hook gives the variable of this name.
#[tactic(auto, unfolding(crate::specs::Hooks::variables_of))]
pub(crate) fn is_variable(kind: HookKind, name: &[u8]) -> bool
    ensures { result ≡ is_among (variables_of kind) name.now }
{
    match kind {
        HookKind::Relay => false,
        HookKind::Signal => is_among(&SIGNAL_VARIABLES, name),
        HookKind::Print => is_among(&PRINT_VARIABLES, name),
        HookKind::Modifier => is_among(&MODIFIER_VARIABLES, name),
        HookKind::Command => is_among(&COMMAND_VARIABLES, name),
        HookKind::CommandRun => is_among(&COMMAND_RUN_VARIABLES, name),
        HookKind::Timer => is_among(&TIMER_VARIABLES, name),
    }
}

/// The variable of a hook in which patterns replace where no other is named.
#[tactic(auto, unfolding(crate::specs::Hooks::own_variable))]
pub(crate) fn own_variable(kind: HookKind) -> &'static [u8]
    ensures { result.now ≡ own_variable kind }
{
    match kind {
        HookKind::Relay => b"",
        HookKind::Signal => b"tg_signal_data",
        HookKind::Print => b"tg_message",
        HookKind::Modifier => b"tg_string",
        HookKind::Command => b"tg_argv_eol1",
        HookKind::CommandRun => b"tg_command",
        HookKind::Timer => b"tg_remaining_calls",
    }
}
