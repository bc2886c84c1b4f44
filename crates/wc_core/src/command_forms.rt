//! The forms in which commands are typed.

ghost use Rattle.std.specs.Option.{option_copied};
ghost use Rattle.std.specs.Prelude.{◌≡◌};
ghost use Rattle.wc_core.specs.Forms.{command_forms, form_named, is_form_of, without_slash};
ghost use Rattle.wc_core.specs.Typed.{lines_of_text};

use crate::lines::cut_line;
use wc_text::cut_word;

/// The form of each command, in the order of their names, each in a line.
fn forms_text() -> &'static [u8]
    ensures { lines_of_text result.now ≡ command_forms }
{
    b"/print [-buffer BUFFER] [-tags TAGS] TEXT\n\
/buffer add NAME || close [BUFFER] || move NUMBER || merge BUFFER || \
unmerge || hide || unhide || clear || set PROPERTY [VALUE] || BUFFER\n\
/close\n\
/quit\n\
/eval [-n [-c]] TEXT\n\
/filter add NAME BUFFERS TAGS REGEX || del NAME || enable|disable|toggle [NAME]\n\
/help [COMMAND]\n\
/hotlist clear|remove\n\
/set NAME VALUE\n\
/unset NAME\n\
/save\n\
/join CHANNELS [KEYS]\n\
/j CHANNELS [KEYS]\n\
/part [CHANNEL] [REASON]\n\
/msg TARGET TEXT\n\
/m TARGET TEXT\n\
/notice TARGET TEXT\n\
/query NICK [TEXT]\n\
/q NICK [TEXT]\n\
/me TEXT\n\
/nick NICK\n\
/topic TEXT|-delete\n\
/kick NICK [REASON]\n\
/k NICK [REASON]\n\
/mode [TARGET] MODES [WORDS] || TARGET\n\
/names\n\
/n\n\
/quote LINE\n\
/server add NAME ADDRESS/PORT [-tls|-notls] || del NAME\n\
/connect NAME\n\
/disconnect [NAME]\n\
/w [MASK]\n\
/whois [SERVER] NICKS\n\
/whowas NICKS [COUNT]\n\
/who [MASK]\n\
/list [CHANNELS]\n\
/away [TEXT]\n\
/invite NICK [CHANNEL]\n\
/op NICKS\n\
/deop NICKS\n\
/voice NICKS\n\
/devoice NICKS\n\
/halfop NICKS\n\
/dehalfop NICKS\n\
/ban MASKS\n\
/unban MASKS\n\
/kickban NICK [REASON]\n\
/ctcp TARGET TEXT\n\
/ping SERVERS\n\
/motd [SERVER]\n\
/cycle [REASON]\n\
/oper NAME PASSWORD\n\
/knock CHANNEL [TEXT]\n\
/time [SERVER]\n\
/version [SERVER]\n\
/stats [QUERY [SERVER]]"
}

/// A text without the `/` at its front, if it has one.
pub(crate) fn without_slash(text: &[u8]) -> &[u8]
    ensures { result.now ≡ without_slash text.now }
{
    match text {
        [b'/', name @ ..] => name,
        _ => text,
    }
}

/// Whether a form is that of a command of this name, in letters of any case.
fn is_form_of(name: &[u8], form: &[u8]) -> bool
    ensures { result ≡ is_form_of name.now form.now }
{
    let (word, _) = cut_word(form);
    name.eq_ignore_ascii_case(without_slash(word))
}

/// The form of the command of this name, in letters of any case. None where there is no such command.
#[tactic(auto, unfolding(crate::specs::Forms::form_named))]
pub(crate) fn form_named(name: &[u8]) -> Option<&'static [u8]>
    ensures { option_copied result ≡ form_named name.now }
{
    let mut left = Some(forms_text());
    while let Some(rest) = left {
        let (form, following) = cut_line(rest);
        if is_form_of(name, form) {
            return Some(form);
        }
        left = following;
    }
    None
}
