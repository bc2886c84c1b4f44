ghost use Rattle.std.specs.Prelude.{◌≡◌, ◌↔◌, ◌++◌, ◌∷◌, [], IsTrue, IfOk, OnOk};
ghost use Rattle.std.specs.List.{list_all};
ghost use Rattle.wc_ircmsg.specs.Grammar.{SpellsLine, ReadsLine};
ghost use Rattle.wc_ircmsg.specs.Utf8.{AreUtf8Texts};
ghost use Rattle.wc_ircmsg.specs.Written.{needs_colon, are_words, ends_lines, is_one_line};
ghost use Rattle.wc_ircmsg.specs.Written.{params_text, line_of, without_prefix, IsWritable};

use crate::command::is_command;
use crate::message::Message;
use crate::params::MOST_PARAMS;
use std::alloc::Global;
use wc_text::{NoMemory, Text};

/// Whether a parameter is read back only after a `:`: it is empty, has a blank or begins with `:`.
fn needs_colon(param: &[u8]) -> bool
    ensures { result ≡ needs_colon param.now }
{
    match param {
        [] => true,
        [first, ..] => *first == b':' || param.contains(&b' '),
    }
}

/// Whether no parameter but the last needs a `:`.
fn are_words(params: &[Text]) -> bool
    ensures { result ≡ are_words params.now }
{
    let mut rest = params;
    while let [param, next @ ..] = rest {
        if !next.is_empty() && needs_colon(param.as_slice()) {
            return false;
        }
        rest = next;
    }
    true
}

/// Whether a text has no CR, LF and NUL.
pub fn is_one_line(text: &[u8]) -> bool
    ensures { result ≡ is_one_line text.now }
{
    text.iter()
        .all(|b| !(*b == b'\r' || *b == b'\n' || *b == b'\0'))
}

fn are_in_one_line(params: &[Text]) -> bool
    ensures { result ≡ list_all is_one_line params.now }
{
    params.iter().all(|param| is_one_line(param.as_slice()))
}

/// Whether a line can spell the message: its command is letters or three digits, it has at most 15
/// parameters, only the last of them is empty, has a blank or begins with `:`, and none has CR, LF
/// or NUL.
pub fn is_writable(message: &Message) -> bool
    ensures { IsTrue result ↔ IsWritable message.now }
{
    let params = message.params.as_slice();
    is_command(message.command.as_slice())
        && params.len() <= MOST_PARAMS
        && are_words(params)
        && are_in_one_line(params)
}

fn put_last(text: &mut Text, param: &[u8]) -> Result<(), NoMemory>
    ensures { OnOk result (text.new ≡ text.old ++ params_text (param.now ∷ [])) }
{
    if needs_colon(param) {
        text.append(b" :")?;
    } else {
        text.append(b" ")?;
    }
    text.append(param)
}

/// Puts each parameter after a blank, the last one after a `:` where it needs one.
fn put_params(text: &mut Text, params: &[Text]) -> Result<(), NoMemory>
    ensures { OnOk result (text.new ≡ text.old ++ params_text params.now) }
{
    let mut rest = params;
    while let [param, next @ ..] = rest {
        if next.is_empty() {
            return put_last(text, param.as_slice());
        }
        text.append(b" ")?;
        text.append(param.as_slice())?;
        rest = next;
    }
    Ok(())
}

/// The line of a message, without its prefix and without CR LF: its command and its parameters,
/// each after a blank. A `:` is before the last one exactly where that is empty, has a blank or
/// begins with `:`.
pub fn write_line(alloc: Global, message: &Message) -> Result<Text, NoMemory>
    requires { IsWritable message.now }
    ensures written { IfOk result (λ text. text ≡ line_of message.now) }

    // No CR, LF or NUL is in it.
    ensures one_line { IfOk result (λ text. IsTrue (is_one_line text)) }

    // It spells the message without its prefix, and is read so where the parameters are UTF-8.
    ensures spells { IfOk result (λ text. SpellsLine text (without_prefix message.now)) }
    ensures reads_back { AreUtf8Texts message.now.params →
        IfOk result (λ text. ReadsLine text (without_prefix message.now)) }
{
    let mut text = message.command.copy(alloc)?;
    put_params(&mut text, message.params.as_slice())?;
    Ok(text)
}
