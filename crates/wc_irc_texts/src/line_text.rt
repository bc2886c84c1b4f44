ghost use Rattle.std.specs.Prelude.{◌≡◌, ◌++◌, ◌∷◌, map, IfOk, OnOk};
ghost use Rattle.std.specs.List.{concat};
ghost use Rattle.wc_ircmsg.specs.Written.{ends_lines};
ghost use Rattle.wc_irc_texts.specs.Texts.{spaced, in_one_line, unquoted, reason_text, source_text};

use std::alloc::Global;
use wc_ircmsg::Message;
use wc_text::{NoMemory, Text};

/// Pieces as one text, one after another.
pub fn joined(alloc: Global, pieces: &[&[u8]]) -> Result<Text, NoMemory>
    ensures { IfOk result (λ text. text ≡ concat (map (λ piece. piece.now) pieces.now)) }
{
    let mut text = Text::new(alloc);
    for piece in pieces {
        text.append(piece)?;
    }
    Ok(text)
}

fn put_spaced(text: &mut Text, other: &[u8]) -> Result<(), NoMemory>
    ensures { OnOk result (text.new ≡ text.old ++ 32 ∷ other.now) }
{
    text.append(b" ")?;
    text.append(other)
}

/// Texts with a blank between each two.
pub fn spaced(alloc: Global, texts: &[Text]) -> Result<Text, NoMemory>
    ensures { IfOk result (λ text. text ≡ spaced texts.now) }
{
    let [first, others @ ..] = texts else {
        return Ok(Text::new(alloc));
    };
    let mut text = first.copy(alloc)?;
    for other in others {
        put_spaced(&mut text, other.as_slice())?;
    }
    Ok(text)
}

fn ends_line(byte: u8) -> bool
    ensures { result ≡ ends_lines byte }
{
    byte == b'\r' || byte == b'\n' || byte == b'\0'
}

/// A text without CR, LF and NUL.
pub fn in_one_line(alloc: Global, text: &[u8]) -> Result<Text, NoMemory>
    ensures { IfOk result (λ line. line ≡ in_one_line text.now) }
{
    let kept: Vec<u8> = text
        .iter()
        .copied()
        .filter(|byte| !ends_line(*byte))
        .collect(alloc)?;
    Text::from_slice(alloc, kept.as_slice())
}

/// A reply between clients (CTCP) without the bytes 01 that stand around it.
pub fn unquoted(alloc: Global, text: &[u8]) -> Result<Text, NoMemory>
    ensures { IfOk result (λ bare. bare ≡ unquoted text.now) }
{
    let kept: Vec<u8> = text
        .iter()
        .copied()
        .filter(|byte| *byte != 0x01)
        .collect(alloc)?;
    Text::from_slice(alloc, kept.as_slice())
}

/// ` (R)`, or nothing without a reason.
pub fn reason_text(alloc: Global, reason: &[u8]) -> Result<Text, NoMemory>
    ensures { IfOk result (λ text. text ≡ reason_text reason.now) }
{
    if reason.is_empty() {
        return Ok(Text::new(alloc));
    }
    joined(alloc, &[b" (", reason, b")"])
}

/// Whom a message is from, as `N (U@H)`.
pub fn source_text(alloc: Global, m: &Message) -> Result<Text, NoMemory>
    ensures { IfOk result (λ text. text ≡ source_text m.now.nick m.now.user m.now.host) }
{
    let nick = m.nick.as_slice();
    let user = m.user.as_slice();
    let host = m.host.as_slice();
    joined(alloc, &[nick, b" (", user, b"@", host, b")"])
}
