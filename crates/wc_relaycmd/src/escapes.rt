ghost use Rattle.std.specs.Prelude.{◌≡◌, ◌++◌, ◌<◌, ◌≤◌, length, IfOk};
ghost use Rattle.wc_relaycmd.specs.Escapes.{without_escapes};

use std::alloc::Global;
use wc_text::{NoMemory, Text, cut_at};

/// What the bytes at the front of a text mean, and what follows them.
fn read_front(text: &[u8]) -> (&[u8], &[u8])
    ensures meant { without_escapes text.now ≡ result.0.now ++ without_escapes result.1.now }
    ensures shorter { length result.1.now ≤ length text.now }
    ensures moves { 0 < length text.now → length result.1.now < length text.now }
{
    match text {
        [b'\\', b'\\', text_after @ ..] => (b"\\", text_after),
        [b'\\', b'n', text_after @ ..] => (b"\n", text_after),
        [_, text_after @ ..] => (&text[..1], text_after),
        [] => (text, text),
    }
}

/// The text with its escapes read: `\\` as `\`, and `\n` as a line feed.
pub fn unescape(alloc: Global, text: &[u8]) -> Result<Text, NoMemory>
    ensures { IfOk result (λ plain. plain ≡ without_escapes text.now) }
{
    let mut plain = Text::new(alloc);
    let mut rest = text;
    while !rest.is_empty() {
        let (run, text_after) = cut_at(rest, b'\\');
        let (front, more) = read_front(text_after);
        plain.append(run)?;
        plain.append(front)?;
        rest = more;
    }
    Ok(plain)
}
