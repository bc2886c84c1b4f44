//! The lines of a text that is typed.

ghost use Rattle.std.specs.Prelude.{◌≡◌, ◌<◌, IfSome, length};
ghost use Rattle.std.specs.Option.{option_copied};
ghost use Rattle.wc_text.specs.Splits.{before, text_after};

use memchr::memchr;

/// The text before the first LF, and what comes after it, where there is one. A text may be long, so
/// this looks at words of it, and not at bytes.
pub(crate) fn cut_line(text: &[u8]) -> (&[u8], Option<&[u8]>)
    ensures front { result.0.now ≡ before 10 text.now }
    ensures back { option_copied result.1 ≡ text_after 10 text.now }
    ensures shorter { IfSome result.1 (λ rest. length rest.now < length text.now) }
{
    let Some(at) = memchr(b'\n', text) else {
        return (text, None);
    };
    let (line, following) = text.split_at(at);
    (line, Some(following.split_at(1).1))
}
