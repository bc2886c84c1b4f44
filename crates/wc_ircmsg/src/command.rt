ghost use Rattle.std.specs.Prelude.{◌≡◌};
ghost use Rattle.std.specs.Char.{is_ascii_alphabetic, is_ascii_digit};
ghost use Rattle.std.specs.List.{list_all};
ghost use Rattle.wc_ircmsg.specs.Commands.{is_command, is_name, is_numeric};

fn are_letters(word: &[u8]) -> bool
    ensures { result ≡ list_all is_ascii_alphabetic word.now }
{
    word.iter().all(|b| b.is_ascii_alphabetic())
}

fn are_digits(word: &[u8]) -> bool
    ensures { result ≡ list_all is_ascii_digit word.now }
{
    word.iter().all(|b| b.is_ascii_digit())
}

/// Whether a word is one letter of ASCII or more.
pub(crate) fn is_name(word: &[u8]) -> bool
    ensures { result ≡ is_name word.now }
{
    match word {
        [] => false,
        [_, ..] => are_letters(word),
    }
}

fn is_numeric(word: &[u8]) -> bool
    ensures { result ≡ is_numeric word.now }
{
    word.len() == 3 && are_digits(word)
}

/// Whether a word is a command: letters of ASCII alone, or three digits.
pub(crate) fn is_command(word: &[u8]) -> bool
    ensures { result ≡ is_command word.now }
{
    is_name(word) || is_numeric(word)
}
