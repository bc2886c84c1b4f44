ghost use Rattle.std.specs.Prelude.{◌≡◌, ◌==◌, ◌∷◌, ◌+◌, ◌≤◌, ◌<◌, [], length, IfSome};
ghost use Rattle.std.specs.Prelude.{IfNone, MatchOption, Some, None, position};
ghost use Rattle.std.specs.List.{before_first, after_first};
ghost use Rattle.wc_options.specs.File.{lines_of, parted};

/// The place of the first byte that equals the separator.
fn first_place(text: &[u8], separator: u8) -> Option<usize>
    ensures { result ≡ position (λ byte. byte == separator) text.now }
{
    text.iter().position(|byte| *byte == separator)
}

/// The bytes before the first byte that equals the separator, and those after it.
pub(crate) fn part_at(text: &[u8], separator: u8) -> (&[u8], &[u8])
    ensures before { result.0.now ≡ before_first (λ byte. byte == separator) text.now }
    ensures following { result.1.now ≡ after_first (λ byte. byte == separator) text.now }
{
    match first_place(text, separator) {
        Some(place) => (text.split_at(place).0, text.split_at(place + 1).1),
        None => (text, &[]),
    }
}

/// The first line of a file without its LF, and what comes after it. None exactly where the file
/// is empty.
#[tactic(auto, using(crate::proofs::FileLemmas::first_lines))]
pub fn first_line(bytes: &[u8]) -> Option<(&[u8], &[u8])>
    ensures none { IfNone result (lines_of bytes.now ≡ []) }
    ensures first { IfSome result (λ parts. lines_of bytes.now
        ≡ parts.0.now ∷ lines_of parts.1.now) }
    ensures shorter { IfSome result (λ parts. length parts.1.now < length bytes.now) }
{
    if bytes.is_empty() {
        return None;
    }
    Some(part_at(bytes, b'\n'))
}

/// What parts a name from its value.
pub(crate) const EQUALS_SIGN: &[u8] = b" = ";

/// The name and the value of a line, parted at the first ` = `. None exactly where there is none.
#[tactic(auto, using(crate::proofs::FileLemmas::parting))]
pub fn part_line(line: &[u8]) -> Option<(&[u8], &[u8])>
    ensures { MatchOption result (parted line.now ≡ None) (λ parts. parted line.now
        ≡ Some (parts.0.now, parts.1.now)) }
{
    for place in 0..line.len() {
        let (name, rest) = line.split_at(place);
        if let Some(value) = rest.strip_prefix(EQUALS_SIGN) {
            return Some((name, value));
        }
    }
    None
}
