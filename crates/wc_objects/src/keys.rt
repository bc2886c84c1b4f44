//! The path and the keys of an `hda`, and the types that they name.

ghost use Rattle.std.specs.Prelude.{◌≡◌, ◌<◌, ◌+◌, ◌∷◌, [], true, false, Some, None, length};
ghost use Rattle.std.specs.Prelude.{MatchOption, IfSome};
ghost use Rattle.wc_objects.specs.Forms as spec;
ghost use Rattle.wc_objects.specs.Left.{keys_left};

use crate::kind::Kind;

/// The first piece of a text that is parted by a mark, and what comes after the mark.
fn first_piece(mark: u8, text: &[u8]) -> (&[u8], Option<&[u8]>)
    ensures pieces { MatchOption result.1 (spec.pieces_of mark text.now ≡ result.0.now ∷ [])
        (λ rest. spec.pieces_of mark text.now ≡ result.0.now ∷ spec.pieces_of mark rest.now) }
    ensures shorter { IfSome result.1 (λ rest. length result.0.now + length rest.now
        < length text.now) }
{
    for (i, b) in text.iter().enumerate() {
        if *b == mark {
            return (&text[..i], Some(&text[i + 1..]));
        }
    }
    (text, None)
}

/// Every type, in the order of its letters' table.
const KINDS: [Kind; 12] = [
    Kind::Chr,
    Kind::Int,
    Kind::Lon,
    Kind::Str,
    Kind::Buf,
    Kind::Ptr,
    Kind::Tim,
    Kind::Htb,
    Kind::Hda,
    Kind::Inf,
    Kind::Inl,
    Kind::Arr,
];

fn kind_among(kinds: &[Kind], letters: &[u8]) -> Option<Kind>
    ensures { result ≡ spec.kind_among kinds.now letters.now }
{
    for kind in kinds {
        if kind.letters().as_slice() == letters {
            return Some(*kind);
        }
    }
    None
}

/// The type that three letters name.
#[tactic(auto, unfolding(crate::specs::Forms::named_kind))]
pub fn named_kind(letters: &[u8]) -> Option<Kind>
    ensures { result ≡ spec.named_kind letters.now }
{
    kind_among(&KINDS, letters)
}

/// The type that a key gives to its values, where the bytes are a key.
#[tactic(auto, unfolding(crate::specs::Forms::key_kind))]
fn key_kind(key: &[u8]) -> Option<Kind>
    ensures { result ≡ spec.key_kind key.now }
{
    if key.len() <= 4 || key[key.len() - 4] != b':' {
        return None;
    }
    let kind = named_kind(&key[key.len() - 3..])?;
    if kind.is_value() { Some(kind) } else { None }
}

/// How many names an h-path has, where the bytes are one.
pub fn path_depth(path: &[u8]) -> Option<usize>
    ensures { MatchOption result (spec.is_path path.now ≡ false)
        (λ depth. (spec.is_path path.now ≡ true) × (depth ≡ length (spec.names_of path.now))) }
{
    let mut depth = 0usize;
    let mut rest = Some(path);
    while let Some(names) = rest {
        let (name, following) = first_piece(b'/', names);
        if name.is_empty() {
            return None;
        }
        depth += 1;
        rest = following;
    }
    Some(depth)
}

/// The keys of an `hda`, none for an empty text.
pub fn all_keys(keys: &[u8]) -> Option<&[u8]>
    ensures { keys_left result ≡ spec.keys_of keys.now }
{
    if keys.is_empty() { None } else { Some(keys) }
}

/// The type of the first of one or more keys, and the keys after it.
pub fn first_key(keys: &[u8]) -> Option<(Kind, Option<&[u8]>)>
    ensures kinds { MatchOption result (spec.kinds_of_keys (spec.pieces_of 44 keys.now) ≡ None)
        (λ x. spec.kinds_of_keys (spec.pieces_of 44 keys.now) ≡ spec.with_kind (Some x.0)
        (spec.kinds_of_keys (keys_left x.1))) }
    ensures shorter { IfSome result (λ x. IfSome x.1 (λ rest. length rest.now < length keys.now)) }
{
    let (key, rest) = first_piece(b',', keys);
    let kind = key_kind(key)?;
    Some((kind, rest))
}
