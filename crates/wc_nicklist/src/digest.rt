ghost use Rattle.std.specs.Prelude.{◌≡◌, ◌≤◌, ◌<◌, ◌^◌, ◌∷◌, [], List, ℕ, get_or, IsTrue};
ghost use Rattle.wc_nicklist.specs.Digest.{front, bytes_compared, place_of, IsBytes, IsPathDigest};
ghost use Rattle.wc_nicklist.specs.Digest.{Tells};
ghost use Rattle.wc_nicklist.specs.Order.{kind};

use wc_text::Text;

/// How many bytes of a name a digest holds.
const NAME_BYTES: usize = 16;

/// How long the one name of a path may be that a digest tells.
const PATH_BYTES: usize = 15;

/// The place of rows whose path is too long for a digest.
pub(crate) const NO_PLACE: u128 = 255;

/// What tells most addresses apart, as two numbers, so that a search reads few names.
#[derive(Clone, Copy)]
pub(crate) struct Digest {
    /// The kind, and the path where it is short: rows of the same place have the same path.
    pub(crate) place: u128,
    /// The first bytes of the name in lower case, in their order.
    pub(crate) name: u128,
}

impl Digest {
    /// The digest where there is no address.
    pub(crate) fn none() -> Digest {
        Digest {
            place: NO_PLACE,
            name: 0,
        }
    }

    /// Whether this and another digest tell the order of their addresses: that of their names.
    pub(crate) fn tells(&self, other: &Digest) -> bool
        ensures { IsTrue result → Tells self.now other.now }
    {
        self.place == other.place && self.place != NO_PLACE && self.name != other.name
    }

    /// The digest of an address.
    pub(crate) fn of(path: &[Text], is_group: bool, name: &[u8]) -> Digest
        ensures { IsPathDigest result path.now is_group name.now }
    {
        Digest {
            place: place(path, is_group),
            name: front(name, NAME_BYTES, false),
        }
    }
}

fn place(path: &[Text], is_group: bool) -> u128
    ensures place { result ≡ place_of path.now is_group }
    ensures bytes { (n : List ℕ) → path.now ≡ n ∷ [] → IsBytes n }
{
    match path {
        [] => kind(is_group),
        [name] => place_below(name.as_slice(), is_group),
        _ => NO_PLACE,
    }
}

/// 1 for a group and 0 for a nick.
fn kind(is_group: bool) -> u128
    ensures kind { result ≡ kind is_group }
    ensures few { result ≤ 1 }
{
    if is_group { 1 } else { 0 }
}

/// The place of what is right below a group of the root.
fn place_below(name: &[u8], is_group: bool) -> u128
    ensures place { result ≡ place_of (name.now ∷ []) is_group }
    ensures bytes { IsBytes name.now }
{
    let bytes = front(name, PATH_BYTES, true);
    if name.len() > PATH_BYTES {
        return NO_PLACE;
    }
    bytes * 256 + (2 + 2 * name.len() as u128 + kind(is_group))
}

/// The first bytes of a text as one number, the first of them highest.
pub(crate) fn front(bytes: &[u8], count: usize, keeps_case: bool) -> u128
    requires { count ≤ 16 }
    ensures front { result ≡ front count (bytes_compared keeps_case bytes.now) }
    ensures bytes { IsBytes bytes.now }
    ensures bound { result < 256 ^ count }
{
    let mut front = 0;
    for i in 0..count {
        front = front * 256 + u128::from(byte_at(bytes, i, keeps_case));
    }
    front
}

/// A byte of a text, and 0 after its end.
fn byte_at(bytes: &[u8], at: usize, keeps_case: bool) -> u8
    ensures { result ≡ get_or (bytes_compared keeps_case bytes.now) at 0 }
{
    match bytes.get(at) {
        Some(byte) if keeps_case => *byte,
        Some(byte) => byte.to_ascii_lowercase(),
        None => 0,
    }
}
