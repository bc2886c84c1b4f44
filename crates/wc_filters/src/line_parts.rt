ghost use Rattle.std.specs.Prelude.{◌≡◌, codes};
ghost use Rattle.std.specs.List.{list_any};
ghost use Rattle.std.specs.Str.{bytes_eq};
ghost use Rattle.wc_filters.specs.Masks.{has_tag};
ghost use Rattle.wc_filters.specs.Hides.{is_shielded};
ghost use Rattle.wc_filters.specs.Parts.{tags_in};

use wc_lines::PackedLine;
use wc_text::{Text, mask_matches};

/// The tags of a line, wherever they lie.
#[derive(Clone, Copy)]
pub enum Tags<'a> {
    Listed(&'a [Text]),
    Packed(&'a PackedLine),
}

impl<'a> Tags<'a> {
    /// Whether the mask matches some tag, with case ignored.
    pub(crate) fn has(self, mask: &[u8]) -> bool
        ensures { result ≡ has_tag mask.now (tags_in self.entry) }
    {
        match self {
            Tags::Listed(tags) => tags
                .iter()
                .any(|tag| mask_matches(mask, tag.as_slice(), true)),
            Tags::Packed(line) => packed_has(line, mask),
        }
    }

    /// Whether there is the tag that keeps a line from being hidden.
    pub(crate) fn shield(self) -> bool
        ensures { result ≡ is_shielded (tags_in self.entry) }
    {
        match self {
            Tags::Listed(tags) => tags
                .iter()
                .any(|tag| tag.as_slice() == b"no_filter".as_slice()),
            Tags::Packed(line) => packed_shield(line),
        }
    }
}

fn packed_has(line: &PackedLine, mask: &[u8]) -> bool
    ensures { result ≡ has_tag mask.now line.now.tags }
{
    line.tags().any(|tag| mask_matches(mask, tag, true))
}

fn packed_shield(line: &PackedLine) -> bool
    ensures { result ≡ is_shielded line.now.tags }
{
    line.tags().any(|tag| tag == b"no_filter".as_slice())
}

/// What of a line decides whether it is hidden.
#[derive(Clone, Copy)]
pub(crate) struct LineParts<'a> {
    pub(crate) tags: Tags<'a>,
    pub(crate) prefix: &'a [u8],
    pub(crate) message: &'a [u8],
}
