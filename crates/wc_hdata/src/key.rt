//! The keys of each element.

ghost use Rattle.std.specs.Prelude.{◌≡◌};
ghost use Rattle.wc_hdata.specs.Keys.{list_at, keys_at};

use crate::element::Element;
pub use wc_keys::Key;
use wc_keys::KeyList;

impl Element {
    pub(crate) fn list(self) -> KeyList
        ensures { result ≡ list_at self }
    {
        match self {
            Element::Buffer => KeyList::Buffer,
            Element::Lines => KeyList::Lines,
            Element::Line => KeyList::Line,
            Element::LineData => KeyList::LineData,
        }
    }

    /// The keys of the element, in order.
    pub fn keys(self) -> &'static [Key]
        ensures { result.now ≡ keys_at self }
    {
        self.list().keys()
    }
}
