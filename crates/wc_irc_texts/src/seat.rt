ghost use Rattle.std.specs.Prelude.{◌≡◌, ◌<◌, ◌==◌, ◌≢◌, ℕ, MatchOption};
ghost use Rattle.std.specs.Int.{bit_at};
ghost use Rattle.wc_irc_texts.specs.ModeBits.{IsHighest, highest, bits_with, bits_without};
ghost use Rattle.wc_irc_texts.specs.ModeBits.{bits_changed};

use wc_text::Text;

/// The most modes that PREFIX has.
const MOST_MODES: usize = 64;

/// The modes of a nick as bits, the first of them for the first letter of PREFIX, which is the
/// highest mode. PREFIX has letters of ASCII alone, each once, so that there are bits enough.
#[derive(Clone, Copy, Debug, PartialEq, Eq)]
pub struct ModeSet(u64);

impl ModeSet {
    pub const NONE: ModeSet = ModeSet(0);

    /// Whether the mode at this place of PREFIX is one of them.
    pub fn has(self, place: usize) -> bool
        requires { place < 64 }
        ensures { result ≡ (bit_at self.0 place == 1) }
    {
        self.0 >> place & 1 == 1
    }

    /// These with the mode at this place of PREFIX. The others stay.
    pub fn with(self, place: usize) -> ModeSet
        requires { place < 64 }
        ensures bits { result.0 ≡ bits_with place self.0 }
        ensures here { bit_at result.0 place ≡ 1 }
        ensures others { (other : ℕ) → other ≢ place → bit_at result.0 other ≡ bit_at self.0 other }
    {
        ModeSet(self.0 | 1 << place)
    }

    /// These without the mode at this place of PREFIX. The others stay.
    pub fn without(self, place: usize) -> ModeSet
        requires { place < 64 }
        ensures bits { result.0 ≡ bits_without place self.0 }
        ensures here { bit_at result.0 place ≡ 0 }
        ensures others { (other : ℕ) → other < 64 → other ≢ place →
            bit_at result.0 other ≡ bit_at self.0 other }
    {
        ModeSet(self.0 & !(1 << place))
    }

    /// These with the mode at this place of PREFIX, or without it. A place without a bit has none.
    #[tactic(auto, unfolding(crate::specs::ModeBits::bits_changed))]
    pub fn changed(self, adds: bool, place: usize) -> ModeSet
        ensures { result.0 ≡ bits_changed adds place self.0 }
    {
        if place >= MOST_MODES {
            return self;
        }
        if adds {
            self.with(place)
        } else {
            self.without(place)
        }
    }

    /// The place of the highest of them.
    #[tactic(auto, unfolding(crate::specs::ModeBits::highest))]
    pub fn highest(self) -> Option<usize>
        ensures first { MatchOption result (self.0 ≡ 0) (IsHighest self.0) }
        ensures place { result ≡ highest self.0 }
    {
        if self.0 == 0 {
            return None;
        }
        let bits = self.0;
        Some(bits.trailing_zeros() as usize)
    }
}

/// A nick of a channel with its modes.
#[derive(Drop)]
pub struct Seat {
    pub nick: Text,
    pub modes: ModeSet,
}
