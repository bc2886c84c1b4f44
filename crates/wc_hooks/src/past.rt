ghost use Rattle.std.specs.Prelude.{◌≡◌, ◌<◌};
ghost use Rattle.wc_hooks.specs.Past.{was_at, opened_at, noted};

const ALL_PLACES: u32 = u32::MAX;

/// Two words with a bit for each place of a pass. The first tells whether the entry was enabled or
/// disabled since the pass of that place opened, and where it was, the second tells whether it was
/// enabled then.
#[derive(Clone, Copy, Debug, Drop)]
pub struct Past {
    pub changed: u32,
    pub was: u32,
}

/// Nothing has changed.
pub fn unchanged() -> Past {
    Past { changed: 0, was: 0 }
}

/// Whether an entry that is enabled now, or is not, was enabled as the pass of this place opened.
#[tactic(auto, unfolding(crate::specs::Past::was_at))]
pub fn was_enabled(past: Past, place: usize, enabled: bool) -> bool
    requires { place < 32 }
    ensures { result ≡ was_at past place enabled }
{
    let bit = place as u32;
    if past.changed >> bit & 1 == 1 {
        past.was >> bit & 1 == 1
    } else {
        enabled
    }
}

/// A pass opens at this place.
#[tactic(auto, unfolding(crate::specs::Past::opened_at))]
pub fn opened(past: Past, place: usize) -> Past
    requires { place < 32 }
    ensures { result ≡ opened_at place past }
{
    let bit = place as u32;
    Past {
        changed: past.changed & !(1 << bit),
        was: past.was,
    }
}

/// An entry that was enabled until now, or was not, is enabled or disabled.
#[tactic(auto, unfolding(crate::specs::Past::noted))]
pub fn changing(past: Past, enabled: bool) -> Past
    ensures { result ≡ noted enabled past }
{
    let was = past.was & past.changed;
    let unchanged = past.changed ^ ALL_PLACES;
    Past {
        changed: ALL_PLACES,
        was: if enabled { was | unchanged } else { was },
    }
}
