ghost use Rattle.std.specs.Prelude.{◌≡◌, ◌==◌, map, ℕ, if◌then◌else◌};
ghost use Rattle.wc_edge.specs.Rows.{number_of, is_there, is_undrained, is_blocked, IsAscending};
ghost use Rattle.wc_outside.specs.Keyed.{IsKeyPlace, PlaceOf};

use wc_text::LinkId;

/// What is seen of a link that is there.
#[derive(Clone, Copy)]
pub(crate) struct Row {
    pub(crate) link: LinkId,
    /// Whether it was reported and is not drained.
    pub(crate) undrained: bool,
    /// Whether its last write found no room, and no later wait reported it.
    pub(crate) blocked: bool,
}

/// Where the row of a link is.
pub(crate) fn place_of(rows: &[Row], link: LinkId) -> Option<usize>
    requires { IsAscending (map number_of rows.now) }
    ensures { PlaceOf number_of link.0 rows.now result }
{
    let mut low = 0usize;
    let mut high = rows.len();
    while low < high {
        let middle = low + (high - low) / 2;
        let number = rows[middle].link.0;
        if number == link.0 {
            return Some(middle);
        }
        if number < link.0 {
            low = middle + 1;
        } else {
            high = middle;
        }
    }
    None
}

/// Notes of a link, which is at this place, whether it is reported and not drained, and whether it
/// is blocked.
pub(crate) fn set_row(rows: &mut [Row], place: usize, link: LinkId, undrained: bool, blocked: bool)
    requires { IsKeyPlace number_of link.0 rows.old place }
    ensures undrained { (other : ℕ) → is_undrained rows.new other
        ≡ (if other == link.0 then undrained else is_undrained rows.old other) }
    ensures blocked { (other : ℕ) → is_blocked rows.new other ≡ (if other == link.0 then blocked
        else is_blocked rows.old other) }
    ensures there { (other : ℕ) → is_there rows.new other ≡ is_there rows.old other }
    ensures numbers { map number_of rows.new ≡ map number_of rows.old }
{
    let row = &mut rows[place];
    row.undrained = undrained;
    row.blocked = blocked;
}

/// Notes whether a link, which is at this place, is reported and not drained.
pub(crate) fn set_undrained(rows: &mut [Row], place: usize, link: LinkId, undrained: bool)
    requires { IsKeyPlace number_of link.0 rows.old place }
    ensures undrained { (other : ℕ) → is_undrained rows.new other
        ≡ (if other == link.0 then undrained else is_undrained rows.old other) }
    ensures there { (other : ℕ) → is_there rows.new other ≡ is_there rows.old other }
    ensures blocked { (other : ℕ) → is_blocked rows.new other ≡ is_blocked rows.old other }
    ensures numbers { map number_of rows.new ≡ map number_of rows.old }
{
    rows[place].undrained = undrained;
}

/// Notes whether the last write to a link, which is at this place, found no room.
pub(crate) fn set_blocked(rows: &mut [Row], place: usize, link: LinkId, blocked: bool)
    requires { IsKeyPlace number_of link.0 rows.old place }
    ensures blocked { (other : ℕ) → is_blocked rows.new other ≡ (if other == link.0 then blocked
        else is_blocked rows.old other) }
    ensures there { (other : ℕ) → is_there rows.new other ≡ is_there rows.old other }
    ensures undrained { (other : ℕ) → is_undrained rows.new other ≡ is_undrained rows.old other }
    ensures numbers { map number_of rows.new ≡ map number_of rows.old }
{
    rows[place].blocked = blocked;
}
