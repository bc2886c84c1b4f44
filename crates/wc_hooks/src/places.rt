ghost use Rattle.std.specs.Prelude.{◌≡◌, ◌<◌, ◌≤◌, None, Some, position, is_none, replicate};
ghost use Rattle.std.specs.Prelude.{is_some, length, take, if◌then◌else◌, true, IfOk};
ghost use Rattle.std.specs.List.{list_any, slice_index_or, slice_set};
ghost use Rattle.wc_hooks.specs.declared.cursor.Cursor.{Cursor};
ghost use Rattle.wc_hooks.specs.Kinds.{is_relay};

use crate::cursor::Cursor;
use crate::kind::HookKind;
use std::alloc::Global;
use wc_text::NoMemory;

/// How many passes of other kinds than the one of relay sessions may be open inside one another.
pub const OTHER_PLACES: usize = 16;

/// The place of the pass that tells relay sessions, after the others.
pub const RELAY_PLACE: usize = OTHER_PLACES;

/// All places, with no pass open.
pub fn new_places(alloc: Global) -> Result<Vec<Option<Cursor>>, NoMemory>
    ensures { IfOk result (λ places. places.items ≡ replicate 17 None) }
{
    let mut places = Vec::new(alloc);
    for count in 0..OTHER_PLACES + 1 {
        if places.push(None).is_err() {
            return Err(NoMemory);
        }
    }
    Ok(places)
}

/// A free place for a pass of this kind.
pub fn place_for(places: &[Option<Cursor>], kind: HookKind) -> Option<usize>
    requires { 16 ≤ length places.now }
    ensures { result ≡ (if is_relay kind then Some 16 else position is_none (take 16 places.now)) }
{
    if kind.is_relay() {
        return Some(RELAY_PLACE);
    }
    free_place(&places[..OTHER_PLACES])
}

/// The first place where no pass is open.
fn free_place(places: &[Option<Cursor>]) -> Option<usize>
    ensures { result ≡ position is_none places.now }
{
    places.iter().position(|place| place.is_none())
}

/// Whether any pass is open.
pub fn is_any_open(places: &[Option<Cursor>]) -> bool
    ensures { result ≡ list_any is_some places.now }
{
    places.iter().any(|place| place.is_some())
}

/// The cursor of the pass that is open at this place.
#[tactic(auto, using(crate::proofs::Lists::open_inside))]
pub fn cursor_at(places: &Vec<Option<Cursor>>, place: usize) -> Cursor
    requires { is_some (slice_index_or places.now.items place None) ≡ true }
    ensures { slice_index_or places.now.items place None ≡ Some result }
{
    places[place].unwrap()
}

/// Whether a pass is open at this place.
pub fn is_open(places: &Vec<Option<Cursor>>, place: usize) -> bool
    requires { place < length places.now.items }
    ensures { result ≡ is_some (slice_index_or places.now.items place None) }
{
    places[place].is_some()
}

/// Puts a cursor, or none, at this place.
pub fn put_cursor(places: &mut Vec<Option<Cursor>>, place: usize, cursor: Option<Cursor>)
    requires { place < length places.old.items }
    ensures { places.new.items ≡ slice_set places.old.items place cursor }
{
    places[place] = cursor;
}
