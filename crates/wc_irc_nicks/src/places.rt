ghost use Rattle.std.specs.Prelude.{◌≡◌, ◌<◌, ◌+◌, Some, length, option_map, slice_set};
ghost use Rattle.std.specs.Prelude.{filter, is_some, vec_len, vec_capacity};
ghost use Rattle.wc_nicklist.specs.Index.{at_long};
ghost use Rattle.wc_irc_nicks.specs.Kept.{filled, seat_at, place_in, under_modes, under_name, IsKept};
ghost use Rattle.wc_irc_nicks.specs.Kept.{CanMove, IsMoved, IsNoted};
ghost use Rattle.wc_irc_nicks.specs.Seats.{without_seat};

use crate::folded::FoldedNick;
use crate::nick_index::{NickIndex, forget, move_to};
use wc_irc_texts::{ModeSet, Seat};
use wc_ircmsg::CaseMap;
use wc_text::Text;

/// The nicks of a channel in the order of their coming, with holes where some went.
pub(crate) type Places = Vec<Option<Seat>>;

/// Gives the nick at a place other modes.
pub(crate) fn set_modes(places: &mut Places, place: usize, modes: ModeSet)
    requires { place < length places.old.items }
    ensures places { places.new.items ≡ slice_set places.old.items place
        (option_map (under_modes modes) (seat_at places.old.items place)) }
    ensures len { vec_len places.new ≡ vec_len places.old }
    ensures capacity { vec_capacity places.new ≡ vec_capacity places.old }
{
    if let Some(seat) = &mut places[place] {
        seat.modes = modes;
    }
}

/// Gives the nick at a place another name.
pub(crate) fn set_name(places: &mut Places, place: usize, nick: Text)
    requires { place < length places.old.items }
    ensures places { places.new.items ≡ slice_set places.old.items place
        (option_map (under_name nick) (seat_at places.old.items place)) }
    ensures len { vec_len places.new ≡ vec_len places.old }
    ensures capacity { vec_capacity places.new ≡ vec_capacity places.old }
{
    if let Some(seat) = &mut places[place] {
        seat.nick = nick;
    }
}

/// Takes a nick out of its place, which becomes a hole, and out of the index.
pub(crate) fn take_out(
    places: &mut Places,
    index: &mut NickIndex,
    case_map: CaseMap,
    nick: &[u8],
    place: usize,
)
    requires kept { IsKept case_map places.old.items (at_long index.old) }
    requires found { place_in case_map (at_long index.old) nick.now ≡ Some place }
    ensures kept { IsKept case_map places.new.items (at_long index.new) }
    ensures seats { filled places.new.items
        ≡ without_seat case_map nick.now (filled places.old.items) }
    ensures size { length places.new.items ≡ length places.old.items }
    ensures fewer { length (filled places.old.items) ≡ length (filled places.new.items) + 1 }
{
    forget(index, case_map, nick);
    places[place] = None;
}

/// Changes what the index has for the nick at a place.
fn note(places: &[Option<Seat>], index: &mut NickIndex, case_map: CaseMap, place: usize)
    requires inside { place < length places.now }
    requires there { CanMove case_map (at_long index.old) (seat_at places.now place) }
    ensures { IsMoved case_map (seat_at places.now place) place (at_long index.old)
        (at_long index.new) }
{
    let Some(seat) = &places[place] else {
        return;
    };
    let folded = FoldedNick::new(case_map, seat.nick.as_slice());
    move_to(index, folded.as_slice(), place);
}

fn note_all(places: &[Option<Seat>], index: &mut NickIndex, case_map: CaseMap)
    requires { IsNoted case_map places.now (at_long index.old) 0 }
    ensures { IsKept case_map places.now (at_long index.new) }
{
    for place in 0..places.len() {
        note(places, index, case_map, place);
    }
}

fn without_holes(places: &mut Places)
    ensures { places.new.items ≡ filter is_some places.old.items }
{
    places.retain(|place| place.is_some());
}

/// Takes the holes out. It takes no memory.
pub(crate) fn close_up(places: &mut Places, index: &mut NickIndex, case_map: CaseMap)
    requires { IsKept case_map places.old.items (at_long index.old) }
    ensures kept { IsKept case_map places.new.items (at_long index.new) }
    ensures seats { filled places.new.items ≡ filled places.old.items }
    ensures full { length places.new.items ≡ length (filled places.new.items) }
{
    without_holes(places);
    note_all(places.as_slice(), index, case_map);
}
