//! The servers of a list, by their links.

ghost use Rattle.std.specs.Option.{option_copied};
ghost use Rattle.std.specs.Prelude.{◌≡◌, ◌≤◌, ◌==◌, position, length, true, false, map};
ghost use Rattle.std.specs.Prelude.{IfSome, OnOk, OnErr};
ghost use Rattle.wc_ircmsg.specs.Utf8.{MessageIsUtf8};
ghost use Rattle.wc_outside.specs.Keyed.{at_key, without, PlaceOf};
ghost use Rattle.wc_servers.specs.Lost.{Stood, Took, Lost};
ghost use Rattle.wc_servers.specs.Seats.{seat_link, links_of, told_at, gone_at, is_open_at};
ghost use Rattle.wc_servers.specs.Seats.{unsent_at, first_leaving, earlier_of, quitting, QuitFront};

use crate::seat::Seat;
use std::alloc::Global;
use wc_buffers::Buffers;
use wc_irc::Act;
use wc_ircmsg::Message;
use wc_text::{Cause, Items, LinkId, NoMemory};

fn position_of(seats: &[Seat], link: LinkId) -> Option<usize>
    ensures { result ≡ position (λ seat. seat_link seat == link.0) seats.now }
{
    seats.iter().position(|seat| seat.link() == link)
}

/// The place of the server of a link.
pub(crate) fn seat_place(seats: &[Seat], link: LinkId) -> Option<usize>
    ensures { PlaceOf seat_link link.0 seats.now result }
{
    position_of(seats, link)
}

/// Puts a line with its end after the unsent bytes of the server of a link, where it is open.
pub(crate) fn tell_at(seats: &mut [Seat], link: LinkId, line: &[u8]) -> Result<(), NoMemory>
    ensures told { OnOk result
        (seats.new ≡ told_at link.0 line.now seats.old (at_key seat_link link.0 seats.old)) }
    ensures unchanged { OnErr result (seats.new ≡ seats.old) }
    ensures links { links_of seats.new ≡ links_of seats.old }
{
    let Some(place) = seat_place(seats, link) else {
        return Ok(());
    };
    if !seats[place].is_open() {
        return Ok(());
    }
    seats[place].tell(line)
}

/// What is said as the link of a server stands, where it is open.
pub(crate) fn stand_at(
    seats: &mut [Seat],
    alloc: Global,
    link: LinkId,
) -> Result<Items<Act>, NoMemory>
    ensures stood { Stood link.0 seats.old seats.new result (at_key seat_link link.0 seats.old) }
    ensures links { links_of seats.new ≡ links_of seats.old }
{
    let Some(place) = seat_place(seats, link) else {
        return Ok(Items::new(alloc));
    };
    if !seats[place].is_open() {
        return Ok(Items::new(alloc));
    }
    seats[place].stand(alloc)
}

/// What follows of a message of a server, where it is open.
pub(crate) fn take_at(
    seats: &mut [Seat],
    alloc: Global,
    link: LinkId,
    buffers: &Buffers,
    message: &Message,
) -> Result<Items<Act>, NoMemory>
    requires { MessageIsUtf8 message.now }
    ensures took { Took link.0 buffers.now message.now seats.old seats.new result
        (at_key seat_link link.0 seats.old) }
    ensures links { links_of seats.new ≡ links_of seats.old }
{
    let Some(place) = seat_place(seats, link) else {
        return Ok(Items::new(alloc));
    };
    if !seats[place].is_open() {
        return Ok(Items::new(alloc));
    }
    seats[place].take(alloc, buffers, message)
}

/// Has the server of a link leave for this cause, after so many others, where it is open.
pub(crate) fn lose_at(
    seats: &mut [Seat],
    alloc: Global,
    link: LinkId,
    cause: Cause,
    rank: u64,
    buffers: &Buffers,
) -> Result<Items<Act>, NoMemory>
    ensures lost { Lost link.0 buffers.now cause rank seats.old seats.new result
        (at_key seat_link link.0 seats.old) }
    ensures shut { is_open_at (at_key seat_link link.0 seats.new) ≡ false }
    ensures links { links_of seats.new ≡ links_of seats.old }
{
    let Some(place) = seat_place(seats, link) else {
        return Ok(Items::new(alloc));
    };
    if !seats[place].is_open() {
        return Ok(Items::new(alloc));
    }
    seats[place].lose(alloc, cause, rank, buffers)
}

/// Takes the first unsent bytes of the server of a link away.
pub(crate) fn gone_at(seats: &mut [Seat], link: LinkId, count: usize)
    requires { IfSome (unsent_at (at_key seat_link link.0 seats.old))
        (λ unsent. count ≤ length unsent) }
    ensures gone { seats.new ≡ gone_at link.0 count seats.old (at_key seat_link link.0 seats.old) }
    ensures links { links_of seats.new ≡ links_of seats.old }
{
    if let Some(place) = seat_place(seats, link) {
        seats[place].gone(count);
    }
}

/// Takes the server of a link out.
pub(crate) fn drop_seat(seats: &mut Vec<Seat>, link: LinkId)
    ensures { seats.new.items ≡ without seat_link link.0 seats.old.items }
{
    seats.retain(|seat| seat.link() != link);
}

/// Tells them one after another that the run ends, up to one that finds no memory for that. It
/// answers whether all were told.
pub(crate) fn quit_all(seats: &mut [Seat], alloc: Global) -> bool
    ensures told { result ≡ true → seats.new ≡ map quitting seats.old }
    ensures front { QuitFront seats.old seats.new }
    ensures links { links_of seats.new ≡ links_of seats.old }
{
    let mut told = true;
    for seat in seats.iter_mut() {
        told = told && seat.quit(alloc);
    }
    told
}

/// The one that began to leave first, of those that are leaving.
pub(crate) fn first_leaving(seats: &[Seat]) -> Option<&Seat>
    ensures { option_copied result ≡ first_leaving seats.now }
{
    let mut first: Option<&Seat> = None;
    for seat in seats {
        if seat.is_open() {
            continue;
        }
        first = Some(earlier(first, seat));
    }
    first
}

/// The one that began to leave first, where the other one comes after it in the list.
fn earlier<'a>(first: Option<&'a Seat>, seat: &'a Seat) -> &'a Seat
    ensures { result.now ≡ earlier_of (option_copied first.entry) seat.now }
{
    match first {
        Some(first) if first.rank() <= seat.rank() => first,
        _ => seat,
    }
}
