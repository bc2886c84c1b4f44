//! Places that follow one another along a list, which is borrowed and never copied.

ghost use Rattle.std.specs.Prelude.{◌≡◌, ◌∷◌, [], ◌+◌, map, length, take, drop, reverse};
ghost use Rattle.std.specs.Prelude.{MatchOption, option_map, slice_get};
ghost use Rattle.wc_hdata.specs.Along.{along};
ghost use Rattle.wc_hdata.specs.Lists.{held_by};
ghost use Rattle.wc_hdata.specs.Ranges.{places_in};
ghost use Rattle.wc_hdata.specs.Reached.{Buffer as At_buffer, Line_at, held_lines, place_of};

use crate::count::Count;
use crate::place::{HeldLine, Place};
use std::marker::Model;
use wc_lines::Lines;
use wc_text::Handle;

/// A list of places.
#[derive(Drop)]
enum Source<'b, 'a> {
    /// One place.
    One(Place<'a>),
    /// Buffers in their order.
    Buffers(&'b [Handle]),
    /// The own lines of a buffer.
    Own(Handle, &'a Lines),
    /// Lines of a list that was made.
    Held(&'b [HeldLine<'a>]),
}

impl<'b, 'a> Source<'b, 'a> {
    fn len(&self) -> usize
        ensures { result ≡ length (places_in self.now) }
    {
        match self {
            Source::One(_) => 1,
            Source::Buffers(buffers) => buffers.len(),
            Source::Own(_, lines) => lines.len() as usize,
            Source::Held(lines) => lines.len(),
        }
    }

    fn at(&self, place: usize) -> Option<Place<'a>>
        ensures { option_map place_of result ≡ slice_get (places_in self.now) place }
    {
        match self {
            Source::One(only) => one_at(*only, place),
            Source::Buffers(buffers) => buffer_at(buffers, place),
            Source::Own(buffer, lines) => line_at(*buffer, lines, place),
            Source::Held(lines) => held_at(lines, place),
        }
    }
}

fn one_at<'a>(only: Place<'a>, place: usize) -> Option<Place<'a>>
    ensures { option_map place_of result ≡ slice_get (place_of only.entry ∷ []) place }
{
    if place == 0 { Some(only) } else { None }
}

fn buffer_at<'a>(buffers: &[Handle], place: usize) -> Option<Place<'a>>
    ensures { option_map place_of result ≡ slice_get (map At_buffer buffers.now) place }
{
    match buffers.get(place) {
        Some(buffer) => Some(Place::Buffer(*buffer)),
        None => None,
    }
}

fn line_at<'a>(buffer: Handle, lines: &'a Lines, place: usize) -> Option<Place<'a>>
    ensures { option_map place_of result ≡ slice_get (map Line_at (map (held_by buffer) lines.now.lines)) place }
{
    if place >= lines.len() as usize {
        return None;
    }
    match lines.at(place as u32) {
        Some(line) => Some(Place::Line(HeldLine { buffer, line })),
        None => None,
    }
}

fn held_at<'a>(lines: &[HeldLine<'a>], place: usize) -> Option<Place<'a>>
    ensures { option_map place_of result ≡ slice_get (map Line_at (held_lines lines.now)) place }
{
    match lines.get(place) {
        Some(held) => Some(Place::Line(*held)),
        None => None,
    }
}

/// The places that a step gives from one, of which some are still to come. Contracts see the list
/// of these.
#[derive(Drop)]
pub(crate) struct Cursor<'b, 'a> {
    source: Source<'b, 'a>,
    /// Those from `low` up to `high` are still to come.
    low: usize,
    high: usize,
    /// Whether the last one comes first.
    backward: bool,
}

impl<'b, 'a> Model for Cursor<'b, 'a> {
    ghost use Rattle.std.specs.Prelude.{List};
    ghost use Rattle.wc_hdata.specs.Reached.{Place};

    ghost Value = { List Place };

    ghost use Rattle.wc_hdata.specs.Ranges.{places_left, IsRange};

    ghost view = { places_left };

    ghost invariant = { IsRange };
}

impl<'b, 'a> Cursor<'b, 'a> {
    /// No places.
    pub(crate) fn none() -> Cursor<'b, 'a>
        ensures { result ≡ [] }
    {
        Cursor::along(Source::Buffers(&[]), Count::All, 0)
    }

    /// One place.
    pub(crate) fn one(place: Place<'a>) -> Cursor<'b, 'a>
        ensures { result ≡ place_of place.entry ∷ [] }
    {
        Cursor::along(Source::One(place), Count::All, 0)
    }

    /// The buffers to which a count goes from a place of their list.
    pub(crate) fn of_buffers(buffers: &'b [Handle], count: Count, at: usize) -> Cursor<'b, 'a>
        ensures { result ≡ map At_buffer (along count at buffers.now) }
    {
        Cursor::along(Source::Buffers(buffers), count, at)
    }

    /// The lines to which a count goes from a place of a buffer's own list.
    pub(crate) fn of_own(
        buffer: Handle,
        lines: &'a Lines,
        count: Count,
        at: usize,
    ) -> Cursor<'b, 'a>
        ensures { result ≡ map Line_at (along count at (map (held_by buffer) lines.now.lines)) }
    {
        Cursor::along(Source::Own(buffer, lines), count, at)
    }

    /// The lines to which a count goes from a place of a list that was made.
    pub(crate) fn of_held(lines: &'b [HeldLine<'a>], count: Count, at: usize) -> Cursor<'b, 'a>
        ensures { result ≡ map Line_at (along count at (held_lines lines.now)) }
    {
        Cursor::along(Source::Held(lines), count, at)
    }

    /// The places to which a count goes from one of a list.
    fn along(source: Source<'b, 'a>, count: Count, at: usize) -> Cursor<'b, 'a>
        ensures { result ≡ along count at (places_in source.entry) }
    {
        match count {
            Count::One => Cursor::forward(source, 1, at),
            Count::All => Cursor::onward(source, at),
            Count::Forward(most) => Cursor::forward(source, most as usize, at),
            Count::Backward(most) => Cursor::back(source, most as usize, at),
        }
    }

    /// The places from one on.
    fn onward(source: Source<'b, 'a>, at: usize) -> Cursor<'b, 'a>
        ensures { result ≡ drop at (places_in source.entry) }
    {
        let high = source.len();
        Cursor {
            source,
            low: at.min(high),
            high,
            backward: false,
        }
    }

    /// The places from one on, so many at most.
    fn forward(source: Source<'b, 'a>, most: usize, at: usize) -> Cursor<'b, 'a>
        ensures { result ≡ take most (drop at (places_in source.entry)) }
    {
        let all = source.len();
        let low = at.min(all);
        Cursor {
            source,
            low,
            high: low + most.min(all - low),
            backward: false,
        }
    }

    /// The places up to one, the last one first, so many at most.
    fn back(source: Source<'b, 'a>, most: usize, at: usize) -> Cursor<'b, 'a>
        ensures { result ≡ take most (reverse (take (at + 1) (places_in source.entry))) }
    {
        let high = at.saturating_add(1).min(source.len());
        Cursor {
            source,
            low: high.saturating_sub(most),
            high,
            backward: true,
        }
    }

    /// How many places are still to come.
    pub(crate) fn len(&self) -> usize
        ensures { result ≡ length self.now }
    {
        self.high - self.low
    }

    /// The next place. None where no more are to come.
    #[inline(always)]
    pub(crate) fn next(&mut self) -> Option<Place<'a>>
        ensures { MatchOption result ((self.old ≡ []) × (self.new ≡ []))
            (λ place. self.old ≡ place_of place ∷ self.new) }
    {
        if self.low == self.high {
            return None;
        }
        if self.backward {
            self.high -= 1;
            self.source.at(self.high)
        } else {
            self.low += 1;
            self.source.at(self.low - 1)
        }
    }
}
