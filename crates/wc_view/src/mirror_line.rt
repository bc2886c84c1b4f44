//! The lines that a mirror holds, each with its texts in one block of memory.

ghost use Rattle.std.specs.Prelude.{◌≡◌, length, List, []};
ghost use Rattle.std.specs.Iterator.{YieldsFirstRef, item_count};
ghost use Rattle.wc_lines.specs.TagsLeft.{tags_left};
ghost use Rattle.wc_view.specs.LinesLeft.{mirror_lines_left};
ghost use Rattle.wc_view.specs.Rows.{row_with};

use crate::rows::LineMarks;
use std::collections::{VecDeque, vec_deque};
use std::marker::Model;
use std::mem::size_of;
use wc_lines::{PackedTexts, TagIter};
use wc_text::Handle;

/// A line that a mirror holds, ordered so that no room is lost between the fields. Contracts see the
/// line.
#[derive(Drop)]
pub struct PackedMirrorLine {
    content: Handle,
    date: u64,
    date_printed: u64,
    texts: PackedTexts,
    id: u32,
    usec: u32,
    usec_printed: u32,
    displayed: bool,
    notify: i8,
    highlight: bool,
}

// What a line takes in its list, beside the block of its texts.
const _: () = prove!(size_of::<PackedMirrorLine>() <= 72);

impl Model for PackedMirrorLine {
    ghost use Rattle.wc_view.specs.declared.mirror_buffer.MirrorLine.{MirrorLine};

    ghost Value = { MirrorLine };

    ghost view = { λ a. record {
      content = a.content;
      id = a.id;
      date = a.date;
      usec = a.usec;
      date_printed = a.date_printed;
      usec_printed = a.usec_printed;
      displayed = a.displayed;
      notify = a.notify;
      highlight = a.highlight;
      tags = a.texts.tags;
      prefix = a.texts.prefix;
      message = a.texts.message;
    } };
}

impl PackedMirrorLine {
    /// The line of this content, with these marks and texts. It takes no memory.
    pub(crate) fn new(content: u64, marks: LineMarks, texts: PackedTexts) -> PackedMirrorLine
        ensures { result ≡ (row_with content marks texts).line }
    {
        PackedMirrorLine {
            content: Handle(content),
            date: marks.dates.date,
            date_printed: marks.dates.date_printed,
            texts,
            id: marks.id,
            usec: marks.dates.usec,
            usec_printed: marks.dates.usec_printed,
            displayed: marks.displayed,
            notify: marks.notify,
            highlight: marks.highlight,
        }
    }

    /// The name of what the line says, which a mixed buffer's line shares.
    pub fn content(&self) -> Handle
        ensures { result ≡ self.now.content }
    {
        self.content
    }

    /// The number of the line in its buffer.
    pub fn id(&self) -> u32
        ensures { result ≡ self.now.id }
    {
        self.id
    }

    /// In seconds since 1970.
    pub fn date(&self) -> u64
        ensures { result ≡ self.now.date }
    {
        self.date
    }

    /// The microseconds of the date.
    pub fn usec(&self) -> u32
        ensures { result ≡ self.now.usec }
    {
        self.usec
    }

    /// In seconds since 1970.
    pub fn date_printed(&self) -> u64
        ensures { result ≡ self.now.date_printed }
    {
        self.date_printed
    }

    /// The microseconds of the date of printing.
    pub fn usec_printed(&self) -> u32
        ensures { result ≡ self.now.usec_printed }
    {
        self.usec_printed
    }

    /// Whether no filter hides it.
    pub fn displayed(&self) -> bool
        ensures { result ≡ self.now.displayed }
    {
        self.displayed
    }

    /// The level of notification, from -1 for none to 3.
    pub fn notify(&self) -> i8
        ensures { result ≡ self.now.notify }
    {
        self.notify
    }

    pub fn highlight(&self) -> bool
        ensures { result ≡ self.now.highlight }
    {
        self.highlight
    }

    /// The tags, in order.
    pub fn tags(&self) -> TagIter<'_>
        ensures { tags_left result ≡ self.now.tags }
    {
        self.texts.tags()
    }

    /// How many tags there are.
    pub fn tags_len(&self) -> usize
        ensures { result ≡ length self.now.tags }
    {
        self.texts.tags_len()
    }

    pub fn prefix(&self) -> &[u8]
        ensures { result.now ≡ self.now.prefix }
    {
        self.texts.prefix()
    }

    pub fn message(&self) -> &[u8]
        ensures { result.now ≡ self.now.message }
    {
        self.texts.message()
    }

    /// Sets whether the line is displayed.
    pub(crate) fn set_displayed(&mut self, on: bool)
        ensures { self.new ≡ record self.old { displayed = on } }
    {
        self.displayed = on;
    }
}

/// The lines that are still to come, from the oldest.
#[derive(Drop)]
pub struct MirrorLineIter<'a> {
    lines: Option<vec_deque::Iter<'a, PackedMirrorLine>>,
}

impl<'a> MirrorLineIter<'a> {
    /// Those of a list.
    pub(crate) fn new(lines: &'a VecDeque<PackedMirrorLine>) -> MirrorLineIter<'a>
        ensures { mirror_lines_left result ≡ lines.now.items }
    {
        MirrorLineIter {
            lines: Some(lines.iter()),
        }
    }

    /// None.
    pub(crate) fn none() -> MirrorLineIter<'a>
        ensures { mirror_lines_left result ≡ [] }
    {
        MirrorLineIter { lines: None }
    }
}

impl<'a> Iterator for MirrorLineIter<'a> {
    type Item = &'a PackedMirrorLine;

    ghost next_gives = { YieldsFirstRef mirror_lines_left };

    ghost remaining = { item_count mirror_lines_left };

    fn next(&mut self) -> Option<&'a PackedMirrorLine> {
        match &mut self.lines {
            Some(lines) => lines.next(),
            None => None,
        }
    }
}
