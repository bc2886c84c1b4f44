ghost use Rattle.std.specs.Prelude.{◌≡◌, length, IfOk};
ghost use Rattle.wc_lines.specs.Packed.{all_spelled};
ghost use Rattle.wc_lines.specs.PackedLines.{line_with};
ghost use Rattle.wc_lines.specs.TagsLeft.{tags_left};

use crate::packed_texts::{PackedTexts, TagIter};
use std::alloc::Global;
use std::marker::Model;
use std::mem::size_of;
use wc_text::{Handle, NoMemory, Text};

/// What a line has beside its texts, ordered so that no room is lost between the fields.
#[derive(Clone, Copy)]
pub struct LineMarks {
    /// The line's own name.
    pub handle: Handle,
    /// The name of what the line says, which a mixed buffer's line shares.
    pub content: Handle,
    /// In seconds since 1970.
    pub date: u64,
    /// In seconds since 1970.
    pub date_printed: u64,
    /// How many lines were printed in the buffer before it, modulo 2^31.
    pub id: u32,
    /// The microseconds of the date.
    pub usec: u32,
    /// The microseconds of the date of printing.
    pub usec_printed: u32,
    /// No filter hides it.
    pub displayed: bool,
    /// The level of notification, from -1 for none to 3.
    pub notify: i8,
    pub highlight: bool,
}

/// A line whose texts are in one block of memory. Contracts see the line.
#[derive(Drop)]
pub struct PackedLine {
    marks: LineMarks,
    texts: PackedTexts,
}

impl Model for PackedLine {
    ghost use Rattle.wc_lines.specs.declared.line.Line.{Line};
    ghost use Rattle.wc_lines.specs.PackedLines.{line_with};

    ghost Value = { Line };

    ghost view = { λ a. line_with a.marks a.texts.tags a.texts.prefix a.texts.message };
}

impl PackedLine {
    /// The line of these marks and texts. It takes memory once, for the texts.
    pub fn new(
        alloc: Global,
        marks: LineMarks,
        tags: &[Text],
        prefix: &[u8],
        message: &[u8],
    ) -> Result<PackedLine, NoMemory>
        ensures { IfOk result (λ line. line ≡ line_with marks tags.now prefix.now message.now) }
    {
        let texts = PackedTexts::new(alloc, tags, prefix, message)?;
        Ok(PackedLine { marks, texts })
    }

    /// The line's own name.
    pub fn handle(&self) -> Handle
        ensures { result ≡ self.now.handle }
    {
        self.marks.handle
    }

    /// The name of what the line says, which a mixed buffer's line shares.
    pub fn content(&self) -> Handle
        ensures { result ≡ self.now.content }
    {
        self.marks.content
    }

    /// How many lines were printed in the buffer before it, modulo 2^31.
    pub fn id(&self) -> u32
        ensures { result ≡ self.now.id }
    {
        self.marks.id
    }

    /// In seconds since 1970.
    pub fn date(&self) -> u64
        ensures { result ≡ self.now.date }
    {
        self.marks.date
    }

    /// The microseconds of the date.
    pub fn usec(&self) -> u32
        ensures { result ≡ self.now.usec }
    {
        self.marks.usec
    }

    /// In seconds since 1970.
    pub fn date_printed(&self) -> u64
        ensures { result ≡ self.now.date_printed }
    {
        self.marks.date_printed
    }

    /// The microseconds of the date of printing.
    pub fn usec_printed(&self) -> u32
        ensures { result ≡ self.now.usec_printed }
    {
        self.marks.usec_printed
    }

    /// Whether no filter hides it.
    pub fn displayed(&self) -> bool
        ensures { result ≡ self.now.displayed }
    {
        self.marks.displayed
    }

    /// The level of notification, from -1 for none to 3.
    pub fn notify(&self) -> i8
        ensures { result ≡ self.now.notify }
    {
        self.marks.notify
    }

    pub fn highlight(&self) -> bool
        ensures { result ≡ self.now.highlight }
    {
        self.marks.highlight
    }

    /// The tags, in order.
    pub fn tags(&self) -> TagIter<'_>
        ensures { tags_left result ≡ self.now.tags }
    {
        self.texts.tags()
    }

    /// How many tags there are.
    pub fn tags_len(&self) -> usize
        ensures { result ≡ length self.now.tags }
    {
        self.texts.tags_len()
    }

    /// The tags as they lie in memory: each after its length in four bytes, the highest first.
    pub fn spelled_tags(&self) -> &[u8]
        ensures { result.now ≡ all_spelled self.now.tags }
    {
        self.texts.spelled_tags()
    }

    pub fn prefix(&self) -> &[u8]
        ensures { result.now ≡ self.now.prefix }
    {
        self.texts.prefix()
    }

    pub fn message(&self) -> &[u8]
        ensures { result.now ≡ self.now.message }
    {
        self.texts.message()
    }

    /// Sets whether the line is displayed.
    pub(crate) fn set_displayed(&mut self, on: bool)
        ensures { self.new ≡ record self.old { displayed = on } }
    {
        self.marks.displayed = on;
    }
}

// What a line takes in its ring, beside the block of its texts.
const _: () = prove!(size_of::<PackedLine>() <= 80);
