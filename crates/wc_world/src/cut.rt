ghost use Rattle.std.specs.Prelude.{◌≡◌, ◌<◌, ◌+◌, ◌^◌, IfOk, length};
ghost use Rattle.std.specs.Str.{IsUtf8};
ghost use Rattle.wc_buffers.specs.Vars.{cut_to};
ghost use Rattle.wc_model.specs.LineCuts.{cut_tags, cut_usec, id_of, line_of};
ghost use Rattle.wc_world.specs.Texts.{IsLineText};

use std::alloc::Global;
use wc_lines::{LineMarks, PackedLine};
use wc_model::LineSpec;
use wc_text::{Handle, NoMemory, Text, cut};

/// The most bytes of a prefix.
const PREFIX_LIMIT: usize = 128;

/// The most bytes of a message.
const MESSAGE_LIMIT: usize = 1024;

/// The most tags of a line.
const MOST_TAGS: usize = 32;

/// The most bytes of all tags of a line.
const TAGS_LIMIT: usize = 256;

/// The text cut at the limit. It is copied only where it is too long.
#[tactic(auto, using(wc_text::proofs::CutLemmas::cut_inside))]
pub(crate) fn cut_text(alloc: Global, text: Text, limit: usize) -> Result<Text, NoMemory>
    requires { IsUtf8 text }
    ensures { IfOk result (λ cut. cut ≡ cut_to limit text) }
{
    let end = cut(text.as_slice(), limit);
    if end == text.as_slice().len() {
        return Ok(text);
    }
    Text::from_slice(alloc, text.as_slice().split_at(end).0)
}

/// The most microseconds of a date.
const MOST_USEC: u32 = 999_999;

/// Ids of lines are below this number.
const IDS: u64 = 1 << 31;

/// How many tags are before the first that does not fit.
fn fitting(tags: &[Text]) -> usize
    ensures { result ≡ length (cut_tags tags.now) }
{
    let mut count = 0;
    let mut size = 0;
    for tag in tags {
        let length = tag.as_slice().len();
        if count == MOST_TAGS || length > TAGS_LIMIT - size {
            return count;
        }
        count += 1;
        size += length;
    }
    count
}

/// The tags that fit.
#[tactic(auto, using(crate::proofs::CutTags::fitting_tags_facts))]
fn fitting_tags(tags: &[Text]) -> &[Text]
    ensures { result.now ≡ cut_tags tags.now }
{
    tags.split_at(fitting(tags)).0
}

/// The front of the text up to the limit.
#[tactic(auto, using(wc_text::proofs::CutLemmas::cut_inside))]
fn front(text: &Text, limit: usize) -> &[u8]
    requires { IsUtf8 text.now }
    ensures front { result.now ≡ cut_to limit text.now }
    ensures utf8 { IsUtf8 result.now }
{
    let text = text.as_slice();
    text.split_at(cut(text, limit)).0
}

/// What the line with this handle has beside its texts, where so many were printed before it.
fn marks_of(printed: u64, handle: u64, spec: &LineSpec) -> LineMarks
    requires { handle < 2 ^ 62 }
    ensures { result ≡ record {
      handle = record { 0 = handle };
      content = record { 0 = handle + 1 };
      date = spec.now.date;
      date_printed = spec.now.date_printed;
      id = id_of printed;
      usec = cut_usec spec.now.usec;
      usec_printed = cut_usec spec.now.usec_printed;
      displayed = spec.now.displayed;
      notify = spec.now.notify;
      highlight = spec.now.highlight;
    } }
{
    LineMarks {
        handle: Handle(handle),
        content: Handle(handle + 1),
        date: spec.date,
        date_printed: spec.date_printed,
        id: (printed % IDS) as u32,
        usec: spec.usec.min(MOST_USEC),
        usec_printed: spec.usec_printed.min(MOST_USEC),
        displayed: spec.displayed,
        notify: spec.notify,
        highlight: spec.highlight,
    }
}

/// The texts of a line as its buffer takes them, lent by what asks for the line.
#[derive(Clone, Copy)]
pub struct CutTexts<'a> {
    pub tags: &'a [Text],
    pub prefix: &'a [u8],
    pub message: &'a [u8],
}

/// The texts that a line has once it is printed: what is too long is cut.
pub fn cut_texts(spec: &LineSpec) -> CutTexts<'_>
    requires { IsLineText spec.now }
    ensures tags { result.tags.now ≡ cut_tags spec.now.tags }
    ensures prefix { result.prefix.now ≡ cut_to 128 spec.now.prefix }
    ensures message { result.message.now ≡ cut_to 1024 spec.now.message }
    ensures utf8 { IsUtf8 result.prefix.now × IsUtf8 result.message.now }
{
    CutTexts {
        tags: fitting_tags(spec.tags.as_slice()),
        prefix: front(&spec.prefix, PREFIX_LIMIT),
        message: front(&spec.message, MESSAGE_LIMIT),
    }
}

/// The line with this handle, and the next one for its content, where so many were printed before
/// it in its buffer. What is too long is cut.
pub(crate) fn line_of(
    alloc: Global,
    printed: u64,
    handle: u64,
    spec: LineSpec,
) -> Result<PackedLine, NoMemory>
    requires room { handle < 2 ^ 62 }
    requires text { IsLineText spec }
    ensures { IfOk result (λ line. line ≡ line_of printed handle spec) }
{
    let marks = marks_of(printed, handle, &spec);
    let texts = cut_texts(&spec);
    PackedLine::new(alloc, marks, texts.tags, texts.prefix, texts.message)
}
