ghost use Rattle.std.specs.Prelude.{◌≡◌, option_map};
ghost use Rattle.wc_events.specs.LentValues.{object_of};
ghost use Rattle.wc_events.specs.LineObjects.{truth, moment, line_value};

use crate::lent_value::LentValue;
use crate::values::count;
use wc_keys::Key;
use wc_lines::PackedLine;
use wc_text::Handle;

/// 1 where it is so, and else 0.
pub fn truth(on: bool) -> i8
    ensures { result ≡ truth on }
{
    if on { 1 } else { 0 }
}

/// A date in seconds. One that is greater than the protocol can say counts as the greatest.
#[inline(always)]
pub(crate) fn moment(date: u64) -> i64
    ensures { result ≡ moment date }
{
    i64::try_from(date).unwrap_or(i64::MAX)
}

/// The value of a line of a buffer under a key. None under a key that is of no line.
#[inline(always)]
pub fn line_value<'a>(buffer: Handle, line: &'a PackedLine, key: Key) -> Option<LentValue<'a>>
    ensures { option_map object_of result ≡ line_value buffer line.now key }
{
    let value = match key {
        Key::Buffer => LentValue::Ptr(buffer.0),
        Key::Id => LentValue::Int(count(u64::from(line.id()))),
        Key::Date => LentValue::Tim(moment(line.date())),
        Key::DateUsec => LentValue::Int(count(u64::from(line.usec()))),
        Key::DatePrinted => LentValue::Tim(moment(line.date_printed())),
        Key::DateUsecPrinted => LentValue::Int(count(u64::from(line.usec_printed()))),
        Key::Displayed => LentValue::Chr(truth(line.displayed())),
        Key::NotifyLevel => LentValue::Chr(line.notify()),
        Key::Highlight => LentValue::Chr(truth(line.highlight())),
        Key::TagsArray => LentValue::Tags(line),
        Key::Prefix => LentValue::Str(line.prefix()),
        Key::Message => LentValue::Str(line.message()),
        _ => return None,
    };
    Some(value)
}
