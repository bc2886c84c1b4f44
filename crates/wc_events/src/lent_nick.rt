ghost use Rattle.std.specs.Prelude.{◌≡◌, None, Some, option_map};
ghost use Rattle.wc_nickdiff.specs.NickPush.{root_item};
ghost use Rattle.wc_events.specs.LentValues.{object_of};
ghost use Rattle.wc_events.specs.NickBytes.{item_lent, lent_value};
ghost use Rattle.wc_events.specs.NickObjects.{mark_code};

use crate::lent_value::LentValue;
use crate::line_objects::truth;
use crate::values::count;
use wc_keys::Key;
use wc_nickdiff::{DiffItem, Mark};
use wc_nicklist::Item;
use wc_text::Handle;

/// A group or a nick that is lent by who has it, and what a diff does with it. The root group is in
/// no row, so that nothing has it as an item.
#[derive(Clone, Copy)]
pub(crate) struct LentNick<'a> {
    pub mark: Option<Mark>,
    pub handle: Handle,
    pub is_group: bool,
    pub visible: bool,
    pub level: u64,
    pub name: &'a [u8],
    pub color: &'a [u8],
    pub prefix: &'a [u8],
    pub prefix_color: &'a [u8],
}

/// `^`, `+`, `-` or `*`.
fn mark_code(mark: Mark) -> i8
    ensures { result ≡ mark_code mark }
{
    match mark {
        Mark::Parent => 94,
        Mark::Added => 43,
        Mark::Removed => 45,
        Mark::Changed => 42,
    }
}

impl<'a> LentNick<'a> {
    /// One of a list.
    #[inline(always)]
    pub(crate) fn of(item: &'a Item) -> LentNick<'a>
        ensures mark { result.mark ≡ None }
        ensures item { item_lent result ≡ item.now }
    {
        LentNick {
            mark: None,
            handle: item.handle,
            is_group: item.is_group,
            visible: item.visible,
            level: item.level,
            name: item.name.as_slice(),
            color: item.color.as_slice(),
            prefix: item.prefix.as_slice(),
            prefix_color: item.prefix_color.as_slice(),
        }
    }

    /// One of a diff.
    pub(crate) fn of_diff(diff: &'a DiffItem) -> LentNick<'a>
        ensures mark { result.mark ≡ Some diff.now.mark }
        ensures item { item_lent result ≡ diff.now.item }
    {
        let mut nick = LentNick::of(&diff.item);
        nick.mark = Some(diff.mark);
        nick
    }

    /// The root group of a buffer.
    pub(crate) fn root(root: Handle) -> LentNick<'a>
        ensures mark { result.mark ≡ None }
        ensures item { item_lent result ≡ root_item root }
    {
        LentNick {
            mark: None,
            handle: root,
            is_group: true,
            visible: false,
            level: 0,
            name: b"root",
            color: b"",
            prefix: b"",
            prefix_color: b"",
        }
    }

    /// The value under a key. None under a key that it does not have.
    #[inline(always)]
    pub(crate) fn value(self, key: Key) -> Option<LentValue<'a>>
        ensures { option_map object_of result ≡ lent_value self.entry key }
    {
        let value = match key {
            Key::Diff => LentValue::Chr(mark_code(self.mark?)),
            Key::Group => LentValue::Chr(truth(self.is_group)),
            Key::Visible => LentValue::Chr(truth(self.visible)),
            Key::Level => LentValue::Int(count(self.level)),
            Key::Name => LentValue::Str(self.name),
            Key::Color => LentValue::Str(self.color),
            Key::Prefix => LentValue::Str(self.prefix),
            Key::PrefixColor => LentValue::Str(self.prefix_color),
            _ => return None,
        };
        Some(value)
    }
}
