ghost use Rattle.std.specs.Prelude.{◌≡◌, None, OnOk, OnErr};
ghost use Rattle.wc_model.specs.Notices.{Outcome};
ghost use Rattle.wc_model.specs.Touches.{touched_key, touched_by};
ghost use Rattle.wc_nicklist.specs.declared.item.Key.{Key as KeyValue};
ghost use Rattle.wc_text.specs.declared.names.Handle.{Handle as HandleValue};
ghost use Rattle.wc_world.specs.Texts.{IsChangeText};

use crate::world::World;
use std::alloc::Global;
use wc_model::{Change, ChangeRefused, Notice, What};
use wc_nicklist::Touch;

impl World {
    /// Makes one change as a whole, or refuses it as a whole. The answer is what is noticed of it.
    /// All memory is taken before the first write. The refusals, of which the first that holds is
    /// answered: `Buffer` with the reason of the buffers, `Nick` with the reason of the nicklist,
    /// `NoLine` of the first flip of a line that is not held, `TooManyRows` where a group or a nick
    /// would be added to 1,048,576 rows of all nicklists, `Spent` where the change would draw a
    /// handle past 2^62. A limit of lines is refused for want of memory alone.
    ///
    /// An accepted change of a group or a nick touches its key before it is made, with the row that
    /// then is there. Where `touch` is refused memory the change is refused for it too.
    pub fn change<T: Touch>(
        &mut self,
        alloc: Global,
        change: Change,
        touch: &mut T,
    ) -> Result<Notice, ChangeRefused>
        requires { IsChangeText change.what }
        ensures outcome { Outcome self.old change self.new result }
        ensures touched { OnOk result ((b : HandleValue) (k : KeyValue) → T.first touch.new b k
            ≡ touched_by self.old change.buffer change.what (T.first touch.old) b k) }
        ensures untouched { OnErr result ((b : HandleValue) (k : KeyValue) → T.first touch.new b k
            ≡ T.first touch.old b k) }
        ensures still { touched_key change.what ≡ None → touch.new ≡ touch.old }
    {
        let h = change.buffer;
        match change.what {
            What::Add(spec) => self.add(alloc, h, spec),
            What::Close => self.close(alloc, h),
            What::MoveTo(number) => self.move_to(alloc, h, number),
            What::MergeInto(into) => self.merge(alloc, h, into),
            What::Unmerge => self.unmerge(alloc, h),
            What::Hide => self.hide(alloc, h),
            What::Unhide => self.unhide(alloc, h),
            What::ShortName(name) => self.set_short_name(alloc, h, name),
            What::Title(title) => self.set_title(alloc, h, title),
            What::SetVar(var) => self.set_var(alloc, h, var),
            What::RemoveVar(name) => self.remove_var(alloc, h, name),
            What::Print(line) => self.print(alloc, h, line),
            What::Clear => self.clear(alloc, h),
            What::Rename { name, flips } => self.rename(alloc, h, name, flips),
            What::Flips(flips) => self.flip(alloc, h, flips),
            What::AddGroup { parent, item } => self.add_row(alloc, h, true, &parent, item, touch),
            What::AddNick { group, item } => self.add_row(alloc, h, false, &group, item, touch),
            What::RemoveGroup(name) => self.remove_row(alloc, h, true, name, touch),
            What::RemoveNick(name) => self.remove_row(alloc, h, false, name, touch),
            What::ChangeGroup(item) => self.change_row(alloc, h, true, item, touch),
            What::ChangeNick(item) => self.change_row(alloc, h, false, item, touch),
            What::Limit(limit) => self.set_limit(alloc, h, limit),
        }
    }
}
