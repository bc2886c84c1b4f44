//! Which buffers had news.

ghost use Rattle.std.specs.Prelude.{◌≡◌, List};
ghost use Rattle.wc_hotlist.specs.declared.row.HotRow.{HotRow as HotRowValue};
ghost use Rattle.wc_core.specs.Contained.{Runs};
ghost use Rattle.wc_core.specs.News.{hotlist_after, rows_after, rows_used};
ghost use Rattle.wc_core.specs.Step.{hotlist_step};

use crate::core_state::Core;
use crate::typed_hotlist::HotlistUse;
use wc_model::{Change, What};
use wc_text::Handle;

/// What a change means for the hotlist.
#[derive(Clone, Copy)]
pub(crate) enum News {
    Nothing,
    /// A line that is printed on a buffer.
    Line {
        buffer: Handle,
        notify: i8,
        displayed: bool,
    },
    /// A buffer that is closed.
    Closed(Handle),
}

impl News {
    #[tactic(auto, unfolding(crate::specs::News::hotlist_after))]
    pub(crate) fn of(change: &Change) -> News
        ensures { (rows : List HotRowValue) → rows_after rows result
            ≡ hotlist_after rows change.now.buffer change.now.what }
    {
        match &change.what {
            What::Print(line) => News::Line {
                buffer: change.buffer,
                notify: line.notify,
                displayed: line.displayed,
            },
            What::Close => News::Closed(change.buffer),
            _ => News::Nothing,
        }
    }
}

impl Core {
    /// Counts a line that was printed, or takes the row of a buffer out that was closed.
    pub(crate) fn heed(&mut self, news: News)
        ensures { self.new ≡ record self.old { hotlist = rows_after self.old.hotlist news } }
    {
        match news {
            News::Nothing => {}
            News::Line {
                buffer,
                notify,
                displayed,
            } => self.hotlist.line(buffer, notify, displayed),
            News::Closed(buffer) => self.hotlist.remove(buffer),
        }
    }

    /// Takes rows out.
    pub(crate) fn use_hotlist(&mut self, usage: HotlistUse, buffer: Handle)
        ensures { Runs self.old self.new (λ state. hotlist_step state usage buffer) }
    {
        self.take_rows(usage, buffer);
    }

    fn take_rows(&mut self, usage: HotlistUse, buffer: Handle)
        ensures { self.new ≡ record self.old { hotlist = rows_used usage buffer self.old.hotlist } }
    {
        match usage {
            HotlistUse::Clear => self.hotlist.clear(),
            HotlistUse::Remove => self.hotlist.remove(buffer),
        }
    }
}
