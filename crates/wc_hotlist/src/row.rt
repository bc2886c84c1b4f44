ghost use Rattle.std.specs.Prelude.{◌≡◌, ◌<◌};
ghost use Rattle.wc_hotlist.specs.Counted.{first_row, counted_row, raised_row};

use wc_text::Handle;

/// A count goes no higher: it is told as an `int`, of which this is the greatest.
const MOST: u32 = i32::MAX as u32;

/// What the hotlist has of a buffer.
#[derive(Clone, Copy)]
pub struct HotRow {
    pub buffer: Handle,
    /// The greatest level of its lines, from 0 to 3.
    pub priority: u8,
    /// How many lines of each level there were, from level 0 on, at most 2^31 - 1 of each.
    pub counts: [u32; 4],
}

impl HotRow {
    /// The row of a buffer that had no line before one of this level.
    pub(crate) fn first(buffer: Handle, level: u8) -> HotRow
        requires { level < 4 }
        ensures { result ≡ first_row buffer level }
    {
        let empty = HotRow {
            buffer,
            priority: level,
            counts: [0; 4],
        };
        empty.counted(level)
    }

    /// The same row with one line more of this level.
    pub(crate) fn counted(self, level: u8) -> HotRow
        requires { level < 4 }
        ensures { result ≡ counted_row level self }
    {
        let mut counts = self.counts;
        let count = counts[level as usize];
        if count < MOST {
            counts[level as usize] = count + 1;
        }
        HotRow { counts, ..self }
    }

    /// The same row with one line more of this level, which is now its greatest.
    pub(crate) fn raised(self, level: u8) -> HotRow
        requires { level < 4 }
        ensures { result ≡ raised_row level self }
    {
        let row = HotRow {
            priority: level,
            ..self
        };
        row.counted(level)
    }
}
