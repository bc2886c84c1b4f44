ghost use Rattle.std.specs.Prelude.{◌≡◌, ◌+◌, IfSome, if◌then◌else◌, length};
ghost use Rattle.wc_demo.specs.Counts.{none_counted, nicks_in};

use wc_nicklist::{Nicklist, RowView};

/// How many buffers, lines and nicks there are.
#[derive(Clone, Copy, Debug, PartialEq, Eq)]
pub struct Counts {
    pub buffers: u64,
    /// Those of all buffers.
    pub lines: u64,
    /// Those of all nicklists, without the groups.
    pub nicks: u64,
}

impl Counts {
    /// None of each.
    pub(crate) fn none() -> Counts
        ensures { result ≡ none_counted }
    {
        Counts {
            buffers: 0,
            lines: 0,
            nicks: 0,
        }
    }

    /// With one buffer more, and its lines and nicks. None where a count passes 64 bits.
    pub(crate) fn with_buffer(self, lines: u64, nicks: u64) -> Option<Counts>
        ensures { IfSome result (λ counts. counts ≡ record {
          buffers = self.buffers + 1;
          lines = self.lines + lines;
          nicks = self.nicks + nicks;
        }) }
    {
        Some(Counts {
            buffers: self.buffers.checked_add(1)?,
            lines: self.lines.checked_add(lines)?,
            nicks: self.nicks.checked_add(nicks)?,
        })
    }
}

/// One nick more, unless the row is a group. None where that passes 64 bits.
fn with_row(count: u64, row: &RowView<'_>) -> Option<u64>
    ensures { IfSome result
        (λ after. after ≡ (if row.now.item.is_group then count else count + 1)) }
{
    if row.item().is_group {
        return Some(count);
    }
    count.checked_add(1)
}

/// How many nicks a list has. None where that passes 64 bits.
#[tactic(auto, using(crate::proofs::CountLemmas::nicks_more))]
pub(crate) fn nick_count(list: &Nicklist) -> Option<u64>
    ensures { IfSome result (λ count. count ≡ length (nicks_in list.now.rows)) }
{
    let mut count = 0;
    for row in list.rows() {
        count = with_row(count, &row)?;
    }
    Some(count)
}
