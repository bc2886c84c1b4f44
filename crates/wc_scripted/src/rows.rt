ghost use Rattle.std.specs.Prelude.{◌≡◌, ◌+◌, ◌<◌, ◌≤◌, ◌++◌, ◌∷◌, [], false, true};
ghost use Rattle.std.specs.Prelude.{slice_set, IsTrue, OnOk, OnErr, length, map, ℕ, vec_len};
ghost use Rattle.std.specs.Prelude.{◌==◌, ◌||◌, ◌&&◌, if◌then◌else◌};
ghost use Rattle.wc_scripted.specs.Rows.{blank, row_at, closed_row, refilled, is_fresh_row};

use std::alloc::Global;
use wc_text::{LinkId, NoMemory, Text};

/// What is seen of a link, and what is to be reported of it.
#[derive(Drop)]
pub(crate) struct Row {
    pub(crate) sent: Text,
    pub(crate) is_open: bool,
    pub(crate) undrained: bool,
    pub(crate) blocked: bool,
    pub(crate) choked: bool,
    /// Whether something of it was released that no wait reported.
    pub(crate) news: bool,
    /// How many bytes it took of its window since the last wait.
    pub(crate) taken: usize,
}

impl Row {
    /// The row of a link that was never made.
    pub(crate) fn new(alloc: Global) -> Row
        ensures { result ≡ blank }
    {
        Row {
            sent: Text::new(alloc),
            is_open: false,
            undrained: false,
            blocked: false,
            choked: false,
            news: false,
            taken: 0,
        }
    }

    /// Whether a wait has the link to report.
    pub(crate) fn is_fresh(&self) -> bool
        ensures { result ≡ is_fresh_row self.now }
    {
        self.is_open && (self.news || self.blocked)
    }
}

pub(crate) fn is_open(rows: &[Row], link: LinkId) -> bool
    ensures { result ≡ (row_at link.0 rows.now).is_open }
{
    match rows.get(link.0 as usize) {
        Some(row) => row.is_open,
        None => false,
    }
}

/// How many bytes a link took of its window since the last wait.
pub(crate) fn taken(rows: &[Row], link: LinkId) -> usize
    ensures { result ≡ (row_at link.0 rows.now).taken }
{
    match rows.get(link.0 as usize) {
        Some(row) => row.taken,
        None => 0,
    }
}

/// Takes a link out of those that are not drained.
pub(crate) fn drain(rows: &mut Vec<Row>, link: LinkId)
    ensures rows { rows.new.items ≡ slice_set rows.old.items link.0
        (record (row_at link.0 rows.old.items) { undrained = false }) }
    ensures count { vec_len rows.new ≡ vec_len rows.old }
{
    let place = link.0 as usize;
    if place < rows.len() {
        rows[place].undrained = false;
    }
}

/// Notes whether the last write to a link found no room.
pub(crate) fn set_blocked(rows: &mut Vec<Row>, link: LinkId, blocked: bool)
    ensures rows { rows.new.items ≡ slice_set rows.old.items link.0
        (record (row_at link.0 rows.old.items) { blocked = blocked }) }
    ensures count { vec_len rows.new ≡ vec_len rows.old }
{
    let place = link.0 as usize;
    if place < rows.len() {
        rows[place].blocked = blocked;
    }
}

/// Notes that something of a link was released, where it is there.
pub(crate) fn note_link(rows: &mut [Row], link: LinkId)
    ensures rows { (other : ℕ) → row_at other rows.new ≡ (let row = row_at other rows.old in
        record row { news = row.news || (row.is_open && (link.0 == other)) }) }
    ensures count { length rows.new ≡ length rows.old }
{
    let place = link.0 as usize;
    if place < rows.len() && rows[place].is_open {
        rows[place].news = true;
    }
}

/// Gives every link a whole window again.
pub(crate) fn refill(rows: &mut [Row])
    ensures { rows.new ≡ map refilled rows.old }
{
    for row in rows.iter_mut() {
        row.taken = 0;
    }
}

/// Puts bytes after what was sent on a link that is there, and takes them off its window, where
/// that has a bound.
pub(crate) fn send(
    rows: &mut Vec<Row>,
    link: LinkId,
    bytes: &[u8],
    window: usize,
) -> Result<(), NoMemory>
    requires there { IsTrue (row_at link.0 rows.old.items).is_open }
    requires fits { (row_at link.0 rows.old.items).taken
        + (if window == 0 then 0 else length bytes.now) ≤ usize.MAX }
    ensures ok { OnOk result (rows.new.items ≡ slice_set rows.old.items link.0
        (let row = row_at link.0 rows.old.items in record row {
          sent = row.sent ++ bytes.now;
          blocked = false;
          taken = row.taken + (if window == 0 then 0 else length bytes.now);
        })) }
    ensures err { OnErr result (rows.new.items ≡ slice_set rows.old.items link.0
        (record (row_at link.0 rows.old.items) { blocked = false })) }
    ensures count { vec_len rows.new ≡ vec_len rows.old }
{
    let place = link.0 as usize;
    if place >= rows.len() {
        return Ok(());
    }
    let row = &mut rows[place];
    row.blocked = false;
    row.sent.append(bytes)?;
    if window > 0 {
        row.taken += bytes.len();
    }
    Ok(())
}

/// Gives a link up.
pub(crate) fn close(rows: &mut Vec<Row>, link: LinkId)
    ensures rows { rows.new.items ≡ slice_set rows.old.items link.0
        (closed_row (row_at link.0 rows.old.items)) }
    ensures count { vec_len rows.new ≡ vec_len rows.old }
{
    let place = link.0 as usize;
    if place < rows.len() {
        let row = &mut rows[place];
        row.choked = row.choked || row.blocked;
        row.is_open = false;
        row.undrained = false;
        row.blocked = false;
    }
}
