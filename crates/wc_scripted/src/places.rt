ghost use Rattle.std.specs.Prelude.{◌≡◌, ◌+◌, ◌≤◌, ◌++◌, ◌∷◌, [], ℕ, OnOk, OnErr, vec_len, take};
ghost use Rattle.std.specs.Prelude.{◌==◌, true, if◌then◌else◌};
ghost use Rattle.wc_scripted.specs.Cursors.{cursor_at, given_at};
ghost use Rattle.wc_scripted.specs.Rows.{row_at, placed_row};

use crate::play::Play;
use crate::rows::Row;
use std::alloc::Global;
use wc_text::{LinkId, NoMemory};

/// Makes one more place, for a link that is there or for a number that is used up.
fn make_place(
    alloc: Global,
    play: &mut Play,
    rows: &mut Vec<Row>,
    is_there: bool,
) -> Result<(), NoMemory>
    requires paired { vec_len rows.old ≡ vec_len play.old.cursors }
    ensures ok { OnOk result (rows.new.items ≡ rows.old.items ++ placed_row is_there
        (vec_len rows.old) (take play.old.script.released play.old.script.steps) ∷ []) }
    ensures err { OnErr result (rows.new.items ≡ rows.old.items) }
    ensures paired { vec_len rows.new ≡ vec_len play.new.cursors }
    ensures script { play.new.script ≡ play.old.script }
    ensures listener { play.new.listener ≡ play.old.listener }
    ensures given { let steps = take play.old.script.released play.old.script.steps in
        (link : ℕ) → given_at steps link (cursor_at link play.new.cursors.items)
        ≡ given_at steps link (cursor_at link play.old.cursors.items) }
{
    let mut row = Row::new(alloc);
    row.is_open = is_there;
    rows.reserve(1)?;
    play.reserve()?;
    row.news = play.admit() && is_there;
    rows.push_reserved(row);
    Ok(())
}

/// Makes places for the numbers below that of a link that have none.
fn make_places(
    alloc: Global,
    play: &mut Play,
    rows: &mut Vec<Row>,
    link: LinkId,
) -> Result<(), NoMemory>
    requires new { vec_len rows.old ≤ link.0 }
    requires paired { vec_len rows.old ≡ vec_len play.old.cursors }
    ensures ok { OnOk result (vec_len rows.new ≡ link.0) }
    ensures size { vec_len rows.new ≤ link.0 }
    ensures rows { (other : ℕ) → row_at other rows.new.items ≡ row_at other rows.old.items }
    ensures paired { vec_len rows.new ≡ vec_len play.new.cursors }
    ensures script { play.new.script ≡ play.old.script }
    ensures listener { play.new.listener ≡ play.old.listener }
    ensures given { let steps = take play.old.script.released play.old.script.steps in
        (other : ℕ) → given_at steps other (cursor_at other play.new.cursors.items)
        ≡ given_at steps other (cursor_at other play.old.cursors.items) }
{
    let missing = link.0 as usize - rows.len();
    for _ in 0..missing {
        make_place(alloc, play, rows, false)?;
    }
    Ok(())
}

/// Makes a link, whose number is above those that have a place.
pub(crate) fn make_link(
    alloc: Global,
    play: &mut Play,
    rows: &mut Vec<Row>,
    link: LinkId,
) -> Result<(), NoMemory>
    requires new { vec_len rows.old ≤ link.0 }
    requires paired { vec_len rows.old ≡ vec_len play.old.cursors }
    ensures ok { OnOk result ((other : ℕ) → row_at other rows.new.items ≡ (if other == link.0 then
        placed_row true link.0 (take play.old.script.released play.old.script.steps)
        else row_at other rows.old.items)) }
    ensures err { OnErr result ((other : ℕ) → row_at other rows.new.items
        ≡ row_at other rows.old.items) }
    ensures size { vec_len rows.new ≤ link.0 + 1 }
    ensures below { OnErr result (vec_len rows.new ≤ link.0) }
    ensures paired { vec_len rows.new ≡ vec_len play.new.cursors }
    ensures script { play.new.script ≡ play.old.script }
    ensures listener { play.new.listener ≡ play.old.listener }
    ensures given { let steps = take play.old.script.released play.old.script.steps in
        (other : ℕ) → given_at steps other (cursor_at other play.new.cursors.items)
        ≡ given_at steps other (cursor_at other play.old.cursors.items) }
{
    make_places(alloc, play, rows, link)?;
    make_place(alloc, play, rows, true)
}
