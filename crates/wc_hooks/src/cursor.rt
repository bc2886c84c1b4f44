ghost use Rattle.std.specs.Prelude.{◌≡◌, map, true};
ghost use Rattle.std.specs.List.{list_all};
ghost use Rattle.wc_hooks.specs.Slots.{moved_place, is_low};

/// Where an open pass is: the slots of its kind and key, how many of them lie after it, how many
/// entries had been hooked as it opened, and how many it looked at.
#[derive(Clone, Copy, Debug, Drop)]
pub struct Cursor {
    pub start: usize,
    pub count: usize,
    pub seen: usize,
    pub hooked: u64,
    pub looked: usize,
}

/// The cursor after a slot was put in at this place. One that is put in among the slots of the pass
/// is no part of it, but is among them.
fn moved_cursor(place: Option<Cursor>, at: usize) -> Option<Cursor>
    requires { is_low place ≡ true }
    ensures { result ≡ moved_place at place }
{
    let mut cursor = place?;
    if at <= cursor.start {
        cursor.start += 1;
    } else if at < cursor.start + cursor.count {
        cursor.count += 1;
        if at < cursor.start + cursor.seen {
            cursor.seen += 1;
        }
    }
    Some(cursor)
}

/// A slot was put in at this place: the cursors after it go on by one.
pub fn move_all(cursors: &mut Vec<Option<Cursor>>, at: usize)
    requires { list_all is_low cursors.old.items ≡ true }
    ensures { cursors.new.items ≡ map (moved_place at) cursors.old.items }
{
    move_each(cursors.as_mut_slice(), at);
}

fn move_each(cursors: &mut [Option<Cursor>], at: usize)
    requires { list_all is_low cursors.old ≡ true }
    ensures { cursors.new ≡ map (moved_place at) cursors.old }
{
    for cursor in cursors.iter_mut() {
        *cursor = moved_cursor(*cursor, at);
    }
}
