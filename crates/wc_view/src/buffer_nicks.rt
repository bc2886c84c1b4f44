//! The nicklist of each buffer.

ghost use Rattle.std.specs.Prelude.{◌≡◌, ◌<◌, Some, None, IfSome, IfNone, length, option_map};
ghost use Rattle.std.specs.Prelude.{vec_len, vec_capacity};
ghost use Rattle.std.specs.FinMap.{find, get, remove};
ghost use Rattle.std.specs.Ordering.{nat_cmp};
ghost use Rattle.wc_view.specs.Entries.{IsEntry};
ghost use Rattle.wc_view.specs.NickEntries.{nicks_at};
ghost use Rattle.wc_view.specs.NickFold.{put_rows};
ghost use Rattle.wc_view.specs.NickSteps.{put_new};

use std::marker::Model;
use wc_nicklist::Nicklist;

/// A buffer's handle and its nicklist.
#[derive(Drop)]
pub(crate) struct BufferNicks {
    buffer: u64,
    list: Nicklist,
}

impl Model for BufferNicks {
    ghost use Rattle.wc_view.specs.NickEntries.{NickEntry};

    ghost Value = { NickEntry };

    ghost view = { λ b. (b.buffer, b.list.rows) };
}

impl BufferNicks {
    pub(crate) fn new(buffer: u64, list: Nicklist) -> BufferNicks
        ensures { result ≡ (buffer, list.rows) }
    {
        BufferNicks { buffer, list }
    }

    fn buffer(&self) -> u64
        ensures { result ≡ self.now.0 }
    {
        self.buffer
    }

    fn list(&self) -> &Nicklist
        ensures { result.now.rows ≡ self.now.1 }
    {
        &self.list
    }
}

#[tactic(auto, using(crate::proofs::EntryLemmas::find_more))]
fn place_of(entries: &[BufferNicks], buffer: u64) -> Option<usize>
    ensures some { IfSome result (λ i. (i < length entries.now) × IsEntry buffer i entries.now) }
    ensures none { IfNone result (find nat_cmp buffer entries.now ≡ None) }
{
    for i in 0..entries.len() {
        if entries[i].buffer() == buffer {
            return Some(i);
        }
    }
    None
}

/// The nicklist of a buffer. None where the buffer is not there.
#[tactic(auto, using(crate::proofs::NickEntries::nicklist_of_facts))]
pub(crate) fn nicklist_of(entries: &[BufferNicks], buffer: u64) -> Option<&Nicklist>
    ensures { option_map (λ list. list.now.rows) result ≡ get (nicks_at entries.now) buffer }
{
    match place_of(entries, buffer) {
        Some(place) => Some(entries[place].list()),
        None => None,
    }
}

/// Puts another nicklist in the place of a buffer's, where the buffer is there.
#[tactic(auto, using(crate::proofs::NickEntries::replace_list_facts))]
pub(crate) fn replace_list(entries: &mut [BufferNicks], entry: BufferNicks)
    ensures { nicks_at entries.new ≡ put_rows entry.0 (Some entry.1) (nicks_at entries.old) }
{
    match place_of(entries, entry.buffer()) {
        Some(place) => drop(std::mem::replace(&mut entries[place], entry)),
        None => drop(entry),
    }
}

/// Puts a buffer after the others, where it is not there.
#[tactic(auto, using(crate::proofs::NickEntries::add_buffer_facts))]
pub(crate) fn add_buffer(entries: &mut Vec<BufferNicks>, entry: BufferNicks)
    requires { vec_len entries.old < vec_capacity entries.old }
    ensures { nicks_at entries.new.items ≡ put_new entry (nicks_at entries.old.items) }
{
    match place_of(entries.as_slice(), entry.buffer()) {
        Some(_) => drop(entry),
        None => entries.push_reserved(entry),
    }
}

/// Takes the nicklist of a buffer out.
pub(crate) fn remove_list(entries: &mut Vec<BufferNicks>, buffer: u64)
    ensures { nicks_at entries.new.items ≡ remove (nicks_at entries.old.items) buffer }
{
    entries.retain(|entry| entry.buffer() != buffer);
}
