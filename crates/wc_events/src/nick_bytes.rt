//! A group or a nick as bytes of a message: what it leaves of a room, and it put after the bytes
//! that are in a buffer.

ghost use Rattle.std.specs.Prelude.{◌≡◌, ◌+◌, ◌^◌, ◌<◌, ◌≤◌, ◌++◌, ◌∷◌, [], length};
ghost use Rattle.std.specs.Prelude.{MatchOption};
ghost use Rattle.std.specs.List.{flat_map};
ghost use Rattle.wc_events.specs.HdaBytes.{items_bytes};
ghost use Rattle.wc_events.specs.NickBytes.{key_bytes, told_bytes, IsAfter, IsOver};
ghost use Rattle.wc_events.specs.NickObjects.{diff_item, nick_item};
ghost use Rattle.wc_nickdiff.specs.NickPush.{root_item};
ghost use Rattle.wc_objects.specs.Spelling.{FitsIn, HasRoomFor, Puts};

use crate::lent_nick::LentNick;
use bytes::BytesMut;
use wc_keys::{Key, KeyList};
use wc_nickdiff::DiffItem;
use wc_nicklist::Item;
use wc_objects::parts::{put_pointer, room_after_pointer};
use wc_text::Handle;

// What makes an item, gives its values and takes them is inlined up to the loops over items. So the
// item is not laid in memory, and neither are its values.

// ---- what it leaves of a room

/// What is left of the room of a message, after how many items.
#[derive(Clone, Copy)]
pub(crate) struct Left {
    pub room: usize,
    pub items: usize,
}

#[inline(always)]
#[tactic(auto, unfolding(crate::specs::NickBytes::key_bytes))]
fn room_after_value(room: usize, nick: LentNick<'_>, key: Key) -> Option<usize>
    ensures { FitsIn result room (key_bytes nick.entry key) }
{
    match nick.value(key) {
        Some(value) => value.room_after(room),
        None => Some(room),
    }
}

#[inline(always)]
fn room_after_values(room: usize, nick: LentNick<'_>, keys: &[Key]) -> Option<usize>
    ensures { FitsIn result room (flat_map (key_bytes nick.entry) keys.now) }
{
    let mut left = room;
    for key in keys {
        left = room_after_value(left, nick, *key)?;
    }
    Some(left)
}

/// What is left after an item with the values of these keys.
#[inline(always)]
fn room_after_told(room: usize, buffer: Handle, nick: LentNick<'_>, keys: &[Key]) -> Option<usize>
    ensures { FitsIn result room (told_bytes buffer nick.entry keys.now) }
{
    let room = room_after_pointer(room, buffer.0)?;
    let room = room_after_pointer(room, nick.handle.0)?;
    room_after_values(room, nick, keys)
}

/// What is left after an item of a list.
#[inline(always)]
fn room_after_lent(left: Left, buffer: Handle, nick: LentNick<'_>, keys: &[Key]) -> Option<Left>
    requires { left.items + left.room < 2 ^ 32 }
    ensures { MatchOption result (left.room < length (told_bytes buffer nick.entry keys.now))
        (λ rest. (rest.room + length (told_bytes buffer nick.entry keys.now) ≡ left.room)
        × (rest.items ≡ left.items + 1)) }
{
    let room = room_after_told(left.room, buffer, nick, keys)?;
    let items = left.items + 1;
    Some(Left { room, items })
}

/// What is left after a group or a nick of a list.
#[inline(always)]
pub(crate) fn room_after_nick(left: Left, buffer: Handle, item: &Item) -> Option<Left>
    requires { left.items + left.room < 2 ^ 32 }
    ensures { MatchOption result (IsOver left (nick_item buffer item.now ∷ []))
        (λ rest. IsAfter left rest (nick_item buffer item.now ∷ [])) }
{
    room_after_lent(left, buffer, LentNick::of(item), KeyList::Nicks.keys())
}

/// What is left after the root group of a buffer.
pub(crate) fn room_after_root(left: Left, buffer: Handle, root: Handle) -> Option<Left>
    requires { left.items + left.room < 2 ^ 32 }
    ensures { MatchOption result (IsOver left (nick_item buffer (root_item root) ∷ []))
        (λ rest. IsAfter left rest (nick_item buffer (root_item root) ∷ [])) }
{
    room_after_lent(left, buffer, LentNick::root(root), KeyList::Nicks.keys())
}

/// What is left after an item of a diff.
pub(crate) fn room_after_diff(left: Left, buffer: Handle, diff: &DiffItem) -> Option<Left>
    requires { left.items + left.room < 2 ^ 32 }
    ensures { MatchOption result (IsOver left (diff_item buffer diff.now ∷ []))
        (λ rest. IsAfter left rest (diff_item buffer diff.now ∷ [])) }
{
    room_after_lent(left, buffer, LentNick::of_diff(diff), KeyList::Diff.keys())
}

// ---- it put after the bytes that are in a buffer

#[inline(always)]
#[tactic(auto, unfolding(crate::specs::NickBytes::key_bytes))]
fn put_value(out: &mut BytesMut, nick: LentNick<'_>, key: Key)
    requires { HasRoomFor out.old (key_bytes nick key) }
    ensures { Puts out.old out.new (key_bytes nick.entry key) }
{
    match nick.value(key) {
        Some(value) => value.put(out),
        None => {}
    }
}

#[inline(always)]
fn put_values(out: &mut BytesMut, nick: LentNick<'_>, keys: &[Key])
    requires { HasRoomFor out.old (flat_map (key_bytes nick) keys.now) }
    ensures { Puts out.old out.new (flat_map (key_bytes nick.entry) keys.now) }
{
    for key in keys {
        put_value(out, nick, *key);
    }
}

/// Puts an item with the values of these keys.
#[inline(always)]
fn put_told(out: &mut BytesMut, buffer: Handle, nick: LentNick<'_>, keys: &[Key])
    requires { HasRoomFor out.old (told_bytes buffer nick keys.now) }
    ensures { Puts out.old out.new (told_bytes buffer nick.entry keys.now) }
{
    put_pointer(out, buffer.0);
    put_pointer(out, nick.handle.0);
    put_values(out, nick, keys);
}

/// Puts a group or a nick of a list.
#[inline(always)]
pub(crate) fn put_nick(out: &mut BytesMut, buffer: Handle, item: &Item)
    requires { HasRoomFor out.old (items_bytes (nick_item buffer item.now ∷ [])) }
    ensures { Puts out.old out.new (items_bytes (nick_item buffer item.now ∷ [])) }
{
    put_told(out, buffer, LentNick::of(item), KeyList::Nicks.keys());
}

/// Puts the root group of a buffer.
pub(crate) fn put_root(out: &mut BytesMut, buffer: Handle, root: Handle)
    requires { HasRoomFor out.old (items_bytes (nick_item buffer (root_item root) ∷ [])) }
    ensures { Puts out.old out.new (items_bytes (nick_item buffer (root_item root) ∷ [])) }
{
    put_told(out, buffer, LentNick::root(root), KeyList::Nicks.keys());
}

/// Puts an item of a diff.
pub(crate) fn put_diff(out: &mut BytesMut, buffer: Handle, diff: &DiffItem)
    requires { HasRoomFor out.old (items_bytes (diff_item buffer diff.now ∷ [])) }
    ensures { Puts out.old out.new (items_bytes (diff_item buffer diff.now ∷ [])) }
{
    put_told(out, buffer, LentNick::of_diff(diff), KeyList::Diff.keys());
}
