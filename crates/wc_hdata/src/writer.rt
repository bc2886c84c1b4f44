//! The answer to a data path written without making its objects: its length is found first.

ghost use Rattle.std.specs.Prelude.{◌≡◌, ◌≢◌, ◌+◌, ◌-◌, ◌^◌, ◌<◌, ◌≤◌};
ghost use Rattle.std.specs.Prelude.{◌++◌, ◌∷◌, []};
ghost use Rattle.std.specs.Prelude.{true, length, MatchOption, OnOk, OnErr, IfErr, IfOk};
ghost use Rattle.std.specs.Prelude.{IfSome, None, Some};
ghost use Rattle.std.specs.Str.{IsUtf8};
ghost use Rattle.wc_events.specs.HdaBytes.{front_part};
ghost use Rattle.wc_hdata.specs.Hdata.{message_refusal, refusal, too_long, walk_object};
ghost use Rattle.wc_hdata.specs.Kept.{IsFor, IsKept};
ghost use Rattle.wc_hdata.specs.Reached.{place_of};
ghost use Rattle.wc_hdata.specs.Refusals.{reached, walk_refusal};
ghost use Rattle.wc_hdata.specs.WalkBytes.{front_for, keys_bytes, nodes_bytes, pointers_bytes};
ghost use Rattle.wc_hdata.specs.WalkBytes.{pointers_of_all, values_of_all, walk_body, walk_bytes};
ghost use Rattle.wc_hdata.specs.WalkForms.{AreNodesKept};
ghost use Rattle.wc_hdata.specs.WalkRoom.{IsAfter, IsOver, IsSize, IsTooLong};
ghost use Rattle.wc_hdata.specs.declared.refused.WalkRefused.TheVariants as Refused;
ghost use Rattle.wc_objects.specs.Forms.{well_formed};
ghost use Rattle.wc_objects.specs.Spelling.{FitsIn, HasRoomFor, Puts, be32, message_bytes};

use crate::item_bytes::{put_item, room_after_values};
use crate::key::Key;
use crate::keys::{keys_text, read_keys};
use crate::lists::Lists;
use crate::path::{Path, h_path};
use crate::place::Place;
use crate::refused::WalkRefused;
use crate::visits::check_visits;
use crate::walker::Walker;
use bytes::BytesMut;
use std::alloc::Global;
use wc_events::parts::{Front, put_front, room_after_front};
use wc_objects::parts::{MAX_MESSAGE, put_count};
use wc_text::NoMemory;
use wc_world::World;

/// How many bytes the values may take together.
const MOST_VALUES: usize = 0x7fff_ffc0;

// ---- how long the items are

/// What is left of the room for pointers and of that for values, after how many items.
#[derive(Clone, Copy)]
struct Left {
    room: usize,
    values: usize,
    items: usize,
}

/// How long a message is, and how many items it has.
#[derive(Clone, Copy)]
struct Size {
    bytes: usize,
    items: usize,
}

/// What is left after the item of a place, with the pointers that a walk gave with it.
fn room_after_item(
    left: Left,
    walker: &Walker<'_, '_>,
    lists: &Lists<'_>,
    place: Place<'_>,
    keys: &[Key],
) -> Option<Left>
    requires kept { IsKept lists.now (place_of place) }
    requires few { left.items < 2 ^ 32 }
    ensures { MatchOption result (IsOver left (pointers_bytes walker.now.pointers)
        (keys_bytes lists.now.world (place_of place.entry) keys.now))
        (λ rest. IsAfter left rest (pointers_bytes walker.now.pointers)
        (keys_bytes lists.now.world (place_of place.entry) keys.now) 1) }
{
    let room = left.room.checked_sub(walker.pointer_bytes())?;
    let values = room_after_values(left.values, lists, place, keys)?;
    let items = left.items + 1;
    Some(Left {
        room,
        values,
        items,
    })
}

/// What is left after the items of what is still to come of a walk.
fn room_after_items(
    whole: Left,
    walker: &mut Walker<'_, '_>,
    lists: &Lists<'_>,
    keys: &[Key],
) -> Option<Left>
    requires same { walker.old.lists ≡ lists.now }
    requires few { whole.items + length walker.old.left < 2 ^ 32 }
    ensures room { MatchOption result (IsOver whole (pointers_of_all walker.old.left)
        (values_of_all lists.now.world keys.now walker.old.left))
        (λ rest. IsAfter whole rest (pointers_of_all walker.old.left)
        (values_of_all lists.now.world keys.now walker.old.left) (length walker.old.left)) }
    ensures kept { IfSome result (λ rest. AreNodesKept lists.now walker.old.left) }
{
    let mut left = whole;
    while let Some(place) = walker.next() {
        left = room_after_item(left, walker, lists, place, keys)?;
    }
    Some(left)
}

/// How long the message is, where it is not too long.
fn size_of(
    front: Front<'_>,
    walker: &mut Walker<'_, '_>,
    lists: &Lists<'_>,
    keys: &[Key],
) -> Option<Size>
    requires same { walker.old.lists ≡ lists.now }
    requires few { length walker.old.left < 2 ^ 31 }
    ensures size { MatchOption result (IsTooLong lists.now.world
        (front_part front.entry) keys.now walker.old.left)
        (IsSize lists.now.world (front_part front.entry) keys.now
        walker.old.left) }
    ensures kept { IfSome result (λ size. AreNodesKept lists.now walker.old.left) }
{
    let whole = Left {
        room: room_after_front(MAX_MESSAGE - 8, front)?,
        values: MOST_VALUES,
        items: 0,
    };
    let left = room_after_items(whole, walker, lists, keys)?;
    let room = left.room.checked_sub(MOST_VALUES - left.values)?;
    Some(Size {
        bytes: MAX_MESSAGE - room,
        items: left.items,
    })
}

// ---- the bytes

/// Puts the items of what is still to come of a walk.
fn put_items(out: &mut BytesMut, walker: &mut Walker<'_, '_>, lists: &Lists<'_>, keys: &[Key])
    requires same { walker.old.lists ≡ lists.now }
    requires room { HasRoomFor out.old (nodes_bytes lists.now.world keys.now walker.old.left) }
    ensures { Puts out.old out.new (nodes_bytes lists.now.world keys.now walker.old.left) }
{
    while let Some(place) = walker.next() {
        put_item(out, lists, walker.pointers(), place, keys);
    }
}

/// Puts what comes after the length of the message.
fn put_body(
    out: &mut BytesMut,
    items: usize,
    front: Front<'_>,
    walker: &mut Walker<'_, '_>,
    lists: &Lists<'_>,
    keys: &[Key],
)
    requires same { walker.old.lists ≡ lists.now }
    requires items { items ≡ length walker.old.left }
    requires room { HasRoomFor out.old (walk_body lists.now.world
        (front_part front) keys.now walker.old.left) }
    ensures { Puts out.old out.new (walk_body lists.now.world
        (front_part front.entry) keys.now walker.old.left) }
{
    put_front(out, front);
    put_count(out, items);
    put_items(out, walker, lists, keys);
}

/// Puts the whole message, whose length is known.
fn put_message(
    out: &mut BytesMut,
    size: Size,
    front: Front<'_>,
    walker: &mut Walker<'_, '_>,
    lists: &Lists<'_>,
    keys: &[Key],
)
    requires same { walker.old.lists ≡ lists.now }
    requires size { IsSize lists.now.world
        (front_part front) keys.now walker.old.left size }
    requires room { size.bytes ≤ out.old.spare }
    ensures { out.new.items ≡ out.old.items ++ walk_bytes lists.now.world
        (front_part front.entry) keys.now walker.old.left }
{
    put_count(out, size.bytes);
    put_body(out, size.items, front, walker, lists, keys);
}

// ---- two walks, one to measure and one to write

/// A walk along a path whose visits were counted.
fn begin<'b, 'a>(
    alloc: Global,
    lists: &'b Lists<'a>,
    path: &'b Path,
) -> Result<Walker<'b, 'a>, NoMemory>
    requires made { IsFor lists.now path.now }
    requires counted { walk_refusal lists.now.world path.now ≡ None }
    ensures lists { IfOk result (λ walker. walker.lists ≡ lists.now) }
    ensures left { IfOk result (λ walker. walker.left ≡ reached lists.now.world path.now) }
{
    match Walker::begin(alloc, lists, path)? {
        Some(walker) => Ok(walker),
        None => unreachable!(),
    }
}

/// How long the message is, where it is not too long.
fn measure(
    alloc: Global,
    front: Front<'_>,
    lists: &Lists<'_>,
    path: &Path,
    keys: &[Key],
) -> Result<Option<Size>, NoMemory>
    requires made { IsFor lists.now path.now }
    requires counted { walk_refusal lists.now.world path.now ≡ None }
    ensures size { IfOk result (λ size. MatchOption size (IsTooLong lists.now.world
        (front_part front.entry) keys.now
        (reached lists.now.world path.now)) (IsSize lists.now.world
        (front_part front.entry) keys.now
        (reached lists.now.world path.now))) }
    ensures kept { IfOk result (λ size. IfSome size (λ s. AreNodesKept lists.now
        (reached lists.now.world path.now))) }
{
    let mut walker = begin(alloc, lists, path)?;
    Ok(size_of(front, &mut walker, lists, keys))
}

/// Puts the message, whose length is known, after the bytes that are in a buffer.
fn append(
    alloc: Global,
    out: &mut BytesMut,
    size: Size,
    front: Front<'_>,
    lists: &Lists<'_>,
    path: &Path,
    keys: &[Key],
) -> Result<(), NoMemory>
    requires made { IsFor lists.now path.now }
    requires counted { walk_refusal lists.now.world path.now ≡ None }
    requires size { IsSize lists.now.world
        (front_part front) keys.now
        (reached lists.now.world path.now) size }
    ensures ok { OnOk result (out.new.items ≡ out.old.items ++ walk_bytes lists.now.world
        (front_part front.entry) keys.now
        (reached lists.now.world path.now)) }
    ensures err { OnErr result (out.new.items ≡ out.old.items) }
{
    let mut walker = begin(alloc, lists, path)?;
    let Ok(()) = out.reserve(size.bytes) else {
        return Err(NoMemory);
    };
    put_message(out, size, front, &mut walker, lists, keys);
    Ok(())
}

/// Puts the message with this front, where it is not too long.
fn write_items(
    alloc: Global,
    out: &mut BytesMut,
    front: Front<'_>,
    lists: &Lists<'_>,
    path: &Path,
    keys: &[Key],
) -> Result<(), WalkRefused>
    requires made { IsFor lists.now path.now }
    requires counted { walk_refusal lists.now.world path.now ≡ None }
    ensures ok { OnOk result (out.new.items ≡ out.old.items ++ walk_bytes lists.now.world
        (front_part front.entry) keys.now
        (reached lists.now.world path.now)) }
    ensures fits { OnOk result (length (walk_bytes lists.now.world
        (front_part front.entry) keys.now
        (reached lists.now.world path.now)) ≤ 2 ^ 31 - 1) }
    ensures few { OnOk result (length (values_of_all lists.now.world keys.now
        (reached lists.now.world path.now)) ≤ 2 ^ 31 - 64) }
    ensures kept { OnOk result (AreNodesKept lists.now (reached lists.now.world path.now)) }
    ensures refused { IfErr result (λ e. e ≢ Refused.NoMemory → (e ≡ too_long) × IsTooLong
        lists.now.world (front_part front.entry) keys.now
        (reached lists.now.world path.now)) }
    ensures err { OnErr result (out.new.items ≡ out.old.items) }
{
    let Some(size) = measure(alloc, front, lists, path, keys)? else {
        return Err(WalkRefused::TooLong {
            limit: MOST_VALUES as u32,
        });
    };
    append(alloc, out, size, front, lists, path, keys)?;
    Ok(())
}

/// Puts the answer with these keys, where it is not too long.
fn write_keys(
    alloc: Global,
    out: &mut BytesMut,
    id: &[u8],
    lists: &Lists<'_>,
    path: &Path,
    keys: &[Key],
) -> Result<(), WalkRefused>
    requires made { IsFor lists.now path.now }
    requires counted { walk_refusal lists.now.world path.now ≡ None }
    ensures ok { OnOk result (out.new.items ≡ out.old.items ++ walk_bytes lists.now.world
        (front_for id.now path.now keys.now) keys.now (reached lists.now.world path.now)) }
    ensures fits { OnOk result (length (walk_bytes lists.now.world
        (front_for id.now path.now keys.now) keys.now (reached lists.now.world path.now))
        ≤ 2 ^ 31 - 1) }
    ensures few { OnOk result (length (values_of_all lists.now.world keys.now
        (reached lists.now.world path.now)) ≤ 2 ^ 31 - 64) }
    ensures kept { OnOk result (AreNodesKept lists.now (reached lists.now.world path.now)) }
    ensures refused { IfErr result (λ e. e ≢ Refused.NoMemory → (e ≡ too_long) × IsTooLong
        lists.now.world (front_for id.now path.now keys.now) keys.now
        (reached lists.now.world path.now)) }
    ensures err { OnErr result (out.new.items ≡ out.old.items) }
{
    let names = h_path(alloc, path)?;
    let text = keys_text(alloc, keys)?;
    let front = Front {
        id,
        path: names.as_slice(),
        keys: text.as_slice(),
    };
    write_items(alloc, out, front, lists, path, keys)
}

/// Puts the answer to a path, in lists that were made for it.
#[rattlefmt::skip]
#[tactic(auto, using(
    crate::proofs::WalkWritten::written_facts,
    crate::proofs::WalkFormed::walk_formed
))]
fn write_in(
    alloc: Global,
    out: &mut BytesMut,
    id: &[u8],
    lists: &Lists<'_>,
    path: &Path,
    keys: &[u8],
) -> Result<(), WalkRefused>
    requires { IsFor lists.now path.now }
    ensures ok { OnOk result (out.new.items ≡ out.old.items ++ message_bytes id.now
        (walk_object lists.now.world path.now keys.now ∷ [])) }
    ensures formed { OnOk result
        (well_formed (walk_object lists.now.world path.now keys.now ∷ []) ≡ true) }
    ensures fits { OnOk result (length (message_bytes id.now
        (walk_object lists.now.world path.now keys.now ∷ [])) ≤ 2 ^ 31 - 1) }
    ensures accepted { OnOk result (refusal lists.now.world path.now keys.now ≡ None) }
    ensures refused { IfErr result (λ e. e ≢ Refused.NoMemory →
        message_refusal id.now lists.now.world path.now keys.now ≡ Some e) }
    ensures err { OnErr result (out.new.items ≡ out.old.items) }
{
    check_visits(alloc, lists, path)?;
    // what the buffers say of their texts
    let _ = lists.world().buffers().groups();
    let asked = read_keys(alloc, path.element(), keys)?;
    write_keys(alloc, out, id, lists, path, asked.as_slice())
}

/// Puts what a path leads to as a message under this id after the bytes that are in a buffer, as
/// WeeChat's relay protocol answers `hdata`: an item for each thing that is reached, with its
/// pointer and those of the elements on the way, and the values that the keys name. Keys are named
/// as `read_keys` has it. Of what is reached nothing is copied: the length of the message is found
/// first, and its memory taken at once. Where it is refused the bytes stay as they were.
///
/// Refused are, in this order, `DeadPointer` where nothing lives at the pointer that the path
/// begins with, `TooManyVisits` where the elements of the path give more than 4,194,304 pointers
/// together, and `TooLong` where the values have more than 2^31 - 64 bytes together, or the message
/// more than 2^31 - 1. `NoMemory` where memory is asked for and not found.
pub fn write_walk(
    alloc: Global,
    out: &mut BytesMut,
    id: &[u8],
    world: &World,
    path: &Path,
    keys: &[u8],
) -> Result<(), WalkRefused>
    requires text { IsUtf8 id.now }
    ensures ok { OnOk result (out.new.items ≡ out.old.items ++ message_bytes id.now
        (walk_object world.now path.now keys.now ∷ [])) }
    ensures formed { OnOk result (well_formed (walk_object world.now path.now keys.now ∷ [])
        ≡ true) }
    ensures fits { OnOk result (length (message_bytes id.now
        (walk_object world.now path.now keys.now ∷ [])) ≤ 2 ^ 31 - 1) }
    ensures accepted { OnOk result (refusal world.now path.now keys.now ≡ None) }
    ensures refused { IfErr result (λ e. e ≢ Refused.NoMemory →
        message_refusal id.now world.now path.now keys.now ≡ Some e) }
    ensures err { OnErr result (out.new.items ≡ out.old.items) }
{
    let lists = Lists::new(alloc, world, path)?;
    write_in(alloc, out, id, &lists, path, keys)
}
