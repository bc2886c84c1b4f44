//! The answer to the request `hdata`.

ghost use Rattle.std.specs.Prelude.{◌≡◌, ◌≢◌, ◌++◌, ◌∷◌, [], ◌+◌, ◌<◌, ◌≤◌, None};
ghost use Rattle.std.specs.Prelude.{Some, IfOk, OnOk, IfErr, length};
ghost use Rattle.std.specs.List.{flat_map};
ghost use Rattle.wc_hdata.specs.Hdata.{bytes_of, most_bytes, object_of, refusal, too_long};
ghost use Rattle.wc_hdata.specs.Hdata.{walk_object};
ghost use Rattle.wc_hdata.specs.Kept.{IsFor, IsKept};
ghost use Rattle.wc_hdata.specs.Reached.{place_of};
ghost use Rattle.wc_hdata.specs.Refusals.{reached, walk_refusal};
ghost use Rattle.wc_hdata.specs.Values.{item_of, items_of, values_of};
ghost use Rattle.wc_hdata.specs.declared.refused.WalkRefused.TheVariants as Refused;

use crate::key::Key;
use crate::keys::{keys_text, read_keys};
use crate::lists::Lists;
use crate::path::{Path, h_path};
use crate::place::Place;
use crate::place_values::value_of;
use crate::refused::WalkRefused;
use crate::visits::{check_visits, pointer_of};
use crate::walker::Walker;
use std::alloc::Global;
use wc_objects::parts::room_after_item_values;
use wc_objects::{Hda, HdaItem, Object};
use wc_text::{Items, NoMemory};
use wc_world::World;

/// How many bytes the values may take together.
const BYTES: usize = 0x7fff_ffc0;

/// The values of a place that the keys name, in their order.
fn values_of(
    alloc: Global,
    lists: &Lists<'_>,
    keys: &[Key],
    place: Place<'_>,
) -> Result<Items<Object>, NoMemory>
    requires { IsKept lists.now (place_of place) }
    ensures { IfOk result (λ values. values
        ≡ values_of lists.now.world keys.now (place_of place.entry)) }
{
    let mut values = Items::new(alloc);
    for key in keys {
        if let Some(value) = value_of(lists, place, *key) {
            values.push(value.object(alloc)?)?;
        }
    }
    Ok(values)
}

fn copy(alloc: Global, pointers: &[u64]) -> Result<Items<u64>, NoMemory>
    ensures { IfOk result (λ copy. copy ≡ pointers.now) }
{
    let mut copy = Items::with_room(alloc, pointers.len())?;
    for pointer in pointers {
        copy.push(*pointer)?;
    }
    Ok(copy)
}

/// Puts the item of a place after others, where its values fit into what is left of the room.
fn push_item(
    alloc: Global,
    items: &mut Items<HdaItem>,
    lists: &Lists<'_>,
    keys: &[Key],
    pointers: &[u64],
    place: Place<'_>,
    left: &mut usize,
) -> Result<(), WalkRefused>
    requires { IsKept lists.now (place_of place) }
    ensures ok { OnOk result (items.new ≡ items.old ++ item_of lists.now.world keys.now
        (record { pointers = pointers.now; place = place_of place.entry }) ∷ []) }
    ensures left { OnOk result (left.new + length (bytes_of lists.now.world keys.now
        (record { pointers = pointers.now; place = place_of place.entry })) ≡ left.old) }
    ensures err { IfErr result (λ e. e ≢ Refused.NoMemory → (e ≡ too_long)
        × (left.old < length (bytes_of lists.now.world keys.now
        (record { pointers = pointers.now; place = place_of place.entry })))) }
{
    let values = values_of(alloc, lists, keys, place)?;
    let Some(rest) = room_after_item_values(*left, values.as_slice()) else {
        return Err(WalkRefused::TooLong {
            limit: BYTES as u32,
        });
    };
    *left = rest;
    let pointers = copy(alloc, pointers)?;
    items.push(HdaItem { pointers, values })?;
    Ok(())
}

/// The items of what is still to come of a walk.
fn items_along(
    alloc: Global,
    lists: &Lists<'_>,
    keys: &[Key],
    walker: &mut Walker<'_, '_>,
) -> Result<Items<HdaItem>, WalkRefused>
    requires { walker.old.lists ≡ lists.now }
    ensures ok { IfOk result (λ items. items ≡ items_of lists.now.world keys.now
        walker.old.left) }
    ensures fits { OnOk result (length
        (flat_map (bytes_of lists.now.world keys.now) walker.old.left) ≤ most_bytes) }
    ensures err { IfErr result (λ e. e ≢ Refused.NoMemory → (e ≡ too_long)
        × (most_bytes < length
        (flat_map (bytes_of lists.now.world keys.now) walker.old.left))) }
{
    let mut items = Items::new(alloc);
    let mut left = BYTES;
    while let Some(place) = walker.next() {
        push_item(
            alloc,
            &mut items,
            lists,
            keys,
            walker.pointers(),
            place,
            &mut left,
        )?;
    }
    Ok(items)
}

/// The items of what a path reaches, of which the visits were counted.
#[tactic(auto, using(crate::proofs::Refuses::not_dead))]
fn items_of(
    alloc: Global,
    lists: &Lists<'_>,
    path: &Path,
    keys: &[Key],
) -> Result<Items<HdaItem>, WalkRefused>
    requires made { IsFor lists.now path.now }
    requires counted { walk_refusal lists.now.world path.now ≡ None }
    ensures ok { IfOk result (λ items. items ≡ items_of lists.now.world keys.now
        (reached lists.now.world path.now)) }
    ensures fits { OnOk result (length (flat_map (bytes_of lists.now.world keys.now)
        (reached lists.now.world path.now)) ≤ most_bytes) }
    ensures err { IfErr result (λ e. e ≢ Refused.NoMemory → (e ≡ too_long)
        × (most_bytes < length (flat_map (bytes_of lists.now.world keys.now)
        (reached lists.now.world path.now)))) }
{
    let Some(mut walker) = Walker::begin(alloc, lists, path)? else {
        return Err(WalkRefused::DeadPointer {
            pointer: pointer_of(path.start),
        });
    };
    items_along(alloc, lists, keys, &mut walker)
}

/// What a path leads to, in lists that were made for it.
#[tactic(auto, using(crate::proofs::Refuses::walk_facts))]
fn walk_in(
    alloc: Global,
    lists: &Lists<'_>,
    path: &Path,
    keys: &[u8],
) -> Result<Object, WalkRefused>
    requires { IsFor lists.now path.now }
    ensures object { IfOk result (λ object. object
        ≡ walk_object lists.now.world path.now keys.now) }
    ensures accepted { OnOk result (refusal lists.now.world path.now keys.now ≡ None) }
    ensures refused { IfErr result (λ e. e ≢ Refused.NoMemory →
        refusal lists.now.world path.now keys.now ≡ Some e) }
{
    check_visits(alloc, lists, path)?;
    let asked = read_keys(alloc, path.element(), keys)?;
    let items = items_of(alloc, lists, path, asked.as_slice())?;
    let object = object_of(alloc, path, asked.as_slice(), items)?;
    Ok(object)
}

/// The answer that has these keys and items.
fn object_of(
    alloc: Global,
    path: &Path,
    keys: &[Key],
    items: Items<HdaItem>,
) -> Result<Object, NoMemory>
    ensures { IfOk result (λ object. object ≡ object_of path.now keys.now items) }
{
    let names = h_path(alloc, path)?;
    let keys = keys_text(alloc, keys)?;
    Ok(Object::Hda(Hda {
        path: Some(names),
        keys: Some(keys),
        items,
    }))
}

/// What a path leads to, as WeeChat's relay protocol answers `hdata`: an item for each thing that
/// is reached, with its pointer and those of the elements on the way, and the values that the keys
/// name. Keys are named as `read_keys` has it.
///
/// Refused are, in this order, `DeadPointer` where nothing lives at the pointer that the path
/// begins with, `TooManyVisits` where the elements of the path give more than 4,194,304 pointers
/// together, and `TooLong` where the values have more than 2^31 - 64 bytes together. `NoMemory`
/// where memory is asked for and not found.
pub fn walk(alloc: Global, world: &World, path: &Path, keys: &[u8]) -> Result<Object, WalkRefused>
    ensures object { IfOk result (λ object. object ≡ walk_object world.now path.now keys.now) }
    ensures accepted { OnOk result (refusal world.now path.now keys.now ≡ None) }
    ensures refused { IfErr result (λ e. e ≢ Refused.NoMemory → refusal world.now path.now keys.now
        ≡ Some e) }
{
    let lists = Lists::new(alloc, world, path)?;
    walk_in(alloc, &lists, path, keys)
}
