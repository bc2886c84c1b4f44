ghost use Rattle.std.specs.Prelude.{◌≡◌, ◌≢◌, OnOk, OnErr, IfOk, IfErr, ℕ, Ok, Err, IsTrue, not};
ghost use Rattle.std.specs.Prelude.{is_some, option_copied};
ghost use Rattle.wc_nicklist.specs.Order.{key_of};
ghost use Rattle.wc_nicklist.specs.Rows.{find_row, path_below, TextsAreUtf8};
ghost use Rattle.wc_nickdiff.specs.Apply.{lies_under, is_refused_under, is_refused, applied_under};
ghost use Rattle.wc_nickdiff.specs.Apply.{item_applied, applied_from, applied_all, AreUtf8};

use crate::by_kind::{add, change, remove};
use crate::diff_item::{DiffItem, Mark};
use crate::refused::DiffRefused;
use crate::row::{ROOT_NAME, copy_of, key_of, parent_of};
use std::alloc::Global;
use wc_nicklist::{Item, Key, NickRefused, Nicklist};
use wc_text::{Items, NoMemory, Text};

/// What a diff makes of a nicklist, which stays as it is. `BadItem` with the place of the first
/// item that can't be applied, which is one that removes or changes what is not under the
/// group that was named last, adds what is, has a name that no row may have, removes a group that
/// has something below it, names a group that is not there, or is before any that names one.
pub fn item_applied(
    alloc: Global,
    list: &Nicklist,
    items: &Items<DiffItem>,
) -> Result<Nicklist, DiffRefused>
    requires { AreUtf8 items.now }
    ensures root { IfOk result (λ next. next.root ≡ list.now.root) }
    ensures after { IfOk result (λ next. applied_all items.now list.now.rows ≡ Ok next.rows) }
    ensures refused { IfErr result (λ e. e ≢ DiffRefused.NoMemory → (place : ℕ)
        × (e ≡ DiffRefused.BadItem place) × (applied_all items.now list.now.rows ≡ Err place)) }
{
    let mut next = copy_of(alloc, list)?;
    apply_each(alloc, &mut next, items.as_slice())?;
    Ok(next)
}

/// Makes a nicklist what a diff says. A refusal is one of `applied`, and changes nothing.
pub fn apply(alloc: Global, list: &mut Nicklist, items: &Items<DiffItem>) -> Result<(), DiffRefused>
    requires { AreUtf8 items.now }
    ensures root { list.new.root ≡ list.old.root }
    ensures after { OnOk result (applied_all items.now list.old.rows ≡ Ok list.new.rows) }
    ensures refused { IfErr result (λ e. e ≢ DiffRefused.NoMemory → (place : ℕ)
        × (e ≡ DiffRefused.BadItem place) × (applied_all items.now list.old.rows ≡ Err place)) }
    ensures err { OnErr result (list.new ≡ list.old) }
{
    let next = item_applied(alloc, list, items)?;
    *list = next;
    Ok(())
}

/// Applies the items in order, up to the first that can't be applied.
fn apply_each(alloc: Global, list: &mut Nicklist, items: &[DiffItem]) -> Result<(), DiffRefused>
    requires { AreUtf8 items.now }
    ensures root { OnOk result (list.new.root ≡ list.old.root) }
    ensures after { OnOk result (applied_all items.now list.old.rows ≡ Ok list.new.rows) }
    ensures refused { IfErr result (λ e. e ≢ DiffRefused.NoMemory → (place : ℕ)
        × (e ≡ DiffRefused.BadItem place) × (applied_all items.now list.old.rows ≡ Err place)) }
{
    let mut parent = None;
    for (place, item) in items.iter().enumerate() {
        if !apply_item(alloc, list, parent, item)? {
            return Err(DiffRefused::BadItem {
                place: place as u64,
            });
        }
        if item.mark.names_parent() {
            parent = Some(&item.item.name);
        }
    }
    Ok(())
}

/// Applies an item, and answers whether it can be applied.
fn apply_item(
    alloc: Global,
    list: &mut Nicklist,
    parent: Option<&Text>,
    item: &DiffItem,
) -> Result<bool, NoMemory>
    requires { TextsAreUtf8 item.now.item }
    ensures root { IfOk result (λ done. IsTrue done → list.new.root ≡ list.old.root) }
    ensures fits { IfOk result
        (λ done. done ≡ not (is_refused item.now (option_copied parent.entry) list.old.rows)) }
    ensures after { IfOk result (λ done. IsTrue done → list.new.rows ≡ item_applied item.now
        (option_copied parent.entry) list.old.rows) }
{
    let Some(parent) = parent else {
        if !item.mark.names_parent() {
            return Ok(false);
        }
        return has_group(alloc, list, &item.item.name);
    };
    apply_under(alloc, list, parent, item)
}

fn apply_under(
    alloc: Global,
    list: &mut Nicklist,
    parent: &Text,
    item: &DiffItem,
) -> Result<bool, NoMemory>
    requires { TextsAreUtf8 item.now.item }
    ensures root { IfOk result (λ done. IsTrue done → list.new.root ≡ list.old.root) }
    ensures fits { IfOk result (λ done. done
        ≡ not (is_refused_under item.now.mark parent.now item.now.item list.old.rows)) }
    ensures after { IfOk result (λ done. IsTrue done →
        list.new.rows ≡ applied_under item.now.mark parent.now item.now.item list.old.rows) }
{
    match item.mark {
        Mark::Parent => has_group(alloc, list, &item.item.name),
        Mark::Added => add_under(alloc, list, parent, &item.item),
        Mark::Removed => remove_under(alloc, list, parent, &item.item),
        Mark::Changed => change_under(alloc, list, parent, &item.item),
    }
}

/// Whether a group of this name, or the root, is.
#[tactic(auto, unfolding(wc_nicklist::specs::Rows::path_below))]
fn has_group(alloc: Global, list: &Nicklist, name: &Text) -> Result<bool, NoMemory>
    ensures { IfOk result (λ has. has ≡ is_some (path_below name.now list.now.rows)) }
{
    if name.as_slice() == ROOT_NAME.as_slice() {
        return Ok(true);
    }
    let key = Key {
        is_group: true,
        name: name.copy(alloc)?,
    };
    Ok(list.row(&key).is_some())
}

#[tactic(auto, unfolding(crate::specs::Apply::is_refused_under, crate::specs::Apply::applied_under))]
fn add_under(
    alloc: Global,
    list: &mut Nicklist,
    parent: &Text,
    item: &Item,
) -> Result<bool, NoMemory>
    requires { TextsAreUtf8 item.now }
    ensures root { IfOk result (λ done. IsTrue done → list.new.root ≡ list.old.root) }
    ensures fits { IfOk result
        (λ done. done ≡ not (is_refused_under Mark.Added parent.now item.now list.old.rows)) }
    ensures after { IfOk result (λ done. IsTrue done →
        list.new.rows ≡ applied_under Mark.Added parent.now item.now list.old.rows) }
{
    let item = item.copy(alloc)?;
    match add(alloc, list, parent, item) {
        Ok(()) => Ok(true),
        Err(NickRefused::NoMemory) => Err(NoMemory),
        Err(_) => Ok(false),
    }
}

#[tactic(auto, unfolding(crate::specs::Apply::is_refused_under, crate::specs::Apply::applied_under))]
fn remove_under(
    alloc: Global,
    list: &mut Nicklist,
    parent: &Text,
    item: &Item,
) -> Result<bool, NoMemory>
    ensures root { IfOk result (λ done. IsTrue done → list.new.root ≡ list.old.root) }
    ensures fits { IfOk result
        (λ done. done ≡ not (is_refused_under Mark.Removed parent.now item.now list.old.rows)) }
    ensures after { IfOk result (λ done. IsTrue done →
        list.new.rows ≡ applied_under Mark.Removed parent.now item.now list.old.rows) }
{
    if !lies_under(alloc, list, parent, item)? {
        return Ok(false);
    }
    match remove(list, item.is_group, &item.name) {
        Ok(()) => Ok(true),
        Err(_) => Ok(false),
    }
}

#[tactic(auto, unfolding(crate::specs::Apply::is_refused_under, crate::specs::Apply::applied_under))]
fn change_under(
    alloc: Global,
    list: &mut Nicklist,
    parent: &Text,
    item: &Item,
) -> Result<bool, NoMemory>
    requires { TextsAreUtf8 item.now }
    ensures root { IfOk result (λ done. IsTrue done → list.new.root ≡ list.old.root) }
    ensures fits { IfOk result
        (λ done. done ≡ not (is_refused_under Mark.Changed parent.now item.now list.old.rows)) }
    ensures after { IfOk result (λ done. IsTrue done →
        list.new.rows ≡ applied_under Mark.Changed parent.now item.now list.old.rows) }
{
    if !lies_under(alloc, list, parent, item)? {
        return Ok(false);
    }
    match change(list, item.copy(alloc)?) {
        Ok(()) => Ok(true),
        Err(_) => Ok(false),
    }
}

/// Whether the group or the nick of an item's name is right below that group or the root.
fn lies_under(alloc: Global, list: &Nicklist, parent: &Text, item: &Item) -> Result<bool, NoMemory>
    ensures { IfOk result (λ stands. stands ≡ lies_under parent.now
        (find_row (key_of item.now) list.now.rows)) }
{
    let key = key_of(alloc, item)?;
    let found = list.row_of(alloc, &key);
    drop(key);
    let Some(row) = found? else {
        return Ok(false);
    };
    let lies = parent_of(&row) == parent.as_slice();
    drop(row);
    Ok(lies)
}
