ghost use Rattle.std.specs.Prelude.{◌≡◌, ◌++◌, true, Some, IfOk, OnOk};
ghost use Rattle.wc_nicklist.specs.Rows.{path_eq};
ghost use Rattle.wc_nickdiff.specs.Compared.{keep, leaving_row, coming_row, changed_pair};
ghost use Rattle.wc_nickdiff.specs.Compared.{listed_row, picked_rows};
ghost use Rattle.wc_nickdiff.specs.NickPush.{item_eq, is_group, is_nick, stays};

use crate::diff_item::FirstTouch;
use crate::row::{push, sort};
use std::alloc::Global;
use wc_nicklist::{Item, Nicklist, Row};
use wc_text::{NoMemory, Text};

/// What has changed since the rows were told.
#[derive(Drop)]
pub(crate) struct Differences {
    pub(crate) out_nicks: Vec<Row>,
    pub(crate) out_groups: Vec<Row>,
    pub(crate) in_groups: Vec<Row>,
    pub(crate) in_nicks: Vec<Row>,
    pub(crate) changed: Vec<Row>,
}

impl Differences {
    ghost use Rattle.std.specs.Prelude.{[]};
    ghost use Rattle.std.specs.List.Sorted.{IsPermutation, IsSortedBy};
    ghost use Rattle.wc_nicklist.specs.Order.{before};

    /// No differences. It takes no memory.
    fn new(alloc: Global) -> Differences
        ensures out_nicks { result.out_nicks.items ≡ [] }
        ensures out_groups { result.out_groups.items ≡ [] }
        ensures in_groups { result.in_groups.items ≡ [] }
        ensures in_nicks { result.in_nicks.items ≡ [] }
        ensures changed { result.changed.items ≡ [] }
    {
        Differences {
            out_nicks: Vec::new(alloc),
            out_groups: Vec::new(alloc),
            in_groups: Vec::new(alloc),
            in_nicks: Vec::new(alloc),
            changed: Vec::new(alloc),
        }
    }

    /// Compares what was at the first touches with the rows now, key by key.
    pub(crate) fn of(
        alloc: Global,
        touches: &[FirstTouch],
        now: &Nicklist,
    ) -> Result<Differences, NoMemory>
        ensures out_nicks { IfOk result (λ d. d.out_nicks.items
            ≡ picked_rows (λ t n. keep is_nick (leaving_row t n)) now.now.rows touches.now) }
        ensures out_groups { IfOk result (λ d. d.out_groups.items
            ≡ picked_rows (λ t n. keep is_group (leaving_row t n)) now.now.rows touches.now) }
        ensures in_groups { IfOk result (λ d. d.in_groups.items
            ≡ picked_rows (λ t n. keep is_group (coming_row t n)) now.now.rows touches.now) }
        ensures in_nicks { IfOk result (λ d. d.in_nicks.items
            ≡ picked_rows (λ t n. keep is_nick (coming_row t n)) now.now.rows touches.now) }
        ensures changed { IfOk result (λ d. d.changed.items ≡ picked_rows changed_pair now.now.rows
            touches.now) }
    {
        let mut differences = Differences::new(alloc);
        for touch in touches {
            let row = now.row_of(alloc, &touch.key)?;
            differences.compare(alloc, &touch.before, row)?;
        }
        Ok(differences)
    }

    /// Compares the row of one key as it was told with the row now.
    fn compare(
        &mut self,
        alloc: Global,
        told: &Option<Row>,
        now: Option<Row>,
    ) -> Result<(), NoMemory>
        ensures out_nicks { OnOk result (self.new.out_nicks.items ≡ self.old.out_nicks.items
            ++ listed_row (keep is_nick (leaving_row told.now now))) }
        ensures out_groups { OnOk result (self.new.out_groups.items ≡ self.old.out_groups.items
            ++ listed_row (keep is_group (leaving_row told.now now))) }
        ensures in_groups { OnOk result (self.new.in_groups.items ≡ self.old.in_groups.items
            ++ listed_row (keep is_group (coming_row told.now now))) }
        ensures in_nicks { OnOk result (self.new.in_nicks.items ≡ self.old.in_nicks.items
            ++ listed_row (keep is_nick (coming_row told.now now))) }
        ensures changed { OnOk result (self.new.changed.items ≡ self.old.changed.items
            ++ listed_row (changed_pair told.now now)) }
    {
        if stays(told, &now) {
            return put_changed(&mut self.changed, told, now);
        }
        put_copy(alloc, &mut self.out_groups, &mut self.out_nicks, told)?;
        match now {
            Some(row) => put_by_kind(&mut self.in_groups, &mut self.in_nicks, row),
            None => Ok(()),
        }
    }

    /// Puts each list in canonical order.
    pub(crate) fn sort(&mut self)
        ensures out_nicks { IsPermutation self.old.out_nicks.items self.new.out_nicks.items
            × IsSortedBy before self.new.out_nicks.items }
        ensures out_groups { IsPermutation self.old.out_groups.items self.new.out_groups.items
            × IsSortedBy before self.new.out_groups.items }
        ensures in_groups { IsPermutation self.old.in_groups.items self.new.in_groups.items
            × IsSortedBy before self.new.in_groups.items }
        ensures in_nicks { IsPermutation self.old.in_nicks.items self.new.in_nicks.items
            × IsSortedBy before self.new.in_nicks.items }
        ensures changed { IsPermutation self.old.changed.items self.new.changed.items
            × IsSortedBy before self.new.changed.items }
    {
        sort(&mut self.out_nicks);
        sort(&mut self.out_groups);
        sort(&mut self.in_groups);
        sort(&mut self.in_nicks);
        sort(&mut self.changed);
    }
}

/// Puts a copy of a row, where there is one, after the others of its kind.
fn put_copy(
    alloc: Global,
    groups: &mut Vec<Row>,
    nicks: &mut Vec<Row>,
    row: &Option<Row>,
) -> Result<(), NoMemory>
    ensures groups { OnOk result (groups.new.items ≡ groups.old.items
        ++ listed_row (keep is_group row.now)) }
    ensures nicks { OnOk result (nicks.new.items ≡ nicks.old.items
        ++ listed_row (keep is_nick row.now)) }
{
    match row {
        Some(row) => put_by_kind(groups, nicks, row.copy(alloc)?),
        None => Ok(()),
    }
}

/// Puts a row after the others of its kind.
fn put_by_kind(groups: &mut Vec<Row>, nicks: &mut Vec<Row>, row: Row) -> Result<(), NoMemory>
    ensures groups { OnOk result (groups.new.items ≡ groups.old.items
        ++ listed_row (keep is_group (Some row))) }
    ensures nicks { OnOk result (nicks.new.items ≡ nicks.old.items
        ++ listed_row (keep is_nick (Some row))) }
{
    if row.item.is_group {
        push(groups, row)
    } else {
        push(nicks, row)
    }
}

/// Puts a row after the others, where it has got other fields than those that were told.
fn put_changed(changed: &mut Vec<Row>, told: &Option<Row>, now: Option<Row>) -> Result<(), NoMemory>
    requires { stays told.now now ≡ true }
    ensures { OnOk result (changed.new.items ≡ changed.old.items
        ++ listed_row (changed_pair told.now now)) }
{
    let (Some(told), Some(now)) = (told, now) else {
        return Ok(());
    };
    if is_same_item(&told.item, &now.item) {
        drop(now);
        return Ok(());
    }
    push(changed, now)
}

/// Whether a row is as it was told, under the same groups.
fn stays(told: &Option<Row>, now: &Option<Row>) -> bool
    ensures { result ≡ stays told.now now.now }
{
    match (told, now) {
        (Some(told), Some(now)) => is_same_path(told.path.as_slice(), now.path.as_slice()),
        _ => false,
    }
}

fn is_same_path(a: &[Text], b: &[Text]) -> bool
    ensures { result ≡ path_eq a.now b.now }
{
    if a.len() != b.len() {
        return false;
    }
    for i in 0..a.len() {
        if a[i].as_slice() != b[i].as_slice() {
            return false;
        }
    }
    true
}

#[tactic(auto, unfolding(crate::specs::NickPush::item_eq))]
fn is_same_item(a: &Item, b: &Item) -> bool
    ensures { result ≡ item_eq a.now b.now }
{
    a.handle.0 == b.handle.0
        && a.is_group == b.is_group
        && a.visible == b.visible
        && a.level == b.level
        && a.name.as_slice() == b.name.as_slice()
        && a.color.as_slice() == b.color.as_slice()
        && a.prefix.as_slice() == b.prefix.as_slice()
        && a.prefix_color.as_slice() == b.prefix_color.as_slice()
}
