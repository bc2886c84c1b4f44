ghost use Rattle.std.specs.Prelude.{◌≡◌, ◌++◌, List, IfOk, OnOk, filter};
ghost use Rattle.wc_nicklist.specs.declared.item.Row.{Row as RowValue};
ghost use Rattle.wc_nicklist.specs.Order.{key_of};
ghost use Rattle.wc_nicklist.specs.Rows.{find_row, IsRows};
ghost use Rattle.wc_nickdiff.specs.Compared.{listed_row};
ghost use Rattle.wc_nickdiff.specs.Held.{before_at, is_untouched};
ghost use Rattle.wc_nickdiff.specs.Told.{IsTold};

use crate::buffer_touches::BufferTouches;
use crate::row::{key_of, push, sort};
use std::alloc::Global;
use wc_nicklist::{Item, Nicklist, Row};
use wc_text::{Items, NoMemory};

/// The rows that were told: those that were at the first touches, and those now whose keys were not
/// touched.
pub(crate) fn told_rows(
    alloc: Global,
    touches: &BufferTouches,
    now: &Nicklist,
) -> Result<Items<Row>, NoMemory>
    ensures { IfOk result (λ rows. (told : List RowValue) →
        IsTold (λ k. before_at k touches.now.touches) now.now.rows told → rows ≡ told) }
{
    let mut rows = rows_not_touched(alloc, touches, now)?;
    for touch in touches.as_slice() {
        if let Some(row) = &touch.before {
            push(&mut rows, row.copy(alloc)?)?;
        }
    }
    sort(&mut rows);
    in_list(alloc, rows.as_slice())
}

/// The rows now whose keys were not touched.
fn rows_not_touched(
    alloc: Global,
    touches: &BufferTouches,
    now: &Nicklist,
) -> Result<Vec<Row>, NoMemory>
    ensures rows { IfOk result (λ rows. rows.items ≡ filter (is_untouched touches.now.touches)
        now.now.rows) }
    ensures held { IfOk result (λ _. IsRows now.now.rows) }
{
    let mut rows = Vec::new(alloc);
    for view in now.rows() {
        let item = view.item();
        if touches
            .before(item.is_group, item.name.as_slice())
            .is_none()
        {
            push_row_of(alloc, &mut rows, now, item)?;
        }
    }
    Ok(rows)
}

/// Puts the row of an item after others, where there is one.
fn push_row_of(
    alloc: Global,
    rows: &mut Vec<Row>,
    now: &Nicklist,
    item: &Item,
) -> Result<(), NoMemory>
    ensures { OnOk result (rows.new.items ≡ rows.old.items
        ++ listed_row (find_row (key_of item.now) now.now.rows)) }
{
    let key = key_of(alloc, item)?;
    match now.row_of(alloc, &key)? {
        Some(row) => push(rows, row),
        None => Ok(()),
    }
}

/// The same rows as a list.
fn in_list(alloc: Global, rows: &[Row]) -> Result<Items<Row>, NoMemory>
    ensures { IfOk result (λ items. items ≡ rows.now) }
{
    let mut items = Items::new(alloc);
    for row in rows {
        items.push(row.copy(alloc)?)?;
    }
    Ok(items)
}
