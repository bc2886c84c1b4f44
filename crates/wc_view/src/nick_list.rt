//! The nicklist that items say.

ghost use Rattle.std.specs.Prelude.{◌≡◌, ◌++◌, ◌∷◌, [], true, false, option_map, option_copied};
ghost use Rattle.std.specs.Prelude.{IfOk, IfSome, IfNone, IsTrue};
ghost use Rattle.std.specs.List.{slice_get};
ghost use Rattle.std.specs.Vec.Iter.{into_iter_items};
ghost use Rattle.wc_nicklist.specs.Rows.{last_or, root_name, TextsAreUtf8};
ghost use Rattle.wc_view.specs.Each.{some_if};
ghost use Rattle.wc_view.specs.NickFold.{are_rows, is_root_item, rows_listed};
ghost use Rattle.wc_view.specs.NickLists.{next_row, comes_after, rows_after, Took, IsListing};
ghost use Rattle.wc_view.specs.NickLists.{ItemsAreUtf8, IsDepth};

use std::alloc::Global;
use std::cmp::Ordering;
use std::vec::IntoIter;
use wc_nicklist::{Item, NickRefused, Nicklist};
use wc_text::{Handle, NoMemory, Text, fold_cmp};

/// The name of the root, which is no group's.
const ROOT_NAME: &[u8] = b"root";

/// A nicklist that is read row by row, each after those before it.
#[derive(Drop)]
pub(crate) struct Listing {
    pub list: Nicklist,
    /// The names of the groups that a nick after the last row is in.
    pub path: Vec<Text>,
    /// The name of the last row, where that is a nick.
    pub nick: Option<Text>,
    /// The name of the parent where the path is empty.
    pub root_name: Text,
}

impl Listing {
    /// No row yet, below a root of this handle.
    fn new(alloc: Global, root: Handle) -> Result<Listing, NoMemory>
        ensures rows { IfOk result (λ listing. listing.list.rows ≡ []) }
        ensures listing { IfOk result IsListing }
        ensures root { IfOk result (λ listing. listing.root_name ≡ root_name) }
    {
        let root_name = Text::from_slice(alloc, ROOT_NAME)?;
        let list = Nicklist::new(alloc, root)?;
        Ok(Listing {
            list,
            path: Vec::new(alloc),
            nick: None,
            root_name,
        })
    }

    /// The rows that were read.
    fn finish(self) -> Nicklist
        ensures { result ≡ self.list }
    {
        self.list
    }

    /// Puts a row after the others. False where it can't be there.
    fn push(&mut self, alloc: Global, item: Item) -> Result<bool, NoMemory>
        requires utf8 { TextsAreUtf8 item }
        requires listing { IsListing self.old }
        requires root { self.old.root_name ≡ root_name }
        ensures fits { IfOk result
            (λ fits. fits ≡ are_rows
            (self.old.list.rows ++ next_row self.old.list.rows item ∷ [])) }
        ensures after { IfOk result (λ fits. IsTrue fits → self.new.list.rows ≡ self.old.list.rows
            ++ next_row self.old.list.rows item ∷ []) }
        ensures listing { IfOk result (λ fits. IsTrue fits → IsListing self.new) }
        ensures root { IfOk result (λ fits. self.new.root_name ≡ root_name) }
    {
        if item.is_group {
            self.push_group(alloc, item)
        } else {
            self.push_nick(alloc, item)
        }
    }

    fn push_nick(&mut self, alloc: Global, nick: Item) -> Result<bool, NoMemory>
        requires kind { nick.is_group ≡ false }
        requires utf8 { TextsAreUtf8 nick }
        requires listing { IsListing self.old }
        requires root { self.old.root_name ≡ root_name }
        ensures fits { IfOk result
            (λ fits. fits ≡ are_rows
            (self.old.list.rows ++ next_row self.old.list.rows nick ∷ [])) }
        ensures after { IfOk result (λ fits. IsTrue fits → self.new.list.rows ≡ self.old.list.rows
            ++ next_row self.old.list.rows nick ∷ []) }
        ensures listing { IfOk result (λ fits. IsTrue fits → IsListing self.new) }
        ensures root { IfOk result (λ fits. self.new.root_name ≡ root_name) }
    {
        if nick.level != 0 {
            return Ok(false);
        }
        if !comes_after(self.nick.as_ref(), nick.name.as_slice()) {
            return Ok(false);
        }
        let name = nick.name.copy(alloc)?;
        let parent = parent_in(&self.path, &self.root_name);
        let outcome = self.list.add_nick(alloc, parent, nick);
        let taken = is_taken(outcome)?;
        if !taken {
            return Ok(false);
        }
        self.nick = Some(name);
        Ok(true)
    }

    /// How many names of the path a group stays below, where it can come next by its level and its
    /// name.
    fn depth_of(&self, group: &Item) -> Option<usize>
        requires kind { group.now.is_group ≡ true }
        requires listing { IsListing self.now }
        ensures some { IfSome result (λ depth. IsDepth self.now group.now depth) }
        ensures none { IfNone result (false ≡ are_rows
            (self.now.list.rows ++ next_row self.now.list.rows group.now ∷ [])) }
    {
        if group.level == 0 {
            return None;
        }
        let depth = (group.level - 1) as usize;
        if depth > self.path.len() {
            return None;
        }
        if !comes_after(sibling_at(&self.path, depth), group.name.as_slice()) {
            return None;
        }
        Some(depth)
    }

    fn push_group(&mut self, alloc: Global, group: Item) -> Result<bool, NoMemory>
        requires kind { group.is_group ≡ true }
        requires utf8 { TextsAreUtf8 group }
        requires listing { IsListing self.old }
        requires root { self.old.root_name ≡ root_name }
        ensures fits { IfOk result
            (λ fits. fits ≡ are_rows
            (self.old.list.rows ++ next_row self.old.list.rows group ∷ [])) }
        ensures after { IfOk result (λ fits. IsTrue fits → self.new.list.rows ≡ self.old.list.rows
            ++ next_row self.old.list.rows group ∷ []) }
        ensures listing { IfOk result (λ fits. IsTrue fits → IsListing self.new) }
        ensures root { IfOk result (λ fits. self.new.root_name ≡ root_name) }
    {
        match self.depth_of(&group) {
            Some(depth) => self.push_at(alloc, depth, group),
            None => Ok(false),
        }
    }

    /// Puts a group after the others, below this many names of the path.
    fn push_at(&mut self, alloc: Global, depth: usize, group: Item) -> Result<bool, NoMemory>
        requires kind { group.is_group ≡ true }
        requires utf8 { TextsAreUtf8 group }
        requires listing { IsListing self.old }
        requires root { self.old.root_name ≡ root_name }
        requires depth { IsDepth self.old group depth }
        ensures fits { IfOk result
            (λ fits. fits ≡ are_rows
            (self.old.list.rows ++ next_row self.old.list.rows group ∷ [])) }
        ensures after { IfOk result (λ fits. IsTrue fits → self.new.list.rows ≡ self.old.list.rows
            ++ next_row self.old.list.rows group ∷ []) }
        ensures listing { IfOk result (λ fits. IsTrue fits → IsListing self.new) }
        ensures root { IfOk result (λ fits. self.new.root_name ≡ root_name) }
    {
        let name = group.name.copy(alloc)?;
        self.path.truncate(depth);
        let parent = parent_in(&self.path, &self.root_name);
        let outcome = self.list.add_group(alloc, parent, group);
        let taken = is_taken(outcome)?;
        if !taken {
            return Ok(false);
        }
        self.nick = None;
        let Ok(()) = self.path.push(name) else {
            return Err(NoMemory);
        };
        Ok(true)
    }
}

/// Whether a nicklist took a row.
fn is_taken(outcome: Result<(), NickRefused>) -> Result<bool, NoMemory>
    ensures { IfOk result (λ taken. Took outcome taken) }
{
    match outcome {
        Ok(()) => Ok(true),
        Err(NickRefused::NoMemory) => Err(NoMemory),
        Err(_) => Ok(false),
    }
}

/// The name of the group that what has this path is in.
fn parent_in<'a>(path: &'a [Text], root_name: &'a Text) -> &'a Text
    ensures { result.now ≡ last_or root_name.now path.now }
{
    match path.last() {
        Some(name) => name,
        None => root_name,
    }
}

/// The name at a depth of a path, where the path is as deep.
fn sibling_at(path: &[Text], depth: usize) -> Option<&Text>
    ensures { option_copied result ≡ slice_get path.now depth }
{
    path.get(depth)
}

/// Whether a name comes after that of the row before it at its place.
fn comes_after(other: Option<&Text>, name: &[u8]) -> bool
    ensures { result ≡ comes_after (option_copied other.entry) name.now }
{
    match other {
        Some(other) => fold_cmp(other.as_slice(), name) == Ordering::Less,
        None => true,
    }
}

/// Whether an item is that of the root.
fn is_root_item(item: &Item) -> bool
    ensures { result ≡ is_root_item item.now }
{
    item.is_group && item.name.as_slice() == ROOT_NAME
}

/// Puts rows after the others. False where one can't be there.
fn push_rows(listing: &mut Listing, alloc: Global, rows: IntoIter<Item>) -> Result<bool, NoMemory>
    requires texts { ItemsAreUtf8 (into_iter_items rows) }
    requires listing { IsListing listing.old }
    requires root { listing.old.root_name ≡ root_name }
    requires empty { listing.old.list.rows ≡ [] }
    ensures { IfOk result (λ fits. some_if fits listing.new.list.rows
        ≡ rows_after (into_iter_items rows)) }
{
    for item in rows {
        let fits = listing.push(alloc, item)?;
        if !fits {
            return Ok(false);
        }
    }
    Ok(true)
}

/// The nicklist of these rows. None where one can't be there.
fn read_rows(
    mut listing: Listing,
    alloc: Global,
    rows: IntoIter<Item>,
) -> Result<Option<Nicklist>, NoMemory>
    requires texts { ItemsAreUtf8 (into_iter_items rows) }
    requires listing { IsListing listing }
    requires root { listing.root_name ≡ root_name }
    requires empty { listing.list.rows ≡ [] }
    ensures { IfOk result (λ list. option_map (λ list. list.rows) list
        ≡ rows_after (into_iter_items rows)) }
{
    match push_rows(&mut listing, alloc, rows) {
        Ok(true) => Ok(Some(listing.finish())),
        Ok(false) => {
            drop(listing);
            Ok(None)
        }
        Err(NoMemory) => {
            drop(listing);
            Err(NoMemory)
        }
    }
}

/// The nicklist of the rows after a root of this handle.
fn list_after(
    alloc: Global,
    root: Handle,
    rows: IntoIter<Item>,
) -> Result<Option<Nicklist>, NoMemory>
    requires { ItemsAreUtf8 (into_iter_items rows) }
    ensures { IfOk result (λ list. option_map (λ list. list.rows) list
        ≡ rows_after (into_iter_items rows)) }
{
    match Listing::new(alloc, root) {
        Ok(listing) => read_rows(listing, alloc, rows),
        Err(NoMemory) => Err(NoMemory),
    }
}

/// The nicklist of items. None where they are something else than one root and after it rows that a
/// nicklist can hold, in canonical order.
pub(crate) fn list_of(alloc: Global, items: Vec<Item>) -> Result<Option<Nicklist>, NoMemory>
    requires { ItemsAreUtf8 items.items }
    ensures { IfOk result (λ list. option_map (λ list. list.rows) list ≡ rows_listed items.items) }
{
    let mut rows = items.into_iter();
    let Some(root) = rows.next() else {
        return Ok(None);
    };
    if !is_root_item(&root) {
        return Ok(None);
    }
    list_after(alloc, root.handle, rows)
}
