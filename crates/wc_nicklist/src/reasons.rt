ghost use Rattle.std.specs.Prelude.{◌≡◌, ◌≢◌, ◌&&◌, Some, None, IsTrue, IfSome, is_some};
ghost use Rattle.wc_nicklist.specs.Calls.{is_bad_name, name_refusal, add_refusal, remove_refusal};
ghost use Rattle.wc_nicklist.specs.Calls.{change_refusal};
ghost use Rattle.wc_nicklist.specs.Order.{key_at};
ghost use Rattle.wc_nicklist.specs.Rows.{find_row, path_below, is_root, has_child, below};

use crate::name::{NAME_LIMIT, Name};
use crate::nicklist::Nicklist;
use crate::refused::NickRefused;
use crate::store::Stored;
use std::alloc::Global;
use wc_text::{NoMemory, Text};

/// The name of the root, which is no group's.
const ROOT_NAME: &[u8; 4] = b"root";

impl Nicklist {
    /// Why a group or a nick of this name can't be added below a parent: what `add_group` and
    /// `add_nick` answer. None where it can.
    pub fn add_refusal(
        &self,
        alloc: Global,
        is_group: bool,
        parent: &Text,
        name: &[u8],
    ) -> Option<NickRefused>
        ensures none { result ≡ None →
            add_refusal is_group parent.now name.now self.now.rows ≡ None }
        ensures some { IfSome result (λ e. e ≢ NickRefused.NoMemory →
            add_refusal is_group parent.now name.now self.now.rows ≡ Some e) }
        ensures room { self.now.room ≡ Some parent.now → result ≢ Some NickRefused.NoMemory }
    {
        if let Some(refused) = refusal_of_name(is_group, name) {
            return Some(refused);
        }
        if !self.has_parent(parent.as_slice()) {
            return Some(no_parent(alloc, parent));
        }
        if self.has(is_group, name) {
            return Some(NickRefused::NameTaken {
                name: Name::from_slice(name),
            });
        }
        None
    }

    /// Whether a group of this name, or the root, is there.
    pub(crate) fn has_parent(&self, name: &[u8]) -> bool
        ensures exact { result ≡ is_some (path_below name.now self.now.rows) }
        ensures room { self.now.room ≡ Some name.now → IsTrue result }
    {
        let _ = &self.room;
        is_root(name) || self.has(true, name)
    }

    fn has(&self, is_group: bool, name: &[u8]) -> bool
        ensures { result ≡ is_some (find_row (key_at is_group name.now) self.now.rows) }
    {
        self.index.find(is_group, name).is_some()
    }

    /// Why the group or the nick of this name can't be taken out: what `remove_group` and
    /// `remove_nick` answer. None where it can.
    pub fn remove_refusal(&self, is_group: bool, name: &[u8]) -> Option<NickRefused>
        ensures { result ≡ remove_refusal is_group name.now self.now.rows }
    {
        if let Some(refused) = refusal_of_name(is_group, name) {
            return Some(refused);
        }
        let Some(row) = self.stored(is_group, name) else {
            return Some(NickRefused::NoSuch {
                name: Name::from_slice(name),
            });
        };
        if self.is_filled(is_group, row) {
            return Some(NickRefused::NotEmpty {
                name: Name::from_slice(name),
            });
        }
        None
    }

    /// Whether it is a group, and a row is right below it.
    fn is_filled(&self, is_group: bool, row: &Stored) -> bool
        requires { find_row (key_at is_group row.now.item.name) self.now.rows ≡ Some row.now }
        ensures { result ≡ (is_group && has_child (below row.now) self.now.rows) }
    {
        is_group && self.rows.has_child_of(row)
    }

    /// Why the group or the nick of this name can't be changed: what `change_group` and
    /// `change_nick` answer. None where it can.
    pub fn change_refusal(&self, is_group: bool, name: &[u8]) -> Option<NickRefused>
        ensures { result ≡ change_refusal is_group name.now self.now.rows }
    {
        if let Some(refused) = refusal_of_name(is_group, name) {
            return Some(refused);
        }
        if !self.has(is_group, name) {
            return Some(NickRefused::NoSuch {
                name: Name::from_slice(name),
            });
        }
        None
    }
}

/// The first reason for which an item must not have this name.
#[tactic(auto, unfolding(crate::specs::Calls::name_refusal))]
fn refusal_of_name(is_group: bool, name: &[u8]) -> Option<NickRefused>
    ensures { result ≡ name_refusal is_group name.now }
{
    if is_root_group(is_group, name) {
        return Some(NickRefused::IsRoot);
    }
    if is_bad_name(name) {
        return Some(NickRefused::BadName {
            length: name.len() as u64,
        });
    }
    None
}

fn is_root_group(is_group: bool, name: &[u8]) -> bool
    ensures { result ≡ (is_group && is_root name.now) }
{
    is_group && is_root(name)
}

fn is_root(name: &[u8]) -> bool
    ensures { result ≡ is_root name.now }
{
    name == ROOT_NAME.as_slice()
}

fn is_bad_name(name: &[u8]) -> bool
    ensures { result ≡ is_bad_name name.now }
{
    name.is_empty() || name.len() > NAME_LIMIT
}

pub(crate) fn no_parent(alloc: Global, parent: &Text) -> NickRefused
    ensures { result ≢ NickRefused.NoMemory → result ≡ NickRefused.NoParent parent.now }
{
    match parent.copy(alloc) {
        Ok(name) => NickRefused::NoParent { name },
        Err(NoMemory) => NickRefused::NoMemory,
    }
}
