ghost use Rattle.std.specs.Prelude.{◌≡◌, ◌≤◌, ◌<◌, ℕ, List, Some, IfOk, OnOk, bytes_eq};
ghost use Rattle.std.specs.Prelude.{if◌then◌else◌};
ghost use Rattle.std.specs.HashMap.{spare};
ghost use Rattle.wc_nicklist.specs.Index.{at_long};

use std::alloc::Global;
use std::collections::HashMap;
use wc_text::NoMemory;

/// The places of groups, or of nicks, by name.
type Places = HashMap<Vec<u8>, usize>;

/// The place of each key that was touched.
#[derive(Drop)]
pub(crate) struct Index {
    groups: Places,
    nicks: Places,
}

impl Index {
    ghost use Rattle.std.specs.Prelude.{None};
    ghost use Rattle.wc_nicklist.specs.Order.{key_at};
    ghost use Rattle.wc_nicklist.specs.Rows.{key_eq};
    ghost use Rattle.wc_nicklist.specs.declared.item.Key.{Key};
    ghost use Rattle.wc_nickdiff.specs.Index.{place_in, HasTouchRoom};

    /// No places. It takes no memory.
    pub(crate) fn new(alloc: Global) -> Index
        ensures { (k : Key) → place_in result k ≡ None }
    {
        Index {
            groups: HashMap::new(alloc),
            nicks: HashMap::new(alloc),
        }
    }

    /// The place of a key.
    pub(crate) fn find(&self, is_group: bool, name: &[u8]) -> Option<usize>
        ensures { result ≡ place_in self.now (key_at is_group name.now) }
    {
        if is_group {
            find(&self.groups, name)
        } else {
            find(&self.nicks, name)
        }
    }

    /// Takes the memory for one group and one nick more.
    pub(crate) fn reserve(&mut self) -> Result<(), NoMemory>
        ensures same { (k : Key) → place_in self.new k ≡ place_in self.old k }
        ensures ok { OnOk result (HasTouchRoom self.new) }
    {
        reserve(&mut self.groups)?;
        reserve(&mut self.nicks)
    }

    /// Notes the place of a key. It takes no memory.
    pub(crate) fn insert(&mut self, is_group: bool, name: Vec<u8>, place: usize)
        requires { HasTouchRoom self.old }
        ensures { (k : Key) → place_in self.new k ≡ (if key_eq (key_at is_group name.items) k
            then Some place else place_in self.old k) }
    {
        if is_group {
            insert(&mut self.groups, name, place);
        } else {
            insert(&mut self.nicks, name, place);
        }
    }
}

fn find(places: &Places, name: &[u8]) -> Option<usize>
    ensures { result ≡ at_long places.now name.now }
{
    places.get(name).copied()
}

fn reserve(places: &mut Places) -> Result<(), NoMemory>
    ensures same { (name : List ℕ) → at_long places.new name ≡ at_long places.old name }
    ensures kept { spare places.old ≤ spare places.new }
    ensures ok { OnOk result (0 < spare places.new) }
{
    places.reserve(1)?;
    Ok(())
}

fn insert(places: &mut Places, name: Vec<u8>, place: usize)
    requires { 0 < spare places.old }
    ensures { (q : List ℕ) → at_long places.new q ≡ (if bytes_eq name.items q then Some place
        else at_long places.old q) }
{
    let Ok(_) = places.insert(name, place) else {
        unreachable!()
    };
}

/// The bytes of a name, as the key of a map.
pub(crate) fn bytes_of(alloc: Global, name: &[u8]) -> Result<Vec<u8>, NoMemory>
    ensures { IfOk result (λ bytes. bytes.items ≡ name.now) }
{
    let bytes = name.to_vec(alloc)?;
    Ok(bytes)
}
