ghost use Rattle.std.specs.Prelude.{◌≡◌, ◌≤◌, ◌<◌, ℕ, List, true, false, None, Some, OnOk, IfSome};
ghost use Rattle.std.specs.Prelude.{IfNone, bytes_eq, nat_eq, if◌then◌else◌};
ghost use Rattle.std.specs.HashMap.{spare};
ghost use Rattle.wc_nicklist.specs.Index.{at_name, at_long, at_short, is_short, number};
ghost use Rattle.wc_nicklist.specs.Index.{HasNameRoom};

use crate::digest::front;
use crate::store::RowId;
use std::alloc::Global;
use std::collections::HashMap;
use wc_text::NoMemory;

/// How long a name is at most that is kept as a number.
const SHORT_BYTES: usize = 15;

type ShortIds = HashMap<u128, RowId>;

type LongIds = HashMap<Vec<u8>, RowId>;

/// The numbers of groups, or of nicks, by name. A short name is kept as a number, so that a look-up
/// compares it where it is in the table, and reads no memory of its own.
#[derive(Drop)]
pub(crate) struct IdsByName {
    short: ShortIds,
    long: LongIds,
}

impl IdsByName {
    /// No numbers. It takes no memory.
    pub(crate) fn new(alloc: Global) -> IdsByName
        ensures { (name : List ℕ) → at_name result name ≡ None }
    {
        IdsByName {
            short: HashMap::new(alloc),
            long: HashMap::new(alloc),
        }
    }

    /// The number of a name.
    pub(crate) fn find(&self, name: &[u8]) -> Option<RowId>
        ensures { result ≡ at_name self.now name.now }
    {
        match number(name) {
            Some(number) => self.short.get(&number).copied(),
            None => self.long.get(name).copied(),
        }
    }

    /// Takes the memory for one name more.
    pub(crate) fn reserve(&mut self) -> Result<(), NoMemory>
        ensures same { (name : List ℕ) → at_name self.new name ≡ at_name self.old name }
        ensures kept { HasNameRoom self.old → HasNameRoom self.new }
        ensures ok { OnOk result (HasNameRoom self.new) }
    {
        reserve_short(&mut self.short)?;
        reserve_long(&mut self.long)
    }

    /// Notes the number of a name. It takes no memory.
    pub(crate) fn insert(&mut self, name: Vec<u8>, id: RowId)
        requires { HasNameRoom self.old }
        ensures { (q : List ℕ) → at_name self.new q ≡ (if bytes_eq name.items q then Some id
            else at_name self.old q) }
    {
        match number(name.as_slice()) {
            Some(number) => insert_short(&mut self.short, number, id),
            None => insert_long(&mut self.long, name, id),
        }
    }

    /// Forgets the number of a name.
    pub(crate) fn remove(&mut self, name: &[u8])
        ensures { (q : List ℕ) → at_name self.new q ≡ (if bytes_eq name.now q then None
            else at_name self.old q) }
    {
        match number(name) {
            Some(number) => remove_short(&mut self.short, number),
            None => remove_long(&mut self.long, name),
        }
    }
}

/// The number that a short name is kept as: its bytes, and how many there are.
fn number(name: &[u8]) -> Option<u128>
    ensures short { IfSome result (λ n. (is_short name.now ≡ true) × (n ≡ number name.now)) }
    ensures long { IfNone result (is_short name.now ≡ false) }
{
    let bytes = front(name, SHORT_BYTES, true);
    if name.len() > SHORT_BYTES {
        return None;
    }
    Some(bytes * 256 + name.len() as u128)
}

fn reserve_short(ids: &mut ShortIds) -> Result<(), NoMemory>
    ensures same { (n : ℕ) → at_short ids.new n ≡ at_short ids.old n }
    ensures kept { spare ids.old ≤ spare ids.new }
    ensures ok { OnOk result (0 < spare ids.new) }
{
    ids.reserve(1)?;
    Ok(())
}

fn insert_short(ids: &mut ShortIds, number: u128, id: RowId)
    requires { 0 < spare ids.old }
    ensures { (n : ℕ) → at_short ids.new n ≡ (if nat_eq number n then Some id
        else at_short ids.old n) }
{
    let Ok(_) = ids.insert(number, id) else {
        unreachable!()
    };
}

fn remove_short(ids: &mut ShortIds, number: u128)
    ensures { (n : ℕ) → at_short ids.new n ≡ (if nat_eq number n then None
        else at_short ids.old n) }
{
    let _ = ids.remove(&number);
}

fn reserve_long(ids: &mut LongIds) -> Result<(), NoMemory>
    ensures same { (name : List ℕ) → at_long ids.new name ≡ at_long ids.old name }
    ensures kept { spare ids.old ≤ spare ids.new }
    ensures ok { OnOk result (0 < spare ids.new) }
{
    ids.reserve(1)?;
    Ok(())
}

fn insert_long(ids: &mut LongIds, name: Vec<u8>, id: RowId)
    requires { 0 < spare ids.old }
    ensures { (q : List ℕ) → at_long ids.new q ≡ (if bytes_eq name.items q then Some id
        else at_long ids.old q) }
{
    let Ok(_) = ids.insert(name, id) else {
        unreachable!()
    };
}

fn remove_long(ids: &mut LongIds, name: &[u8])
    ensures { (q : List ℕ) → at_long ids.new q ≡ (if bytes_eq name.now q then None
        else at_long ids.old q) }
{
    let _ = ids.remove(name);
}
