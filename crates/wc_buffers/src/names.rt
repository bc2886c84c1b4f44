ghost use Rattle.std.specs.Prelude.{◌≡◌, ◌<◌, ◌≤◌, IfOk, OnOk, Some, None, List, ℕ};
ghost use Rattle.std.specs.Prelude.{if◌then◌else◌, bytes_eq};
ghost use Rattle.std.specs.HashMap.{spare};
ghost use Rattle.wc_buffers.specs.Kept.{at_name};

use std::alloc::Global;
use std::collections::HashMap;
use wc_text::{Handle, NoMemory};

/// The buffers by their full names.
pub(crate) type Names = HashMap<Vec<u8>, Handle>;

/// The bytes of a name in memory of their own.
pub(crate) fn key_of(alloc: Global, name: &[u8]) -> Result<Vec<u8>, NoMemory>
    ensures { IfOk result (λ key. key.items ≡ name.now) }
{
    let key = name.to_vec(alloc)?;
    Ok(key)
}

/// Takes the memory for one name more.
pub(crate) fn reserve(names: &mut Names) -> Result<(), NoMemory>
    ensures same { (q : List ℕ) → at_name names.new q ≡ at_name names.old q }
    ensures ok { OnOk result (0 < spare names.new) }
{
    names.reserve(1)?;
    Ok(())
}

/// Puts a name in. It takes no memory.
pub(crate) fn insert(names: &mut Names, name: Vec<u8>, h: Handle)
    requires { 0 < spare names.old }
    ensures { (q : List ℕ) → at_name names.new q ≡ (if bytes_eq name.items q then Some h
        else at_name names.old q) }
{
    let Ok(_) = names.insert(name, h) else {
        unreachable!()
    };
}

/// Takes a name out.
pub(crate) fn remove(names: &mut Names, name: &[u8])
    ensures left { (q : List ℕ) → at_name names.new q ≡ (if bytes_eq name.now q then None
        else at_name names.old q) }
    ensures room { spare names.old ≤ spare names.new }
{
    let _ = names.remove(name);
}
