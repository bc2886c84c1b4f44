//! The pointers of the elements on the way to a place, and how many bytes spell them.

ghost use Rattle.std.specs.Prelude.{◌≡◌, ◌+◌, ◌^◌, ◌<◌, ◌≤◌, length, replicate, set, IfOk};
ghost use Rattle.wc_hdata.specs.WalkBytes.{pointers_bytes};
ghost use Rattle.wc_objects.specs.Spelling.{pointer_bytes};

use std::alloc::Global;
use std::marker::Model;
use wc_text::NoMemory;

/// How many pointers there are at most. Their bytes can be counted then.
const MOST_POINTERS: usize = 1 << 32;

/// Pointers, of which the bytes are counted as they change. Contracts see their list.
#[derive(Drop)]
pub(crate) struct Pointers {
    items: Vec<u64>,
    /// How many bytes spell them all.
    bytes: usize,
}

impl Model for Pointers {
    ghost use Rattle.std.specs.Prelude.{ℕ, List};

    ghost Value = { List ℕ };

    ghost use Rattle.wc_hdata.specs.Pointers.{pointers_of, AreSpelled};

    ghost view = { pointers_of };

    ghost invariant = { AreSpelled };
}

impl Pointers {
    /// So many pointers, all of them 0.
    pub(crate) fn new(alloc: Global, count: usize) -> Result<Pointers, NoMemory>
        ensures { IfOk result (λ pointers. pointers ≡ replicate count 0) }
    {
        if count > MOST_POINTERS {
            return Err(NoMemory);
        }
        let items = Vec::from_elem(alloc, 0, count)?;
        Ok(Pointers {
            items,
            bytes: 2 * count,
        })
    }

    /// Puts a pointer in the place of another.
    pub(crate) fn put(&mut self, place: usize, pointer: u64)
        requires { place < length self.old }
        ensures { self.new ≡ set self.old place pointer }
    {
        let old = self.items[place];
        self.items[place] = pointer;
        self.bytes = bytes_after(self.bytes, old, pointer);
    }

    pub(crate) fn as_slice(&self) -> &[u64]
        ensures { result.now ≡ self.now }
    {
        self.items.as_slice()
    }

    /// How many bytes spell the pointers.
    pub(crate) fn bytes(&self) -> usize
        ensures { result ≡ length (pointers_bytes self.now) }
    {
        self.bytes
    }
}

/// How many bytes spell a pointer.
fn bytes_of(pointer: u64) -> usize
    ensures { result ≡ length (pointer_bytes pointer) }
{
    let mut bytes = 2;
    let mut left = pointer;
    while left >= 16 {
        left /= 16;
        bytes += 1;
    }
    bytes
}

/// How many bytes there are after a pointer took the place of another.
fn bytes_after(bytes: usize, old: u64, pointer: u64) -> usize
    requires less { length (pointer_bytes old) ≤ bytes }
    requires fits { bytes + length (pointer_bytes pointer) < 2 ^ 64 }
    ensures { result + length (pointer_bytes old) ≡ bytes + length (pointer_bytes pointer) }
{
    // Where they differ in their last digits alone, which is most often, they are as long.
    if old / 16 == pointer / 16 {
        return bytes;
    }
    bytes - bytes_of(old) + bytes_of(pointer)
}
