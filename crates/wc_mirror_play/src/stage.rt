ghost use Rattle.std.specs.Prelude.{◌≤◌};

use crate::copy::put_mirror;
use std::alloc::Global;
use wc_notation::Sheet;
use wc_text::{NoMemory, Text};
use wc_view::{Mirror, MirrorRefused};

/// How many lines a buffer of the first mirror of a file has.
const FIRST_LIMIT: u32 = 3;

/// A mirror of so many lines a buffer.
#[tactic(auto, using(wc_view::proofs::IdLemmas::letter_ids))]
fn new_mirror(alloc: Global, limit: u32) -> Result<Mirror, NoMemory>
    requires { 1 ≤ limit }
{
    let ids = [
        Text::from_slice(alloc, b"b")?,
        Text::from_slice(alloc, b"l")?,
        Text::from_slice(alloc, b"n")?,
    ];
    Mirror::new(alloc, limit, ids)
}

/// A mirror, and its copy as it was shown last.
#[derive(Drop)]
pub struct Stage {
    mirror: Mirror,
    shown: Sheet,
}

fn put_size(out: &mut Sheet, size: usize) {
    let written = write!(out.text, "took {size} bytes");
    out.note(written);
}

fn put_refused(out: &mut Sheet, refused: MirrorRefused) {
    let written = write!(out.text, "refused: {refused}");
    out.note(written);
}

fn put_taken(out: &mut Sheet, taken: Result<usize, MirrorRefused>) {
    match taken {
        Ok(0) => out.put("bytes are missing"),
        Ok(size) => put_size(out, size),
        Err(refused) => put_refused(out, refused),
    }
}

/// Writes a copy where it is another than that which was shown last.
fn put_copy(out: &mut Sheet, shown: &mut Sheet, copy: Sheet) {
    if copy.read() == shown.read() {
        return out.put("\n  the copy stays as it was");
    }
    out.put(copy.read());
    *shown = copy;
}

impl Stage {
    pub fn new(alloc: Global) -> Result<Stage, NoMemory> {
        Ok(Stage {
            mirror: new_mirror(alloc, FIRST_LIMIT)?,
            shown: Sheet::new(alloc),
        })
    }

    /// Begins anew.
    pub fn renew(&mut self, alloc: Global, limit: u32) -> Result<(), NoMemory>
        requires { 1 ≤ limit }
    {
        self.mirror = new_mirror(alloc, limit)?;
        self.shown = Sheet::new(alloc);
        Ok(())
    }

    /// Gives bytes to the mirror, and writes what it answers and the copy after it.
    pub fn take(&mut self, alloc: Global, bytes: &[u8], out: &mut Sheet) {
        put_taken(out, self.mirror.take(alloc, bytes));
        let mut copy = Sheet::new(alloc);
        put_mirror(&mut copy, &self.mirror);
        put_copy(out, &mut self.shown, copy);
    }
}
