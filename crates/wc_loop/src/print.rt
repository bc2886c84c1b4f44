ghost use Rattle.std.specs.Prelude.{◌≡◌, ◌+◌, ◌≤◌, ◌++◌, ◌∷◌, [], length, decimal, OnOk};
ghost use Rattle.std.specs.Prelude.{OnErr};
ghost use Rattle.std.specs.Io.KnownBytes.{append_known};
ghost use Rattle.arrayvec.specs.ArrayVec.{array_vec_len};
ghost use Rattle.wc_outside.specs.Faults.{Rose};
ghost use Rattle.wc_loop.specs.Demo.{line_of, demo_text};

use arrayvec::ArrayVec;
use itoa::Buffer;
use wc_demo::Counts;
use wc_outside::{Failed, Sink};

/// Prints a text, unless it is empty. It takes no memory of its own.
pub fn print<O: Sink>(out: &mut O, text: &[u8]) -> Result<(), Failed>
    ensures ok { OnOk result (O.contents out.new ≡ append_known (O.contents out.old) text.now) }
    ensures count { OnOk result (O.faults out.new ≡ O.faults out.old) }
    ensures failed { OnErr result (Rose (O.faults out.old) (O.faults out.new)) }
{
    if text.is_empty() {
        return Ok(());
    }
    out.write(text)
}

/// A line of some words. It takes no memory.
pub fn line(words: &[u8]) -> ArrayVec<u8, 192>
    requires { length words.now ≤ 63 }
    ensures { result.items ≡ line_of words.now }
{
    let mut line = ArrayVec::new();
    put(&mut line, words);
    put(&mut line, b"\n");
    line
}

/// A line of some words and a number. It takes no memory.
pub fn put_number(words: &[u8], number: u64) -> ArrayVec<u8, 192>
    requires { length words.now ≤ 23 }
    ensures { result.items ≡ line_of (words.now ++ decimal number) }
{
    let mut digits = Buffer::new();
    let mut line = ArrayVec::new();
    put(&mut line, words);
    put(&mut line, digits.format(number).as_bytes());
    put(&mut line, b"\n");
    line
}

/// The line of a demo of so many lines. It takes no memory.
pub fn demo_line(lines: u32, counts: Counts) -> ArrayVec<u8, 192>
    ensures { result.items ≡ demo_text lines counts }
{
    let mut line = ArrayVec::new();
    put_count(&mut line, b"demo ", u64::from(lines));
    put_count(&mut line, b": buffers ", counts.buffers);
    put_count(&mut line, b", lines ", counts.lines);
    put_count(&mut line, b", nicks ", counts.nicks);
    put(&mut line, b"\n");
    line
}

/// Adds words and a number, for which there is room.
fn put_count(line: &mut ArrayVec<u8, 192>, words: &[u8], number: u64)
    requires { array_vec_len line.old + length words.now + 40 ≤ 192 }
    ensures items { line.new.items ≡ line.old.items ++ words.now ++ decimal number }
    ensures len { array_vec_len line.new ≤ array_vec_len line.old + length words.now + 40 }
{
    let mut digits = Buffer::new();
    put(line, words);
    put(line, digits.format(number).as_bytes());
}

/// Adds bytes for which there is room.
fn put(line: &mut ArrayVec<u8, 192>, bytes: &[u8])
    requires { array_vec_len line.old + length bytes.now ≤ 192 }
    ensures items { line.new.items ≡ line.old.items ++ bytes.now }
    ensures len { array_vec_len line.new ≡ array_vec_len line.old + length bytes.now }
{
    if line.try_extend_from_slice(bytes).is_err() {
        unreachable!()
    }
}
