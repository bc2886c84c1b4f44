ghost use Rattle.std.specs.Prelude.{◌≡◌, ◌+◌, ◌-◌, ◌^◌, ◌≤◌, ◌++◌, ◌∷◌, ℕ, List};
ghost use Rattle.std.specs.Prelude.{[], false, None, IfSome, length, min};
ghost use Rattle.wc_turns.specs.Lines.{rest, HasNoLf};
ghost use Rattle.wc_turns.specs.Events.{line_events, read_events};
ghost use Rattle.wc_turns.specs.Served.{MayRun, MayTake, LeavesAtLine};
ghost use Rattle.wc_turns.specs.Tails.{IsTail};

use crate::line_buffer::LINE_LIMIT;
use crate::tail::{Tail, without_cr};
use memchr::memchr;
use wc_core::Core;
use wc_text::LinkId;

/// Serves a line of a link, unless it is too long.
fn serve_line(core: &mut Core, link: LinkId, line: &[u8], ran: &mut u64)
    ensures does { MayRun core.old core.new (line_events link.0 line.now) }
    ensures causes { LeavesAtLine link.0 core.old core.new }
    ensures idle { ran.new ≡ 0 → (ran.old ≡ 0) × (core.new ≡ core.old) }
    ensures ran { ran.new ≡ min (ran.old + length (line_events link.0 line.now)) (2 ^ 64 - 1) }
{
    let _ran = *ran;
    if line.len() > LINE_LIMIT {
        return;
    }
    *ran = ran.saturating_add(1);
    core.relay_line(link, without_cr(line));
}

/// Serves the line that a tail has come to, unless it is too long.
fn serve_tail(core: &mut Core, link: LinkId, tail: &mut Tail, ran: &mut u64)
    ensures begins { tail.new ≡ record { line = []; over = false } }
    ensures does { (line : List ℕ) → IsTail line tail.old →
        MayRun core.old core.new (line_events link.0 line) }
    ensures causes { LeavesAtLine link.0 core.old core.new }
    ensures idle { ran.new ≡ 0 → (ran.old ≡ 0) × (core.new ≡ core.old) }
    ensures ran { (line : List ℕ) → IsTail line tail.old →
        ran.new ≡ min (ran.old + length (line_events link.0 line)) (2 ^ 64 - 1) }
{
    let _ran = *ran;
    if tail.over {
        tail.begin();
        return;
    }
    serve_line(core, link, tail.line.as_slice(), ran);
    tail.begin();
}

/// Serves the line that ends after these bytes. A line that came whole is not copied.
fn end_line(core: &mut Core, link: LinkId, tail: &mut Tail, front: &[u8], ran: &mut u64)
    ensures begins { tail.new ≡ record { line = []; over = false } }
    ensures does { (line : List ℕ) → IsTail line tail.old →
        MayRun core.old core.new (line_events link.0 (line ++ front.now)) }
    ensures causes { LeavesAtLine link.0 core.old core.new }
    ensures idle { ran.new ≡ 0 → (ran.old ≡ 0) × (core.new ≡ core.old) }
    ensures ran { (line : List ℕ) → IsTail line tail.old →
        ran.new ≡ min (ran.old + length (line_events link.0 (line ++ front.now))) (2 ^ 64 - 1) }
{
    if tail.is_empty() {
        serve_line(core, link, front, ran);
        return;
    }
    tail.extend(front);
    serve_tail(core, link, tail, ran);
}

/// What is before the first LF, and what comes after it.
pub fn next_line(bytes: &[u8]) -> Option<(&[u8], &[u8])>
    ensures some { IfSome result (λ found. bytes.now ≡ found.0.now ++ 10 ∷ found.1.now) }
    ensures line { IfSome result (λ found. HasNoLf found.0.now) }
    ensures none { result ≡ None → HasNoLf bytes.now }
{
    let Some(at) = memchr(b'\n', bytes) else {
        return None;
    };
    let (line, following) = bytes.split_at(at);
    Some((line, following.split_at(1).1))
}

/// Serves the lines that bytes end, up to one that runs `/quit`.
pub fn feed(core: &mut Core, link: LinkId, tail: &mut Tail, bytes: &[u8], ran: &mut u64)
    requires going { core.old.quits ≡ false }
    ensures tail { core.new.quits ≡ false → (line : List ℕ) → IsTail line tail.old →
        IsTail (rest line bytes.now) tail.new }
    ensures takes { (line : List ℕ) → IsTail line tail.old →
        MayTake core.old core.new ran.old ran.new (read_events link.0 line bytes.now) }
    ensures causes { LeavesAtLine link.0 core.old core.new }
    ensures idle { ran.new ≡ 0 → (ran.old ≡ 0) × (core.new ≡ core.old) }
{
    let _ran = *ran;
    let mut rest = bytes;
    while let Some((line, following)) = next_line(rest) {
        end_line(core, link, tail, line, ran);
        if core.quits() {
            return;
        }
        rest = following;
    }
    tail.extend(rest);
}
