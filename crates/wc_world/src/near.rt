ghost use Rattle.std.specs.Prelude.{◌≡◌, ◌++◌, ℕ, List, IfOk, IfErr};
ghost use Rattle.wc_model.specs.Order.{before_in, prev_of, next_of};
ghost use Rattle.wc_world.specs.Near.{numbers, after_seen};

use wc_buffers::Buffers;
use wc_text::Handle;

/// Ok: the handle before `h`, which is here; Err: the last handle, where it is not.
fn before_here(last: Handle, h: Handle, group: &[Handle]) -> Result<Handle, Handle>
    ensures here { IfOk result (λ x. (rest : List ℕ) →
        before_in last.0 h.0 (numbers group.now ++ rest) ≡ x.0) }
    ensures past { IfErr result (λ x. (rest : List ℕ) →
        before_in last.0 h.0 (numbers group.now ++ rest) ≡ before_in x.0 h.0 rest) }
{
    let mut last = last;
    for other in group {
        if other.0 == h.0 {
            return Ok(last);
        }
        last = *other;
    }
    Err(last)
}

/// Ok: the handle after `h`; Err: whether `h` was the last one.
fn after_here(seen: bool, h: Handle, group: &[Handle]) -> Result<Handle, bool>
    ensures here { IfOk result (λ x. (rest : List ℕ) →
        after_seen seen h.0 (numbers group.now ++ rest) ≡ x.0) }
    ensures past { IfErr result (λ x. (rest : List ℕ) →
        after_seen seen h.0 (numbers group.now ++ rest) ≡ after_seen x h.0 rest) }
{
    let mut seen = seen;
    for other in group {
        if seen {
            return Ok(*other);
        }
        seen = other.0 == h.0;
    }
    Err(seen)
}

/// The buffer before `h` in the order of buffers; null where there is none.
#[tactic(auto, using(crate::proofs::NearLemmas::order_handles))]
pub(crate) fn prev_of(buffers: &Buffers, h: Handle) -> Handle
    ensures { result.0 ≡ prev_of h.0 buffers.now }
{
    let mut last = Handle(0);
    for group in buffers.groups() {
        match before_here(last, h, group) {
            Ok(prev) => return prev,
            Err(handle) => last = handle,
        }
    }
    Handle(0)
}

/// The buffer after `h` in the order of buffers; null where there is none.
#[tactic(auto, using(crate::proofs::NearLemmas::next_of_facts))]
pub(crate) fn next_of(buffers: &Buffers, h: Handle) -> Handle
    ensures { result.0 ≡ next_of h.0 buffers.now }
{
    let mut seen = false;
    for group in buffers.groups() {
        match after_here(seen, h, group) {
            Ok(next) => return next,
            Err(is_seen) => seen = is_seen,
        }
    }
    Handle(0)
}
