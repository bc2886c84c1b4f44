//! The pointers that the elements of a path give are counted before anything is made of them.

ghost use Rattle.std.specs.Prelude.{◌≡◌, ◌≢◌, ◌+◌, ◌<◌, ◌∷◌, ◌++◌, [], None, Some, OnOk};
ghost use Rattle.std.specs.Prelude.{IfOk, IfErr, MatchOption, drop, length, nat_le, true};
ghost use Rattle.std.specs.Prelude.{vec_capacity};
ghost use Rattle.std.specs.List.{AllByRecursion};
ghost use Rattle.wc_hdata.specs.Depth.{IsCount, further, further_left, turns_left};
ghost use Rattle.wc_hdata.specs.Kept.{AreKept, IsFor, IsReady};
ghost use Rattle.wc_hdata.specs.Narrow.{others_give_one};
ghost use Rattle.wc_hdata.specs.Refusals.{most_visits, start_pointer, walk_refusal};
ghost use Rattle.wc_hdata.specs.declared.refused.WalkRefused.TheVariants as Refused;

use crate::cursor::Cursor;
use crate::lists::Lists;
use crate::narrow::{last_wide, left_after};
use crate::path::{Path, Start, Step};
use crate::reach::reach;
use crate::refused::WalkRefused;
use crate::starts::starts;
use std::alloc::Global;
use wc_text::NoMemory;

/// How many pointers the elements of a path may give together.
const VISITS: usize = 4_194_304;

/// Whether a path may be gone through. What it leads to last is not gone through for that.
///
/// `DeadPointer` where nothing lives at the pointer that it begins with; else `TooManyVisits` where
/// its elements give more than 4,194,304 pointers together. `NoMemory` where memory is asked for
/// and not found.
#[tactic(auto, unfolding(crate::specs::Refusals::walk_refusal))]
pub(crate) fn check_visits(alloc: Global, lists: &Lists<'_>, path: &Path) -> Result<(), WalkRefused>
    requires { IsFor lists.now path.now }
    ensures accepted { OnOk result (walk_refusal lists.now.world path.now ≡ None) }
    ensures refused { IfErr result (λ e. e ≢ Refused.NoMemory →
        walk_refusal lists.now.world path.now ≡ Some e) }
{
    let Some(first) = starts(lists, path) else {
        return Err(WalkRefused::DeadPointer {
            pointer: pointer_of(path.start),
        });
    };
    if are_few(alloc, lists, path.steps.as_slice(), first)? {
        Ok(())
    } else {
        Err(WalkRefused::TooManyVisits {
            limit: VISITS as u32,
        })
    }
}

/// The pointer that a path begins with, or 0.
pub(crate) fn pointer_of(start: Start) -> u64
    ensures { result ≡ start_pointer start }
{
    match start {
        Start::FirstBuffer | Start::LastBuffer => 0,
        Start::Pointer {
            element: _,
            pointer,
        } => pointer,
    }
}

/// Whether these and what steps give from them are few enough.
fn are_few<'b, 'a>(
    alloc: Global,
    lists: &'b Lists<'a>,
    steps: &[Step],
    first: Cursor<'b, 'a>,
) -> Result<bool, NoMemory>
    requires kept { AreKept lists.now first }
    requires ready { AllByRecursion (IsReady lists.now) steps.now }
    ensures { IfOk result (λ few. few ≡ nat_le
        (length first.entry + further lists.now.world steps.now first.entry) most_visits) }
{
    let Some(left) = VISITS.checked_sub(first.len()) else {
        return Ok(false);
    };
    if steps.is_empty() {
        return Ok(true);
    }
    let last = last_wide(steps);
    let mut open = Vec::with_capacity(alloc, steps.len())?;
    open.push_reserved(first);
    Ok(are_within(lists, steps, last, &mut open, left))
}

/// Whether the steps give no more than so many from these places. Behind the last of them that may
/// lead to several places each leads from each to one.
fn are_within<'b, 'a>(
    lists: &'b Lists<'a>,
    steps: &[Step],
    last: usize,
    open: &mut Vec<Cursor<'b, 'a>>,
    most: usize,
) -> bool
    requires narrow { others_give_one (drop last steps.now) ≡ true }
    requires count { IsCount lists.now steps.now open.old.items (vec_capacity open.old) }
    ensures { result ≡ nat_le (further_left lists.now.world steps.now 0 open.old.items) most }
{
    let mut left = most;
    while let Some(top) = open.pop() {
        match count_on(lists, steps, last, open, top, left) {
            Some(rest) => left = rest,
            None => return false,
        }
    }
    true
}

/// Counts what a step gives from the next place of the last element. What is left of so many. None
/// where it is more.
fn count_on<'b, 'a>(
    lists: &'b Lists<'a>,
    steps: &[Step],
    last: usize,
    open: &mut Vec<Cursor<'b, 'a>>,
    mut top: Cursor<'b, 'a>,
    left: usize,
) -> Option<usize>
    requires narrow { others_give_one (drop last steps.now) ≡ true }
    requires count { IsCount lists.now steps.now (open.old.items ++ top ∷ []) (vec_capacity open.old) }
    ensures count { IsCount lists.now steps.now open.new.items (vec_capacity open.new) }
    ensures rest { MatchOption result
        (left < further_left lists.now.world steps.now 0 (open.old.items ++ top.entry ∷ []))
        (λ rest. rest + further_left lists.now.world steps.now 0 (open.old.items ++ top.entry ∷ [])
        ≡ left + further_left lists.now.world steps.now 0 open.new.items) }
    ensures turned { turns_left lists.now.world steps.now 0 open.new.items
        < turns_left lists.now.world steps.now 0 (open.old.items ++ top.entry ∷ []) }
{
    let Some(place) = top.next() else {
        return Some(left);
    };
    let level = open.len();
    open.push_reserved(top);
    let further = reach(lists, steps[level], place);
    let places = further.len();
    if level == last {
        return left_after(left, places, steps.len() - level);
    }
    let Some(rest) = left.checked_sub(places) else {
        return None;
    };
    if level + 1 < steps.len() {
        open.push_reserved(further);
    }
    Some(rest)
}
