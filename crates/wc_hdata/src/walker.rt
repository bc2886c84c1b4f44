//! A walk along a path, place by place. Nothing is made of the places but what is asked for.

ghost use Rattle.std.specs.Prelude.{◌≡◌, ◌<◌, ◌∷◌, ◌++◌, [], None, IfOk, IfSome, MatchOption};
ghost use Rattle.std.specs.Prelude.{length, set, vec_capacity};
ghost use Rattle.std.specs.List.{AllByRecursion};
ghost use Rattle.wc_hdata.specs.Depth.{IsWalk, nodes_left, turns_left};
ghost use Rattle.wc_hdata.specs.Kept.{AreKept, IsFor, IsHeld, IsKept, IsReady, Listed};
ghost use Rattle.wc_hdata.specs.Reached.{Data_at, held_line, place_of};
ghost use Rattle.wc_hdata.specs.Refusals.{reached};
ghost use Rattle.wc_hdata.specs.Starts.{starts};
ghost use Rattle.wc_hdata.specs.Steps.{reach};
ghost use Rattle.wc_hdata.specs.Walk.{nodes_at, nodes_reached};
ghost use Rattle.wc_hdata.specs.WalkBytes.{pointers_bytes};
ghost use Rattle.wc_model.specs.World.{World};

use crate::cursor::Cursor;
use crate::lists::Lists;
use crate::path::{Path, Step};
use crate::place::{HeldLine, Place, pointer_of};
use crate::pointers::Pointers;
use crate::reach::reach;
use crate::starts::starts;
use crate::variable::Variable;
use std::alloc::Global;
use std::marker::Model;
use wc_text::NoMemory;

/// A walk along a path. Contracts see the lists, the pointers of the present place, and the nodes
/// that are still to come.
#[derive(Drop)]
pub(crate) struct Walker<'b, 'a> {
    lists: &'b Lists<'a>,
    steps: &'b [Step],
    /// The places that are still to come of each element on the way, from the first.
    open: Vec<Cursor<'b, 'a>>,
    /// A pointer of each element on the way.
    pointers: Pointers,
}

impl<'b, 'a> Model for Walker<'b, 'a> {
    ghost use Rattle.std.specs.Coded.{codes};
    ghost use Rattle.std.specs.FinMap as map;
    ghost use Rattle.wc_hdata.specs.Depth.{Walking};

    ghost Value = { Walking };

    ghost coded = { Prim.hlevel (codes, map.code) };

    ghost use Rattle.wc_hdata.specs.Walks.{walking_of, IsWalker};

    ghost view = { walking_of };

    ghost invariant = { IsWalker };
}

impl<'b, 'a> Walker<'b, 'a> {
    /// The walk along a path, for which the lists were made. None exactly where its pointer is
    /// dead. What takes memory is taken here.
    #[tactic(auto, unfolding(crate::specs::Refusals::reached))]
    pub(crate) fn begin(
        alloc: Global,
        lists: &'b Lists<'a>,
        path: &'b Path,
    ) -> Result<Option<Walker<'b, 'a>>, NoMemory>
        requires { IsFor lists.now path.now }
        ensures lists { IfOk result (λ begun. IfSome begun (λ walker. walker.lists ≡ lists.now)) }
        ensures left { IfOk result (λ begun. MatchOption begun
            (starts lists.now.world path.now.count path.now.start ≡ None)
            (λ walker. walker.left ≡ reached lists.now.world path.now)) }
    {
        let Some(first) = starts(lists, path) else {
            return Ok(None);
        };
        let walker = Walker::new(alloc, lists, path.steps.as_slice(), first)?;
        Ok(Some(walker))
    }

    fn new(
        alloc: Global,
        lists: &'b Lists<'a>,
        steps: &'b [Step],
        first: Cursor<'b, 'a>,
    ) -> Result<Walker<'b, 'a>, NoMemory>
        requires kept { AreKept lists.now first }
        requires ready { AllByRecursion (IsReady lists.now) steps.now }
        ensures lists { IfOk result (λ walker. walker.lists ≡ lists.now) }
        ensures left { IfOk result (λ walker. walker.left ≡ nodes_reached lists.now.world steps.now
            (nodes_at lists.now.world.groups [] first.entry)) }
    {
        let pointers = Pointers::new(alloc, steps.len() + 1)?;
        let mut open = Vec::with_capacity(alloc, steps.len() + 1)?;
        open.push_reserved(first);
        Ok(Walker {
            lists,
            steps,
            open,
            pointers,
        })
    }

    /// The next place to which the path leads. None where there are no more. No memory is taken.
    pub(crate) fn next(&mut self) -> Option<Place<'a>>
        ensures lists { self.new.lists ≡ self.old.lists }
        ensures given { MatchOption result (self.old.left ≡ []) (λ place. self.old.left
            ≡ record { pointers = self.new.pointers; place = place_of place } ∷ self.new.left) }
        ensures kept { IfSome result (λ place. IsKept self.old.lists (place_of place)) }
    {
        while let Some(top) = self.open.pop() {
            let lists = self.lists;
            if let Some(place) = go_on(lists, self.steps, &mut self.open, &mut self.pointers, top) {
                return Some(place);
            }
        }
        None
    }

    /// The pointers of the place that was given last, from the start of the path.
    pub(crate) fn pointers(&self) -> &[u64]
        ensures { result.now ≡ self.now.pointers }
    {
        self.pointers.as_slice()
    }

    /// How many bytes spell these pointers.
    pub(crate) fn pointer_bytes(&self) -> usize
        ensures { result ≡ length (pointers_bytes self.now.pointers) }
    {
        self.pointers.bytes()
    }
}

/// Takes the next place of the last element, and goes on from it where steps are left. The place,
/// where it is one to which the path leads.
#[inline(always)]
fn go_on<'b, 'a>(
    lists: &'b Lists<'a>,
    steps: &[Step],
    open: &mut Vec<Cursor<'b, 'a>>,
    pointers: &mut Pointers,
    mut top: Cursor<'b, 'a>,
) -> Option<Place<'a>>
    requires { IsWalk lists.now steps.now (length pointers.old) (open.old.items ++ top ∷ [])
        (vec_capacity open.old) }
    ensures walk { IsWalk lists.now steps.now (length pointers.new) open.new.items
        (vec_capacity open.new) }
    ensures given { MatchOption result
        (nodes_left lists.now.world steps.now pointers.old 0
        (open.old.items ++ top.entry ∷ [])
        ≡ nodes_left lists.now.world steps.now pointers.new 0 open.new.items)
        (λ place. nodes_left lists.now.world steps.now pointers.old 0
        (open.old.items ++ top.entry ∷ [])
        ≡ record { pointers = pointers.new; place = place_of place }
        ∷ nodes_left lists.now.world steps.now pointers.new 0 open.new.items) }
    ensures kept { IfSome result (λ place. IsKept lists.now (place_of place)) }
    ensures turned { turns_left lists.now.world steps.now 0 open.new.items
        < turns_left lists.now.world steps.now 0 (open.old.items ++ top.entry ∷ []) }
{
    let Some(place) = top.next() else {
        return None;
    };
    let level = open.len();
    pointers.put(level, pointer_of(lists.world().buffers(), place));
    open.push_reserved(top);
    if level == steps.len() {
        return Some(place);
    }
    if level + 1 == steps.len() {
        if let Some(said) = said_by(steps[level], place) {
            put_said(pointers, level + 1, said);
            return Some(Place::LineData(said));
        }
    }
    open.push_reserved(reach(lists, steps[level], place));
    None
}

/// Puts the pointer of what a line says in the place of another.
#[inline(always)]
fn put_said(pointers: &mut Pointers, level: usize, said: HeldLine<'_>)
    requires { level < length pointers.old }
    ensures { pointers.new ≡ set pointers.old level (held_line said.entry).line.content.0 }
{
    pointers.put(level, said.line.content().0);
}

/// What a line says, where a step leads to that. It is one place for each of many, so that a walk
/// need not open a list for it.
#[inline(always)]
#[tactic(auto, unfolding(crate::specs::Steps::reach))]
fn said_by<'a>(step: Step, place: Place<'a>) -> Option<HeldLine<'a>>
    ensures led { IfSome result (λ said. (world : World) → reach world step (place_of place.entry)
        ≡ Data_at (held_line said) ∷ []) }
    ensures kept { IfSome result (λ said. (listed : Listed) →
        IsKept listed (place_of place.entry) → IsHeld listed.world (held_line said)) }
{
    match (place, step.variable) {
        (Place::Line(held), Variable::Data) => Some(held),
        _ => None,
    }
}
