//! Which lines are among those whose flags differ.

ghost use Rattle.std.specs.Prelude.{◌≡◌, true, is_some, IfOk, IsTrue};
ghost use Rattle.std.specs.List.{list_any};
ghost use Rattle.std.specs.List.Sorted.{IsNonDecreasingBy};
ghost use Rattle.wc_events.specs.FlipOrders.{IsOrderOf, is_named, number_of};
ghost use Rattle.wc_model.specs.Parts.{has_flips, is_flipped};

use std::alloc::Global;
use std::marker::Model;
use wc_lines::{Lines, PackedLine};
use wc_text::{Handle, Items, NoMemory};
use wc_world::World;

/// The contents of the lines whose flags differ, which contracts see as the list of these.
///
/// A line is found by a search of them in order, where there was memory for that, and else by a walk
/// over all of them.
#[derive(Drop)]
pub struct FlipLookup<'a> {
    flips: &'a Items<Handle>,
    order: Option<Vec<Handle>>,
}

impl<'a> Model for FlipLookup<'a> {
    ghost use Rattle.std.specs.Prelude.{List};
    ghost use Rattle.wc_text.specs.declared.names.Handle.{Handle};

    ghost Value = { List Handle };

    ghost use Rattle.wc_events.specs.FlipOrders.{flips_of, IsLookup};

    ghost view = { flips_of };

    ghost invariant = { IsLookup };
}

impl<'a> FlipLookup<'a> {
    /// A look for lines by their contents. It takes memory as long as the list, and is made without
    /// it where memory is refused.
    pub fn new(alloc: Global, flips: &'a Items<Handle>) -> FlipLookup<'a>
        ensures { result ≡ flips.now }
    {
        let order = order_of(alloc, flips.as_slice()).ok();
        FlipLookup { flips, order }
    }

    /// Whether the flag of a line differs. It takes no memory.
    pub fn has(&self, line: &PackedLine) -> bool
        ensures { result ≡ is_flipped self.now line.now }
    {
        let content = line.content().0;
        match &self.order {
            Some(order) => place_of(order.as_slice(), content).is_some(),
            None => is_named(self.flips.as_slice(), content),
        }
    }

    /// The same, which looks at a place of the order first, and moves it behind the content that is
    /// found. Lines mostly lie in the order of their contents, so that a walk over them has no
    /// search.
    #[inline(always)]
    pub(crate) fn has_at(&self, place: &mut usize, line: &PackedLine) -> bool
        ensures { result ≡ is_flipped self.now line.now }
    {
        let content = line.content().0;
        let Some(order) = &self.order else {
            return is_named(self.flips.as_slice(), content);
        };
        match place_near(order.as_slice(), *place, content) {
            Some(found) => {
                *place = found.saturating_add(1);
                true
            }
            None => false,
        }
    }
}

/// These in order.
fn order_of(alloc: Global, flips: &[Handle]) -> Result<Vec<Handle>, NoMemory>
    ensures { IfOk result (λ order. IsOrderOf flips.now order.items) }
{
    let mut order = Vec::new(alloc);
    order.extend_from_slice(flips)?;
    order.sort_unstable_by_key(|flip| flip.0);
    Ok(order)
}

/// Where a content is among these, which are in order.
fn place_of(order: &[Handle], content: u64) -> Option<usize>
    requires { IsNonDecreasingBy number_of order.now }
    ensures { is_some result ≡ is_named order.now content }
{
    match order.binary_search_by_key(&content, |flip| flip.0) {
        Ok(place) => Some(place),
        Err(_) => None,
    }
}

/// Whether a content is the one at this place.
#[inline(always)]
#[tactic(auto, using(crate::proofs::FlipLemmas::at_named))]
fn is_at(order: &[Handle], place: usize, content: u64) -> bool
    ensures { IsTrue result → is_named order.now content ≡ true }
{
    match order.get(place) {
        Some(flip) => flip.0 == content,
        None => false,
    }
}

/// The same as `place_of`, with a look at one place first.
#[inline(always)]
fn place_near(order: &[Handle], near: usize, content: u64) -> Option<usize>
    requires { IsNonDecreasingBy number_of order.now }
    ensures { is_some result ≡ is_named order.now content }
{
    if is_at(order, near, content) {
        return Some(near);
    }
    place_of(order, content)
}

/// The same of these in any order.
fn is_named(flips: &[Handle], content: u64) -> bool
    ensures { result ≡ is_named flips.now content }
{
    flips.iter().any(|flip| flip.0 == content)
}

/// Whether the flag of a line of a buffer differs. It takes no memory.
pub fn has_flips(world: &World, flips: &FlipLookup<'_>, buffer: Handle) -> bool
    ensures { result ≡ has_flips world.now flips.now buffer.0 }
{
    match world.lines(buffer) {
        Some(lines) => has_flipped(lines, flips),
        None => false,
    }
}

/// The same of lines.
pub(crate) fn has_flipped(lines: &Lines, flips: &FlipLookup<'_>) -> bool
    ensures { result ≡ list_any (is_flipped flips.now) lines.now.lines }
{
    for line in lines.iter() {
        if flips.has(line) {
            return true;
        }
    }
    false
}
