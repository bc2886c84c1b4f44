//! The lists of lines of a world, those of which a walk has to know made once.

ghost use Rattle.std.specs.Prelude.{◌≡◌, ◌++◌, true, [], length, map, IfOk, OnOk, MatchOption};
ghost use Rattle.std.specs.Prelude.{option_copied};
ghost use Rattle.std.specs.List.{list_any, AllByRecursion};
ghost use Rattle.std.specs.List.Sorted.{IsNonDecreasingBy};
ghost use Rattle.wc_buffers.specs.Calls.{is_there};
ghost use Rattle.wc_buffers.specs.Kept.{handles};
ghost use Rattle.wc_hdata.specs.declared.path.Step.{Step as StepValue};
ghost use Rattle.wc_hdata.specs.declared.place.LineList.TheVariants.{Mixed as MixedLines};
ghost use Rattle.wc_hdata.specs.Kept.{IsFor, IsHeld, IsKeptList, IsMade, IsThere, is_made};
ghost use Rattle.wc_hdata.specs.Listed.{AddsMade, IsMixedList, firsts_of, goes_to_lines, is_shown};
ghost use Rattle.wc_hdata.specs.Listed.{first_handle, number_of};
ghost use Rattle.wc_hdata.specs.Lists.{group_of, held_by, is_in, lines_in, lines_of_all};
ghost use Rattle.wc_hdata.specs.Lists.{own_lines, shown_list};
ghost use Rattle.wc_hdata.specs.Reached.{held_lines};
ghost use Rattle.wc_hdata.specs.Shown.{IsShown};
ghost use Rattle.wc_hdata.specs.Steps.{all_buffers};
ghost use Rattle.wc_hdata.specs.Values.{first_of, last_of, line_number};

use crate::element::Element;
use crate::path::{Path, Step};
use crate::place::{HeldLine, LineList};
use crate::shown::{Shown, find_shown, shown_lists};
use crate::variable::Variable;
use std::alloc::Global;
use std::marker::Model;
use wc_buffers::Buffers;
use wc_lines::{Lines, PackedLine};
use wc_text::{Handle, NoMemory};
use wc_world::World;

/// The lines of a group of two or more buffers, by their handles.
#[derive(Drop)]
pub(crate) struct MixedList<'a> {
    first: Handle,
    lines: Vec<HeldLine<'a>>,
}

/// The lists of lines of a world. Contracts see the world, and the first buffers of the groups
/// whose mixed lists are made.
#[derive(Drop)]
pub(crate) struct Lists<'a> {
    world: &'a World,
    /// All buffers in their order.
    buffers: Vec<Handle>,
    /// Mixed lists in the order of their first buffers' handles.
    mixed: Vec<MixedList<'a>>,
    /// What the buffers show, where the path goes to lines that are shown.
    shown: Vec<Shown>,
}

impl<'a> Model for Lists<'a> {
    ghost use Rattle.std.specs.Coded.{codes};
    ghost use Rattle.std.specs.FinMap as map;
    ghost use Rattle.wc_hdata.specs.Kept.{Listed};

    ghost Value = { Listed };

    ghost coded = { Prim.hlevel (codes, map.code) };

    ghost use Rattle.wc_hdata.specs.Listed.{listed_of, AreLists};

    ghost view = { listed_of };

    ghost invariant = { AreLists };
}

impl<'a> Lists<'a> {
    /// The lists of which a walk along a path has to know.
    ///
    /// A mixed list is made only where the path goes to lines that are shown, or begins at a list.
    pub(crate) fn new(alloc: Global, world: &'a World, path: &Path) -> Result<Lists<'a>, NoMemory>
        ensures world { IfOk result (λ lists. lists.world ≡ world.now) }
        ensures made { IfOk result (λ lists. IsFor lists path.now) }
    {
        let buffers = all_buffers(alloc, world.buffers())?;
        let mixed = mixed_for(alloc, world, path)?;
        let shown = shown_for(alloc, world.buffers(), buffers.as_slice(), path)?;
        Ok(Lists {
            world,
            buffers,
            mixed,
            shown,
        })
    }

    pub(crate) fn world(&self) -> &'a World
        ensures { result.now ≡ self.now.world }
    {
        self.world
    }

    /// All buffers in their order.
    pub(crate) fn buffers(&self) -> &[Handle]
        ensures { result.now ≡ all_buffers self.now.world.groups }
    {
        self.buffers.as_slice()
    }

    /// The lines of a mixed list.
    pub(crate) fn mixed(&self, first: Handle) -> &[HeldLine<'a>]
        requires { is_made self.now.firsts first.0 ≡ true }
        ensures lines { held_lines result.now ≡ lines_in self.now.world (MixedLines first) }
        ensures held { AllByRecursion (IsHeld self.now.world) (held_lines result.now) }
    {
        let mixed = self.mixed.as_slice();
        match mixed.binary_search_by_key(&first.0, |list| list.first.0) {
            Ok(at) => mixed[at].lines.as_slice(),
            Err(_) => unreachable!(),
        }
    }

    /// The list of lines that a buffer shows.
    pub(crate) fn shown(&self, buffer: Handle) -> LineList
        ensures { result ≡ shown_list self.now.world.groups buffer }
    {
        find_shown(self.shown.as_slice(), self.world.buffers(), buffer)
    }
}

// ---- how they are made

/// The buffers in their order, group by group.
pub(crate) fn all_buffers(alloc: Global, buffers: &Buffers) -> Result<Vec<Handle>, NoMemory>
    ensures { IfOk result (λ all. all.items ≡ all_buffers buffers.now) }
{
    let mut all = Vec::new(alloc);
    for group in buffers.groups() {
        all.extend_from_slice(group)?;
    }
    Ok(all)
}

/// Whether a path goes to lines that are shown, or begins at a list.
fn goes_to_lines(path: &Path) -> bool
    ensures { result ≡ goes_to_lines path.now }
{
    matches!(path.start.element(), Element::Lines) || has_lines(path.steps.as_slice())
}

fn has_lines(steps: &[Step]) -> bool
    ensures { result ≡ list_any (λ (step : StepValue). is_shown step.variable) steps.now }
{
    steps
        .iter()
        .any(|step| matches!(step.variable, Variable::Lines))
}

/// The mixed lists of which a walk along a path has to know.
fn mixed_for<'a>(
    alloc: Global,
    world: &'a World,
    path: &Path,
) -> Result<Vec<MixedList<'a>>, NoMemory>
    ensures lists { IfOk result (λ mixed. AllByRecursion (IsMixedList world.now) mixed.items) }
    ensures made { IfOk result (λ mixed. IsFor
        (record { world = world.now; firsts = firsts_of mixed.items }) path.now) }
    ensures sorted { IfOk result (λ mixed. IsNonDecreasingBy first_handle mixed.items) }
{
    let mut mixed = Vec::new(alloc);
    if !goes_to_lines(path) {
        return Ok(mixed);
    }
    push_mixed(alloc, &mut mixed, world)?;
    mixed.sort_by_key(|list| list.first.0)?;
    Ok(mixed)
}

/// What these buffers show, where the path goes to lines that are shown.
fn shown_for(
    alloc: Global,
    buffers: &Buffers,
    all: &[Handle],
    path: &Path,
) -> Result<Vec<Shown>, NoMemory>
    ensures { IfOk result (λ shown. AllByRecursion (IsShown buffers.now) shown.items) }
{
    if has_lines(path.steps.as_slice()) {
        shown_lists(alloc, buffers, all)
    } else {
        Ok(Vec::new(alloc))
    }
}

/// Makes the mixed list of each group that has two buffers or more.
fn push_mixed<'a>(
    alloc: Global,
    mixed: &mut Vec<MixedList<'a>>,
    world: &'a World,
) -> Result<(), NoMemory>
    requires { mixed.old.items ≡ [] }
    ensures lists { OnOk result (AllByRecursion (IsMixedList world.now) mixed.new.items) }
    ensures made { OnOk result (AllByRecursion (IsMade (firsts_of mixed.new.items)) (handles world.now.groups)) }
{
    for group in world.buffers().groups() {
        push_group(alloc, mixed, world, group)?;
    }
    Ok(())
}

/// Puts the mixed list of a group after others, where the group has two buffers or more.
fn push_group<'a>(
    alloc: Global,
    mixed: &mut Vec<MixedList<'a>>,
    world: &'a World,
    group: &[Handle],
) -> Result<(), NoMemory>
    ensures lists { OnOk result (AllByRecursion (IsMixedList world.now) mixed.old.items →
        AllByRecursion (IsMixedList world.now) mixed.new.items) }
    ensures made { OnOk result (AddsMade (firsts_of mixed.old.items) (firsts_of mixed.new.items)
        group.now) }
{
    let [first, _, ..] = group else {
        return Ok(());
    };
    let lines = mixed_lines(alloc, world, *first)?;
    match mixed.push(MixedList {
        first: *first,
        lines,
    }) {
        Ok(()) => Ok(()),
        Err(_) => Err(NoMemory),
    }
}

/// The lines of the group of a buffer, in the order of their handles.
fn mixed_lines(alloc: Global, world: &World, first: Handle) -> Result<Vec<HeldLine<'_>>, NoMemory>
    ensures lines { IfOk result (λ lines. held_lines lines.items
        ≡ lines_in world.now (MixedLines first)) }
    ensures held { IfOk result (λ lines. AllByRecursion (IsHeld world.now)
        (held_lines lines.items)) }
{
    let mut lines = Vec::new(alloc);
    push_all(&mut lines, world, group_of(world.buffers(), first))?;
    lines.sort_by_key(|held| held.line.handle().0)?;
    Ok(lines)
}

/// Puts the lines of several buffers after others.
fn push_all<'a>(
    lines: &mut Vec<HeldLine<'a>>,
    world: &'a World,
    buffers: &[Handle],
) -> Result<(), NoMemory>
    requires there { AllByRecursion (IsThere world.now.groups) buffers.now }
    requires old { AllByRecursion (IsHeld world.now) (held_lines lines.old.items) }
    ensures lines { OnOk result (held_lines lines.new.items ≡ held_lines lines.old.items
        ++ lines_of_all world.now buffers.now) }
    ensures held { OnOk result (AllByRecursion (IsHeld world.now) (held_lines lines.new.items)) }
{
    for buffer in buffers {
        push_lines(lines, world, *buffer)?;
    }
    Ok(())
}

/// Puts the lines of a buffer after others.
fn push_lines<'a>(
    lines: &mut Vec<HeldLine<'a>>,
    world: &'a World,
    buffer: Handle,
) -> Result<(), NoMemory>
    requires there { is_there buffer world.now.groups ≡ true }
    requires old { AllByRecursion (IsHeld world.now) (held_lines lines.old.items) }
    ensures lines { OnOk result (held_lines lines.new.items ≡ held_lines lines.old.items
        ++ own_lines world.now buffer) }
    ensures held { OnOk result (AllByRecursion (IsHeld world.now) (held_lines lines.new.items)) }
{
    match own_lines(world, buffer) {
        Some(own) => push_each(lines, buffer, own),
        None => Ok(()),
    }
}

/// Puts these lines of a buffer after others.
fn push_each<'a>(
    lines: &mut Vec<HeldLine<'a>>,
    buffer: Handle,
    own: &'a Lines,
) -> Result<(), NoMemory>
    ensures { OnOk result (held_lines lines.new.items ≡ held_lines lines.old.items
        ++ map (held_by buffer) own.now.lines) }
{
    lines.reserve(own.len() as usize)?;
    for line in own.iter() {
        match lines.push(HeldLine { buffer, line }) {
            Ok(()) => {}
            Err(_) => return Err(NoMemory),
        }
    }
    Ok(())
}

// ---- lists that need no making

/// The own lines of a buffer. None where it has none.
pub(crate) fn own_lines(world: &World, buffer: Handle) -> Option<&Lines>
    ensures lines { MatchOption result (own_lines world.now buffer ≡ [])
        (λ lines. own_lines world.now buffer ≡ map (held_by buffer) lines.now.lines) }
    ensures held { is_there buffer world.now.groups ≡ true →
        AllByRecursion (IsHeld world.now) (own_lines world.now buffer) }
{
    let lines = world.lines(buffer)?;
    let _ = lines.iter();
    Some(lines)
}

/// The handles of the buffers of a buffer's group. None where the buffer is not there.
pub(crate) fn group_of(buffers: &Buffers, buffer: Handle) -> &[Handle]
    ensures { result.now ≡ group_of buffers.now buffer.0 }
{
    for group in buffers.groups() {
        if is_in(group, buffer) {
            return group;
        }
    }
    &[]
}

fn is_in(group: &[Handle], buffer: Handle) -> bool
    ensures { result ≡ is_in buffer.0 group.now }
{
    group.iter().any(|other| other.0 == buffer.0)
}

// ---- what is told of a list

/// The numbers of the first and the last line of a list, 0 where it has no lines, and how many
/// lines it has.
#[derive(Clone, Copy)]
pub(crate) struct ListNumbers {
    pub(crate) first: u64,
    pub(crate) last: u64,
    pub(crate) count: u64,
}

/// The numbers of a list, found without going through it.
pub(crate) fn numbers_of(lists: &Lists<'_>, list: LineList) -> ListNumbers
    requires { IsKeptList lists.now list }
    ensures first { result.first ≡ line_number (first_of (lines_in lists.now.world list)) }
    ensures last { result.last ≡ line_number (last_of (lines_in lists.now.world list)) }
    ensures count { result.count ≡ length (lines_in lists.now.world list) }
{
    match list {
        LineList::Own(buffer) => own_numbers(lists.world(), buffer),
        LineList::Mixed(first) => held_numbers(lists.mixed(first)),
    }
}

fn own_numbers(world: &World, buffer: Handle) -> ListNumbers
    ensures first { result.first ≡ line_number (first_of (own_lines world.now buffer)) }
    ensures last { result.last ≡ line_number (last_of (own_lines world.now buffer)) }
    ensures count { result.count ≡ length (own_lines world.now buffer) }
{
    match own_lines(world, buffer) {
        Some(lines) => ListNumbers {
            first: number_of(lines.at(0)),
            last: number_of(lines.newest()),
            count: u64::from(lines.len()),
        },
        None => ListNumbers {
            first: 0,
            last: 0,
            count: 0,
        },
    }
}

fn number_of(line: Option<&PackedLine>) -> u64
    ensures { result ≡ number_of (option_copied line.entry) }
{
    match line {
        Some(line) => line.handle().0,
        None => 0,
    }
}

fn held_numbers(lines: &[HeldLine<'_>]) -> ListNumbers
    ensures first { result.first ≡ line_number (first_of (held_lines lines.now)) }
    ensures last { result.last ≡ line_number (last_of (held_lines lines.now)) }
    ensures count { result.count ≡ length (held_lines lines.now) }
{
    ListNumbers {
        first: first_number(lines),
        last: last_number(lines),
        count: lines.len() as u64,
    }
}

fn first_number(lines: &[HeldLine<'_>]) -> u64
    ensures { result ≡ line_number (first_of (held_lines lines.now)) }
{
    match lines.first() {
        Some(held) => held.line.handle().0,
        None => 0,
    }
}

#[tactic(auto, using(crate::proofs::Lasts::last_is, crate::proofs::Lasts::no_last))]
fn last_number(lines: &[HeldLine<'_>]) -> u64
    ensures { result ≡ line_number (last_of (held_lines lines.now)) }
{
    match lines.split_last() {
        Some((held, _)) => held.line.handle().0,
        None => 0,
    }
}
