ghost use Rattle.std.specs.Prelude.{◌≡◌, IfOk, IfSome, IfNone};
ghost use Rattle.wc_hdata.specs.declared.path.Path.{Path};
ghost use Rattle.wc_hdata.specs.Paths.{SpellsPath};
ghost use Rattle.wc_hdata.specs.Answers.{path_of, head_of, place_of, step_of, steps_after};
ghost use Rattle.std.specs.Option.{option_copied};

use crate::count::{Count, read_count};
use crate::element::Element;
use crate::path::{Path, Start, Step};
use crate::pointer::read_pointer;
use crate::variable::Variable;
use std::alloc::Global;
use wc_text::{Items, NoMemory, split_once};

/// The path that a text writes. None exactly where the text is outside the grammar of data paths.
///
/// It takes time in proportion to the text, and no memory but that of the steps.
pub fn read_path(alloc: Global, text: &[u8]) -> Result<Option<Path>, NoMemory>
    ensures spelled { IfOk result (λ p. IfSome p (λ path. SpellsPath text.now path)) }
    ensures none { IfOk result (λ p. IfNone p ((path : Path) → SpellsPath text.now path → ⊥)) }
    ensures computed { IfOk result (λ p. p ≡ path_of text.now) }
{
    let (head, following) = split_once(text, b'/');
    let Some((start, count)) = read_head(head) else {
        return Ok(None);
    };
    let Some(steps) = read_steps(alloc, start.element(), following)? else {
        return Ok(None);
    };
    Ok(Some(Path {
        start,
        count,
        steps,
    }))
}

/// What is before the first slash: the name of an element, where to begin, and how many.
#[tactic(auto, unfolding(crate::specs::Answers::head_of))]
fn read_head(head: &[u8]) -> Option<(Start, Count)>
    ensures { result ≡ head_of head.now }
{
    let (named, count) = split_once(head, b'(');
    let (name, place) = split_once(named, b':');
    let start = read_place(Element::named(name)?, place?)?;
    let count = read_count(count)?;
    Some((start, count))
}

/// Where to begin: the name of a list, which only buffers have, or a pointer.
#[tactic(auto, unfolding(crate::specs::Answers::place_of))]
fn read_place(element: Element, place: &[u8]) -> Option<Start>
    ensures { result ≡ place_of element place.now }
{
    if element == Element::Buffer && place == b"gui_buffers".as_slice() {
        return Some(Start::FirstBuffer);
    }
    if element == Element::Buffer && place == b"last_gui_buffer".as_slice() {
        return Some(Start::LastBuffer);
    }
    let pointer = read_pointer(place)?;
    Some(Start::Pointer { element, pointer })
}

/// The steps from this element on, which slashes part, given what comes after the first slash,
/// where there is one. None where a piece is no step of the element before it.
fn read_steps(
    alloc: Global,
    element: Element,
    text: Option<&[u8]>,
) -> Result<Option<Items<Step>>, NoMemory>
    ensures { IfOk result (λ steps. steps ≡ steps_after element (option_copied text.entry)) }
{
    let mut steps = Items::new(alloc);
    let mut here = element;
    let mut rest = text;
    while let Some(pieces) = rest {
        let (piece, following) = split_once(pieces, b'/');
        let Some(step) = read_step(piece) else {
            return Ok(None);
        };
        let Some(next) = here.leads(step.variable) else {
            return Ok(None);
        };
        steps.push(step)?;
        here = next;
        rest = following;
    }
    Ok(Some(steps))
}

/// The step that is between two slashes: the name of a variable, and how many.
#[tactic(auto, unfolding(crate::specs::Answers::step_of))]
fn read_step(piece: &[u8]) -> Option<Step>
    ensures { result ≡ step_of piece.now }
{
    let (name, count) = split_once(piece, b'(');
    let variable = Variable::named(name)?;
    let count = read_count(count)?;
    Some(Step { variable, count })
}
