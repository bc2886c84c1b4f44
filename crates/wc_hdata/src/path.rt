ghost use Rattle.std.specs.Prelude.{◌≡◌, ◌++◌, ◌∷◌, IfOk};
ghost use Rattle.wc_hdata.specs.Paths.{element_of, element_at, h_path_of};

use crate::count::Count;
use crate::element::Element;
use crate::variable::Variable;
use std::alloc::Global;
use wc_text::{Items, NoMemory, Text};

/// Where a path begins.
#[derive(Clone, Copy, Debug, PartialEq, Eq)]
pub enum Start {
    /// `buffer:gui_buffers`, the first buffer.
    FirstBuffer,
    /// `buffer:last_gui_buffer`, the last buffer.
    LastBuffer,
    /// The name of an element, and its pointer in hex.
    Pointer { element: Element, pointer: u64 },
}

impl Start {
    /// The element that is at the start.
    pub fn element(self) -> Element
        ensures { result ≡ element_of self }
    {
        match self {
            Start::FirstBuffer | Start::LastBuffer => Element::Buffer,
            Start::Pointer { element, .. } => element,
        }
    }
}

/// A variable, and how many of the elements to which it leads a path goes through.
#[derive(Clone, Copy, Debug, PartialEq, Eq)]
pub struct Step {
    pub variable: Variable,
    pub count: Count,
}

/// A path through the data of WeeChat, as the relay's command `hdata` names one.
#[derive(Drop)]
pub struct Path {
    pub start: Start,
    pub count: Count,
    pub steps: Items<Step>,
}

impl Path {
    /// The element to which the path leads.
    pub fn element(&self) -> Element
        ensures { result ≡ element_at self.now }
    {
        match self.steps.as_slice().last() {
            Some(step) => step.variable.target(),
            None => self.start.element(),
        }
    }
}

/// The h-path of a message on this path: the names of its elements, which slashes join.
pub fn h_path(alloc: Global, path: &Path) -> Result<Text, NoMemory>
    ensures { IfOk result (λ text. text ≡ h_path_of path.now) }
{
    let mut text = Text::from_slice(alloc, path.start.element().name())?;
    for step in path.steps.as_slice() {
        text.append(b"/")?;
        text.append(step.variable.target().name())?;
    }
    Ok(text)
}
