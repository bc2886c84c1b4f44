ghost use Rattle.std.specs.Prelude.{◌≡◌, Option, IfSome};
ghost use Rattle.wc_hdata.specs.Names.{element_name};
ghost use Rattle.wc_hdata.specs.Paths.{leads, target};
ghost use Rattle.wc_hdata.specs.Answers.{element_named};

use crate::variable::Variable;
use wc_keys::{BUFFER_PATH, LINE_PATH};

/// What a data path leads to: an hdata of WeeChat's plugin API.
#[derive(Clone, Copy, Debug, PartialEq, Eq)]
pub enum Element {
    /// `buffer`, a buffer.
    Buffer,
    /// `lines`, the list of a buffer's lines.
    Lines,
    /// `line`, a place in such a list.
    Line,
    /// `line_data`, what a line says.
    LineData,
}

impl Element {
    const ALL: [Element; 4] = [
        Element::Buffer,
        Element::Lines,
        Element::Line,
        Element::LineData,
    ];

    /// How the element is written in a path.
    pub fn name(self) -> &'static [u8]
        ensures { result.now ≡ element_name self }
    {
        match self {
            Element::Buffer => BUFFER_PATH,
            Element::Lines => b"lines",
            Element::Line => b"line",
            Element::LineData => LINE_PATH,
        }
    }

    /// The element of that name, with case kept.
    pub(crate) fn named(text: &[u8]) -> Option<Element>
        ensures { result ≡ element_named text.now }
    {
        Element::ALL
            .iter()
            .copied()
            .find(|element| text == element.name())
    }

    /// The element to which a variable leads from this one. None where it is no variable of this
    /// element.
    pub fn leads(self, variable: Variable) -> Option<Element>
        ensures leads { result ≡ leads self variable }
        ensures target { IfSome result (λ next. next ≡ target variable) }
    {
        match (self, variable) {
            (Element::Buffer, Variable::OwnLines | Variable::Lines) => Some(Element::Lines),
            (Element::Lines, Variable::FirstLine | Variable::LastLine) => Some(Element::Line),
            (Element::Line, Variable::Data) => Some(Element::LineData),
            (Element::LineData, Variable::Buffer) => Some(Element::Buffer),
            _ => None,
        }
    }
}
