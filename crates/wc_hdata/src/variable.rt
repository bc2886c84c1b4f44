ghost use Rattle.std.specs.Prelude.{◌≡◌, Option};
ghost use Rattle.wc_hdata.specs.Names.{variable_name};
ghost use Rattle.wc_hdata.specs.Paths.{target};
ghost use Rattle.wc_hdata.specs.Answers.{variable_named};

use crate::element::Element;
use crate::key::Key;

/// A pointer that an element holds, by which a path goes on.
#[derive(Clone, Copy, Debug, PartialEq, Eq)]
pub enum Variable {
    /// `own_lines` of a buffer, its own lines.
    OwnLines,
    /// `lines` of a buffer, the lines that are shown in it.
    Lines,
    /// `first_line` of lines.
    FirstLine,
    /// `last_line` of lines.
    LastLine,
    /// `data` of a line.
    Data,
    /// `buffer` of a line's data.
    Buffer,
}

impl Variable {
    const ALL: [Variable; 6] = [
        Variable::OwnLines,
        Variable::Lines,
        Variable::FirstLine,
        Variable::LastLine,
        Variable::Data,
        Variable::Buffer,
    ];

    /// How the variable is written in a path.
    pub fn name(self) -> &'static [u8]
        ensures { result.now ≡ variable_name self }
    {
        match self {
            Variable::OwnLines => b"own_lines",
            Variable::Lines => b"lines",
            Variable::FirstLine => Key::FirstLine.name(),
            Variable::LastLine => Key::LastLine.name(),
            Variable::Data => Key::Data.name(),
            Variable::Buffer => Key::Buffer.name(),
        }
    }

    /// The variable of that name, with case kept.
    pub(crate) fn named(text: &[u8]) -> Option<Variable>
        ensures { result ≡ variable_named text.now }
    {
        Variable::ALL
            .iter()
            .copied()
            .find(|variable| text == variable.name())
    }

    /// The element to which the variable leads from the one that holds it.
    pub fn target(self) -> Element
        ensures { result ≡ target self }
    {
        match self {
            Variable::OwnLines | Variable::Lines => Element::Lines,
            Variable::FirstLine | Variable::LastLine => Element::Line,
            Variable::Data => Element::LineData,
            Variable::Buffer => Element::Buffer,
        }
    }
}
