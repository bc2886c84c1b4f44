ghost use Rattle.std.specs.Prelude.{◌≡◌, ◌++◌, IfOk, codes};
ghost use Rattle.wc_core.specs.Resolved.{buffer_text, filter_text, option_text, refusal_text};
ghost use Rattle.wc_core.specs.ResolvedSeen.{name_in_refusal};

use std::alloc::Global;
use wc_buffers::BufferRefused;
use wc_filters::FilterRefused;
use wc_model::ChangeRefused;
use wc_options::SetRefused;
use wc_text::{NoMemory, Text};

/// A text that is two.
pub(crate) fn joined_texts(alloc: Global, front: &[u8], rest: &[u8]) -> Result<Text, NoMemory>
    ensures { IfOk result (λ text. text ≡ front.now ++ rest.now) }
{
    let mut text = Text::from_slice(alloc, front)?;
    text.append(rest)?;
    Ok(text)
}

/// Why a call of the buffers was refused, without the name that is meant.
fn reason(refused: &BufferRefused) -> &'static [u8]
    ensures { result.now ++ name_in_refusal refused.now ≡ buffer_text refused.now }
{
    match refused {
        BufferRefused::NoBuffer { handle: _ } => b"no such buffer",
        BufferRefused::IsCore => b"core buffer",
        BufferRefused::BadName { length: _ } => b"bad name",
        BufferRefused::FixedVar { name: _ } => b"fixed variable",
        BufferRefused::NameTaken { name: _ } => b"name taken: ",
        BufferRefused::NoVar { name: _ } => b"no such variable: ",
        BufferRefused::SameGroup { number: _ } => b"same group",
        BufferRefused::NotMerged => b"not merged",
        BufferRefused::BadNumber { number: _ } => b"bad number",
        BufferRefused::TooMany { limit: _ } => b"too many",
        BufferRefused::NoMemory => b"",
    }
}

/// The name that a refusal tells.
fn name_meant(refused: &BufferRefused) -> &[u8]
    ensures { result.now ≡ name_in_refusal refused.now }
{
    match refused {
        BufferRefused::NameTaken { name } | BufferRefused::NoVar { name } => name.as_slice(),
        _ => b"",
    }
}

/// The text of a refusal of the buffers.
fn buffer_text(alloc: Global, refused: &BufferRefused) -> Result<Text, NoMemory>
    ensures { IfOk result (λ text. text ≡ codes "buffer: " ++ buffer_text refused.now) }
{
    let mut text = joined_texts(alloc, b"buffer: ", reason(refused))?;
    text.append(name_meant(refused))?;
    Ok(text)
}

/// The text that tells why an option with this name does not get a value.
pub(crate) fn option_text(
    alloc: Global,
    name: &[u8],
    refused: &SetRefused,
) -> Result<Text, NoMemory>
    ensures { IfOk result (λ text. text ≡ option_text name.now refused.now) }
{
    match refused {
        SetRefused::UnknownOption => joined_texts(alloc, b"option: unknown: ", name),
        SetRefused::BadValue { range } => {
            joined_texts(alloc, b"option: bad value, range ", range.as_slice())
        }
        SetRefused::TooManyServers { limit: _ } => {
            Text::from_slice(alloc, b"option: too many servers")
        }
        SetRefused::NoMemory => Ok(Text::new(alloc)),
    }
}

/// The text that tells why a filter of this name is not added.
pub(crate) fn filter_text(
    alloc: Global,
    name: &[u8],
    refused: &FilterRefused,
) -> Result<Text, NoMemory>
    ensures { IfOk result (λ text. text ≡ filter_text name.now refused.now) }
{
    match refused {
        FilterRefused::NameTaken => joined_texts(alloc, b"filter: name taken: ", name),
        FilterRefused::BadPattern => Text::from_slice(alloc, b"filter: bad pattern"),
        FilterRefused::TooMany => Text::from_slice(alloc, b"filter: too many"),
        FilterRefused::NoMemory => Ok(Text::new(alloc)),
    }
}

/// The text that tells why a change was refused.
pub(crate) fn refusal_text(alloc: Global, refused: &ChangeRefused) -> Result<Text, NoMemory>
    ensures { IfOk result (λ text. text ≡ refusal_text refused.now) }
{
    match refused {
        ChangeRefused::Buffer(reason) => buffer_text(alloc, reason),
        ChangeRefused::Spent => Text::from_slice(alloc, b"no handle left"),
        ChangeRefused::Nick(_)
        | ChangeRefused::NoLine { handle: _ }
        | ChangeRefused::TooManyRows { limit: _ }
        | ChangeRefused::NoMemory => Ok(Text::new(alloc)),
    }
}
