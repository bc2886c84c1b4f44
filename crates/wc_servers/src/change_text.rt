ghost use Rattle.std.specs.Prelude.{◌≡◌};
ghost use Rattle.std.specs.List.{list_all};
ghost use Rattle.std.specs.Str.{is_utf8};
ghost use Rattle.wc_servers.specs.Texts.{is_pair_text, is_spec_text, is_line_text, is_item_text};
ghost use Rattle.wc_servers.specs.Texts.{is_change_text};

use wc_buffers::BufferSpec;
use wc_model::{LineSpec, What};
use wc_nicklist::Item;
use wc_text::{Pair, Text};

/// Whether the bytes are UTF-8.
pub fn is_utf8(bytes: &[u8]) -> bool
    ensures { result ≡ is_utf8 bytes.now }
{
    match std::str::from_utf8(bytes) {
        Ok(_) => true,
        Err(_) => false,
    }
}

fn is_text(text: &Text) -> bool
    ensures { result ≡ is_utf8 text.now }
{
    is_utf8(text.as_slice())
}

fn are_texts(texts: &[Text]) -> bool
    ensures { result ≡ list_all is_utf8 texts.now }
{
    texts.iter().all(|text| is_text(text))
}

fn is_pair_text(pair: &Pair) -> bool
    ensures { result ≡ is_pair_text pair.now }
{
    is_text(&pair.name) && is_text(&pair.value)
}

fn are_pair_texts(pairs: &[Pair]) -> bool
    ensures { result ≡ list_all is_pair_text pairs.now }
{
    pairs.iter().all(|pair| is_pair_text(pair))
}

fn is_spec_text(spec: &BufferSpec) -> bool
    ensures { result ≡ is_spec_text spec.now }
{
    is_text(&spec.full_name)
        && is_text(&spec.short_name)
        && is_text(&spec.title)
        && are_pair_texts(spec.vars.as_slice())
}

fn is_line_text(line: &LineSpec) -> bool
    ensures { result ≡ is_line_text line.now }
{
    are_texts(line.tags.as_slice()) && is_text(&line.prefix) && is_text(&line.message)
}

fn is_item_text(item: &Item) -> bool
    ensures { result ≡ is_item_text item.now }
{
    is_text(&item.name)
        && is_text(&item.color)
        && is_text(&item.prefix)
        && is_text(&item.prefix_color)
}

/// Whether the texts of a change are UTF-8, and a limit of lines is one that there may be.
#[tactic(auto, unfolding(crate::specs::Texts::is_change_text))]
pub fn is_change_text(what: &What) -> bool
    ensures { result ≡ is_change_text what.now }
{
    match what {
        What::Add(spec) => is_spec_text(spec),
        What::Rename { name, flips: _ } => is_text(name),
        What::ShortName(name) | What::RemoveVar(name) => is_text(name),
        What::Title(title) => is_text(title),
        What::SetVar(var) => is_pair_text(var),
        What::Print(line) => is_line_text(line),
        What::AddGroup { parent, item } => is_text(parent) && is_item_text(item),
        What::AddNick { group, item } => is_text(group) && is_item_text(item),
        What::ChangeGroup(item) | What::ChangeNick(item) => is_item_text(item),
        What::Limit(limit) => *limit >= 1 && *limit <= 4096,
        What::Close
        | What::MoveTo(_)
        | What::MergeInto(_)
        | What::Unmerge
        | What::Hide
        | What::Unhide
        | What::Clear
        | What::Flips(_)
        | What::RemoveGroup(_)
        | What::RemoveNick(_) => true,
    }
}
