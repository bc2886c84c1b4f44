ghost use Rattle.std.specs.Prelude.{◌≡◌, ◌++◌, ◌<◌, length, IfOk, IfSome, OnOk, option_to_list};
ghost use Rattle.std.specs.Option.{option_copied};
ghost use Rattle.wc_relaycmd.specs.Lists.{pieces_of, items_of, items_after, pair_in, pairs_of};
ghost use Rattle.wc_relaycmd.specs.Lists.{last_value};
ghost use Rattle.wc_relaycmd.specs.Fronts.{IsListFront};

use std::alloc::Global;
use wc_text::{Items, NoMemory, Pair, Text, past_blanks, split_once};

/// The pieces of a text between commas.
pub fn pieces(alloc: Global, text: &[u8]) -> Result<Items<Text>, NoMemory>
    ensures { IfOk result (λ pieces. pieces ≡ pieces_of text.now) }
{
    let mut pieces = Items::new(alloc);
    let mut rest = text;
    loop {
        let (piece, text_after) = split_once(rest, b',');
        pieces.push(Text::from_slice(alloc, piece)?)?;
        let Some(more) = text_after else {
            return Ok(pieces);
        };
        rest = more;
    }
}

/// What is at the front of a list.
enum Front<'a> {
    /// Nothing, or a comma that ends the item, and what comes after it.
    Ends(Option<&'a [u8]>),
    /// A byte of the item, and what comes after it.
    Goes(u8, &'a [u8]),
}

fn read_front(list: &[u8]) -> Front<'_>
    ensures { IsListFront list.now result }
{
    match list {
        [] => Front::Ends(None),
        [b'\\', b',', more @ ..] => Front::Goes(b',', more),
        [b',', more @ ..] => Front::Ends(Some(more)),
        [byte, more @ ..] => Front::Goes(*byte, more),
    }
}

/// The first item of a list, in which `\,` is a comma, and what comes after the comma that ends it,
/// if one does.
fn take_item(alloc: Global, list: &[u8]) -> Result<(Text, Option<&[u8]>), NoMemory>
    ensures item { IfOk result (λ taken. items_of list.now ≡ items_after taken.0
        (option_copied taken.1)) }
    ensures shorter { IfOk result
        (λ taken. IfSome taken.1 (λ rest. length rest.now < length list.now)) }
{
    let mut item = Text::new(alloc);
    let mut rest = list;
    loop {
        match read_front(rest) {
            Front::Ends(text_after) => return Ok((item, text_after)),
            Front::Goes(byte, text_after) => {
                item.append(&[byte])?;
                rest = text_after;
            }
        }
    }
}

/// The pair that an item writes. An item without a `=` writes none.
fn pair(alloc: Global, item: &[u8]) -> Result<Option<Pair>, NoMemory>
    ensures { IfOk result (λ pair. pair ≡ pair_in item.now) }
{
    let (name, text_after) = split_once(item, b'=');
    let Some(value) = text_after else {
        return Ok(None);
    };
    let name = Text::from_slice(alloc, past_blanks(name))?;
    let value = Text::from_slice(alloc, value)?;
    Ok(Some(Pair { name, value }))
}

fn push_pair(pairs: &mut Items<Pair>, pair: Option<Pair>) -> Result<(), NoMemory>
    ensures { OnOk result (pairs.new ≡ pairs.old ++ option_to_list pair) }
{
    match pair {
        Some(pair) => pairs.push(pair),
        None => Ok(()),
    }
}

/// The pairs of a list of `name=value`, which commas join, all of them in order.
pub fn pairs(alloc: Global, list: &[u8]) -> Result<Items<Pair>, NoMemory>
    ensures { IfOk result (λ pairs. pairs ≡ pairs_of list.now) }
{
    let mut pairs = Items::new(alloc);
    let mut rest = list;
    loop {
        let (item, text_after) = take_item(alloc, rest)?;
        let pair = pair(alloc, item.as_slice())?;
        push_pair(&mut pairs, pair)?;
        let Some(more) = text_after else {
            return Ok(pairs);
        };
        rest = more;
    }
}

/// The value of the last pair of that name, since of a repeated name the last counts. It takes no
/// memory.
#[tactic(auto, unfolding(crate::specs::Lists::last_value))]
pub fn last_value<'a>(pairs: &'a Items<Pair>, name: &[u8]) -> Option<&'a Text>
    ensures { option_copied result ≡ last_value name.now pairs.now }
{
    let pairs = pairs.as_slice();
    let pair = pairs
        .iter()
        .rev()
        .find(|pair| pair.name.as_slice() == name)?;
    Some(&pair.value)
}
