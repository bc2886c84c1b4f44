ghost use Rattle.std.specs.Prelude.{◌≡◌, ◌++◌, IfOk, OnOk, Option};
ghost use Rattle.wc_hdata.specs.Keys.{keys_of, keys_asked_in, key_named, has_key, with_key, without_own};
ghost use Rattle.wc_keys.specs.Keys.{keys_text, key_text};

use crate::element::Element;
use crate::key::Key;
use std::alloc::Global;
use wc_keys::KeyList;
use wc_text::{Items, NoMemory, Text, split_once};

/// The keys of an element that a request asks for, as `read_keys_in` reads them from all keys of
/// the element.
pub fn read_keys(alloc: Global, element: Element, text: &[u8]) -> Result<Items<Key>, NoMemory>
    ensures { IfOk result (λ keys. keys ≡ keys_of element text.now) }
{
    read_keys_in(alloc, element.list(), text)
}

/// The keys of a list that a request asks for: those that the text names between commas, in its
/// order, or all but our own where it is empty. A repeated key is where it came first, and a name
/// that is no key of the list is passed over.
pub fn read_keys_in(alloc: Global, list: KeyList, text: &[u8]) -> Result<Items<Key>, NoMemory>
    ensures { IfOk result (λ keys. keys ≡ keys_asked_in list text.now) }
{
    if text.is_empty() {
        return without_own(alloc, list.keys());
    }
    let mut keys = Items::new(alloc);
    let mut rest = Some(text);
    while let Some(names) = rest {
        let (name, following) = split_once(names, b',');
        push_key(&mut keys, key_named(list, name))?;
        rest = following;
    }
    Ok(keys)
}

/// The key of that name among those of a list, with case kept.
fn key_named(list: KeyList, text: &[u8]) -> Option<Key>
    ensures { result ≡ key_named list text.now }
{
    list.keys().iter().copied().find(|key| text == key.name())
}

/// Keys without those that are our own.
fn without_own(alloc: Global, keys: &[Key]) -> Result<Items<Key>, NoMemory>
    ensures { IfOk result (λ usual. usual ≡ without_own keys.now) }
{
    let mut usual = Items::new(alloc);
    for key in keys {
        if !key.is_own() {
            usual.push(*key)?;
        }
    }
    Ok(usual)
}

/// Puts a key after the others, unless it is among them.
fn push_key(keys: &mut Items<Key>, key: Option<Key>) -> Result<(), NoMemory>
    ensures { OnOk result (keys.new ≡ with_key keys.old key) }
{
    let Some(key) = key else {
        return Ok(());
    };
    if has_key(keys.as_slice(), key) {
        return Ok(());
    }
    keys.push(key)
}

fn has_key(keys: &[Key], key: Key) -> bool
    ensures { result ≡ has_key keys.now key }
{
    keys.iter().any(|other| other.is(key))
}

/// The keys as a message names them: each name, a colon and the letters of its type, which commas
/// join.
#[tactic(auto, unfolding(wc_keys::specs::Keys::keys_text))]
pub fn keys_text(alloc: Global, keys: &[Key]) -> Result<Text, NoMemory>
    ensures { IfOk result (λ text. text ≡ keys_text keys.now) }
{
    let mut text = Text::new(alloc);
    let Some((first, others)) = keys.split_first() else {
        return Ok(text);
    };
    append_key(&mut text, *first)?;
    for key in others {
        text.append(b",")?;
        append_key(&mut text, *key)?;
    }
    Ok(text)
}

fn append_key(text: &mut Text, key: Key) -> Result<(), NoMemory>
    ensures { OnOk result (text.new ≡ text.old ++ key_text key) }
{
    text.append(key.name())?;
    text.append(b":")?;
    text.append(key.kind().letters())
}
