ghost use Rattle.std.specs.Prelude.{◌≡◌, ◌++◌, ◌∷◌, true, drop, ℕ, List, IfOk, OnOk};
ghost use Rattle.wc_irc_texts.specs.declared.features.Features.{Features};
ghost use Rattle.wc_irc_texts.specs.Modes.{has_letter, mode_list, change_with, changes_from};
ghost use Rattle.wc_irc_texts.specs.Modes.{mode_changes};
ghost use Rattle.wc_irc_texts.specs.ModesSeen.{changes_in, changes_found, AreKinds};

use crate::features::Features;
use crate::mode_kinds::ModeKinds;
use std::alloc::Global;
use wc_text::{NoMemory, Text, split_once};

/// A mode of PREFIX that a nick gets or loses.
#[derive(Clone, Copy)]
pub struct ModeChange<'a> {
    /// Whether it gets the mode.
    pub adds: bool,
    /// The letter of the mode.
    pub letter: u8,
    pub nick: &'a [u8],
}

pub(crate) fn has_letter(letter: u8, modes: &[u8]) -> bool
    ensures { result ≡ has_letter letter modes.now }
{
    modes.contains(&letter)
}

/// One of the lists of CHANMODES.
pub(crate) fn mode_list(number: usize, value: &[u8]) -> &[u8]
    ensures { result.now ≡ mode_list number value.now }
{
    let mut left = Some(value);
    let mut skipped = 0;
    while let Some(rest) = left {
        let (list, others) = split_once(rest, b',');
        if skipped == number {
            return list;
        }
        skipped += 1;
        left = others;
    }
    &[]
}

/// What a MODE sets: whether `+` or `-` was before, and the parameters that are still to be taken.
#[derive(Drop)]
struct ModeWalk<'a> {
    adds: bool,
    params: &'a [Text],
}

impl<'a> ModeWalk<'a> {
    /// The change of a letter with the next parameter, where it is one of PREFIX.
    fn change(&mut self, kinds: &ModeKinds, letter: u8) -> Option<ModeChange<'a>>
        ensures change { (f : Features) → AreKinds f kinds.now → changes_found result
            ≡ change_with f self.old.adds letter self.old.params.now }
        ensures adds { self.new.adds ≡ self.old.adds }
        ensures params { self.new.params.now ≡ drop 1 self.old.params.now }
    {
        let [param, others @ ..] = self.params else {
            return None;
        };
        self.params = others;
        if !kinds.is_prefix(letter) {
            return None;
        }
        Some(ModeChange {
            adds: self.adds,
            letter,
            nick: param.as_slice(),
        })
    }

    /// The change of a letter, where it is one of PREFIX and has a parameter.
    fn step(&mut self, kinds: &ModeKinds, letter: u8) -> Option<ModeChange<'a>>
        ensures { (f : Features) → AreKinds f kinds.now → (letters : List ℕ) →
            changes_from f self.old.adds (letter ∷ letters) self.old.params.now
            ≡ changes_found result
            ++ changes_from f self.new.adds letters self.new.params.now }
    {
        if letter == b'+' {
            self.adds = true;
            return None;
        }
        if letter == b'-' {
            self.adds = false;
            return None;
        }
        if !kinds.takes_param(self.adds, letter) {
            return None;
        }
        self.change(kinds, letter)
    }
}

fn put_change<'a>(
    changes: &mut Vec<ModeChange<'a>>,
    change: Option<ModeChange<'a>>,
) -> Result<(), NoMemory>
    ensures { OnOk result (changes_in changes.new.items
        ≡ changes_in changes.old.items ++ changes_found change.entry) }
{
    if let Some(change) = change {
        changes.reserve(1)?;
        changes.push_reserved(change);
    }
    Ok(())
}

fn changes_of<'a>(
    alloc: Global,
    features: &Features,
    letters: &[u8],
    params: &'a [Text],
) -> Result<Vec<ModeChange<'a>>, NoMemory>
    ensures { IfOk result (λ changes. changes_in changes.items
        ≡ changes_from features.now true letters.now params.now) }
{
    let kinds = ModeKinds::of(features);
    let mut changes = Vec::new(alloc);
    let mut walk = ModeWalk { adds: true, params };
    for letter in letters {
        let change = walk.step(&kinds, *letter);
        put_change(&mut changes, change)?;
    }
    Ok(changes)
}

/// The modes of nicks that a MODE of a channel with these parameters sets and takes, in order: the
/// first has the letters, of which `+` and `-` tell what is set and what is taken, and the others
/// are theirs in order. A letter takes one where it is of PREFIX, of the first two lists of
/// CHANMODES, or set and of the third. One of PREFIX without its parameter changes nothing.
pub fn mode_changes<'a>(
    alloc: Global,
    features: &Features,
    params: &'a [Text],
) -> Result<Vec<ModeChange<'a>>, NoMemory>
    ensures { IfOk result (λ changes. changes_in changes.items
        ≡ mode_changes features.now params.now) }
{
    match params {
        [letters, others @ ..] => changes_of(alloc, features, letters.as_slice(), others),
        [] => Ok(Vec::new(alloc)),
    }
}
