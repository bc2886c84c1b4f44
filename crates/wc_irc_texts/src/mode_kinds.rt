//! Which modes a server has, as tables that are asked in constant time.

ghost use Rattle.std.specs.Prelude.{◌≡◌, ◌≢◌, ◌<◌, ◌==◌, ℕ, slice_index};
ghost use Rattle.wc_irc_texts.specs.ModesSeen.{stands_in, IsTable, AreKinds, takes_by};

use crate::features::Features;
use crate::modes::mode_list;

/// How many letters there may be.
const LETTERS: usize = 256;

fn put_letter(table: &mut [u8; LETTERS], letter: u8)
    ensures here { slice_index table.new letter ≡ 1 }
    ensures others { (other : ℕ) → other ≢ letter →
        slice_index table.new other ≡ slice_index table.old other }
{
    table[letter as usize] = 1;
}

fn no_letters() -> [u8; LETTERS]
    ensures { (letter : ℕ) → letter < 256 → slice_index result letter ≡ 0 }
{
    [0; LETTERS]
}

/// A table with 1 at each letter of a text.
fn table_of(letters: &[u8]) -> [u8; LETTERS]
    ensures { IsTable letters.now result }
{
    let mut table = no_letters();
    for letter in letters {
        put_letter(&mut table, *letter);
    }
    table
}

fn stands_in(table: &[u8; LETTERS], letter: u8) -> bool
    ensures { result ≡ stands_in table.now letter }
{
    table[letter as usize] == 1
}

/// The modes of PREFIX, and those of the lists of CHANMODES that may take a parameter.
#[derive(Drop)]
pub(crate) struct ModeKinds {
    prefix: [u8; LETTERS],
    first: [u8; LETTERS],
    second: [u8; LETTERS],
    third: [u8; LETTERS],
}

impl ModeKinds {
    /// Reads what the server told once, so that each letter of a MODE is looked up at once.
    pub(crate) fn of(features: &Features) -> ModeKinds
        ensures { AreKinds features.now result }
    {
        let lists = features.chan_modes.as_slice();
        let prefix = table_of(features.prefixes.modes.as_slice());
        let first = table_of(mode_list(0, lists));
        let second = table_of(mode_list(1, lists));
        let third = table_of(mode_list(2, lists));
        ModeKinds {
            prefix,
            first,
            second,
            third,
        }
    }

    /// Whether a mode is one of PREFIX.
    pub(crate) fn is_prefix(&self, letter: u8) -> bool
        ensures { result ≡ stands_in self.now.prefix letter }
    {
        stands_in(&self.prefix, letter)
    }

    /// Whether a mode takes a parameter: one of PREFIX and of the first two lists of CHANMODES
    /// always, and one of the third where it is set.
    pub(crate) fn takes_param(&self, adds: bool, letter: u8) -> bool
        ensures { result ≡ takes_by self.now adds letter }
    {
        self.is_prefix(letter)
            || stands_in(&self.first, letter)
            || stands_in(&self.second, letter)
            || adds && stands_in(&self.third, letter)
    }
}
