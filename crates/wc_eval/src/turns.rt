ghost use Rattle.std.specs.Prelude.{◌≡◌, ◌≤◌, ◌+◌, [], false};
ghost use Rattle.wc_eval.specs.Parts.{parts_of};
ghost use Rattle.wc_eval.specs.Reading.{texts_left, size_of};
ghost use Rattle.wc_eval.specs.Turns.{turn_of, turn_among, next_turn, turn_size, ranks_size};

use crate::parts::Parts;

/// What is still to come of a condition that `||` and `&&` part.
#[derive(Clone, Copy)]
pub(crate) struct Ranks<'a> {
    /// What is up to the next `||`.
    rest: Parts<'a>,
    others: Parts<'a>,
}

/// The next step of a condition.
#[derive(Clone, Copy)]
pub(crate) enum Turn<'a> {
    /// This one is tested, and then the ranks go on.
    Test(&'a [u8], Ranks<'a>),
    /// Whether the condition holds.
    End(bool),
}

/// The first of the texts between `&&`, where these others come after the next `||`.
fn turn_among<'a>(parts: Parts<'a>, others: Parts<'a>) -> Turn<'a>
    ensures turn { turn_of result ≡ turn_among (texts_left parts.entry) (texts_left others.entry) }
    ensures smaller { turn_size result ≤ size_of parts.entry + size_of others.entry }
{
    match parts.next() {
        Some((text, rest)) => Turn::Test(text, Ranks { rest, others }),
        None => Turn::End(true),
    }
}

/// The turn that tests the first text of those between `||`, from the left.
fn turn_after(others: Parts<'_>) -> Turn<'_>
    ensures turn { turn_of result ≡ next_turn false [] (texts_left others.entry) }
    ensures smaller { turn_size result ≤ size_of others.entry }
{
    match others.next() {
        Some((part, left)) => turn_among(Parts::new(part, b'&'), left),
        None => Turn::End(false),
    }
}

impl<'a> Ranks<'a> {
    /// The first turn of a condition.
    pub(crate) fn begin(text: &'a [u8]) -> Turn<'a>
        ensures { turn_of result ≡ next_turn false [] (parts_of 124 text.now) }
    {
        turn_after(Parts::new(text, b'|'))
    }

    /// The turn after a text that holds or does not.
    pub(crate) fn go_on(self, holds: bool) -> Turn<'a>
        ensures turn { turn_of result
            ≡ next_turn holds (texts_left self.entry.rest) (texts_left self.entry.others) }
        ensures smaller { turn_size result ≤ ranks_size self.entry }
    {
        if holds {
            return turn_among(self.rest, self.others);
        }
        turn_after(self.others)
    }
}
