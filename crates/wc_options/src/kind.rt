ghost use Rattle.std.specs.Prelude.{◌≡◌, ◌==◌, ◌&&◌, not};
ghost use Rattle.std.specs.List.{list_all};

use crate::address::read_address;
use crate::number::number_in;

/// What the values of an option have to be.
#[derive(Clone, Copy, Debug)]
pub enum Kind {
    /// A decimal number from the lowest to the highest.
    Number { lowest: u32, highest: u32 },
    /// Any text.
    Text,
    /// A text that is not empty.
    Filled,
    /// A text that is not empty, has no blank and does not begin with `:`.
    Word,
    /// `on` or `off`.
    Switch,
    /// Empty, or an address and a port.
    Endpoint,
}

/// The most bytes that a value may have.
pub const LONGEST_VALUE: usize = 1024;

impl Kind {
    ghost use Rattle.wc_options.specs.Values.{value_fits};

    /// Whether a value may be at an option of this kind.
    #[tactic(auto, unfolding(crate::specs::Values::value_fits))]
    pub fn fits(self, value: &[u8]) -> bool
        ensures { result ≡ value_fits self value.now }
    {
        is_storable(value)
            && match self {
                Kind::Number { lowest, highest } => number_in(value, lowest, highest).is_some(),
                Kind::Text => true,
                Kind::Filled => !value.is_empty(),
                Kind::Word => is_word(value),
                Kind::Switch => is_switch(value),
                Kind::Endpoint => value.is_empty() || read_address(value).is_some(),
            }
    }
}

ghost use Rattle.wc_options.specs.Values.{is_storable, is_storable_byte, is_word, is_switch};

/// Whether a value is short enough, and has no CR, LF or NUL.
#[tactic(auto, unfolding(crate::specs::Values::is_storable))]
fn is_storable(value: &[u8]) -> bool
    ensures { result ≡ is_storable value.now }
{
    value.len() <= LONGEST_VALUE && has_storable_bytes(value)
}

fn has_storable_bytes(value: &[u8]) -> bool
    ensures { result ≡ list_all is_storable_byte value.now }
{
    value.iter().all(|byte| is_storable_byte(*byte))
}

fn is_storable_byte(byte: u8) -> bool
    ensures { result ≡ is_storable_byte byte }
{
    byte != b'\r' && byte != b'\n' && byte != 0
}

#[tactic(auto, unfolding(crate::specs::Values::is_word))]
fn is_word(value: &[u8]) -> bool
    ensures { result ≡ is_word value.now }
{
    match value {
        [] => false,
        [b':', ..] => false,
        _ => has_no_blank(value),
    }
}

fn has_no_blank(value: &[u8]) -> bool
    ensures { result ≡ list_all (λ byte. not (byte == 32)) value.now }
{
    value.iter().all(|byte| *byte != b' ')
}

#[tactic(auto, unfolding(crate::specs::Values::is_switch))]
fn is_switch(value: &[u8]) -> bool
    ensures { result ≡ is_switch value.now }
{
    value == b"on".as_slice() || value == b"off".as_slice()
}
