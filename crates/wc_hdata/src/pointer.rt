ghost use Rattle.std.specs.Prelude.{◌≡◌};
ghost use Rattle.wc_hdata.specs.Answers.{pointer_of, hex_of};

/// How many digits a pointer has at most.
const MOST_DIGITS: usize = 16;

/// The number that hex digits of either case write. None where they are not 1 to 16 digits.
fn hex_number(digits: &[u8]) -> Option<u64>
    ensures { result ≡ hex_of digits.now }
{
    if digits.is_empty() || digits.len() > MOST_DIGITS {
        return None;
    }
    let mut value: u64 = 0;
    for b in digits {
        let digit = char::from(*b).to_digit(16)?;
        value = value * 16 + u64::from(digit);
    }
    Some(value)
}

/// The pointer that `0x` and hex digits write.
#[tactic(auto, unfolding(crate::specs::Answers::pointer_of))]
pub fn read_pointer(text: &[u8]) -> Option<u64>
    ensures { result ≡ pointer_of text.now }
{
    hex_number(text.strip_prefix(b"0x")?)
}
