//! The text of a pointer, and of a number in decimal.
ghost use Rattle.std.specs.Int.Digits.{number_from_digits};
ghost use Rattle.std.specs.List.{list_all};
ghost use Rattle.std.specs.Prelude.{◌≡◌, ◌≤◌, ◌<◌, ◌++◌, length, drop, map, true, false};
ghost use Rattle.std.specs.Prelude.{MatchOption};
ghost use Rattle.wc_objects.specs.Hex.{glyph, hex, is_hex};
ghost use Rattle.wc_objects.specs.Hex as spec;
ghost use Rattle.wc_objects.specs.Reading as reading;

/// How many digits a pointer has at most.
pub const MAX_DIGITS: usize = 16;

fn digit(d: u8) -> u8
    requires { d < 16 }
    ensures { result ≡ glyph d }
{
    if d < 10 { b'0' + d } else { b'a' - 10 + d }
}

/// Writes the digits at the end of the buffer, and answers where they begin.
fn write_digits(n: u64, digits: &mut [u8; MAX_DIGITS]) -> usize
    ensures within { result ≤ 16 }
    ensures written { drop result digits.new ≡ hex n }
{
    if n == 0 {
        digits[MAX_DIGITS - 1] = b'0';
        return MAX_DIGITS - 1;
    }
    let mut at = MAX_DIGITS;
    let mut left = n;
    while left > 0 {
        at -= 1;
        digits[at] = digit((left % 16) as u8);
        left /= 16;
    }
    at
}

/// The value of a digit.
fn digit_value(c: u8) -> Option<u8>
    ensures { MatchOption result (is_hex c ≡ false) (λ d. (is_hex c ≡ true) × (d ≡ spec.digit c)
        × (d < 16)) }
{
    match c {
        b'0'..=b'9' => Some(c - b'0'),
        b'a'..=b'f' => Some(c - b'a' + 10),
        _ => None,
    }
}

/// The number that the digits spell, of which there are few enough.
fn digits_number(text: &[u8]) -> Option<u64>
    requires { length text.now ≤ 16 }
    ensures { MatchOption result (list_all is_hex text.now ≡ false)
        (λ n. (list_all is_hex text.now ≡ true)
        × (n ≡ number_from_digits 16 (map spec.digit text.now))) }
{
    let mut number = 0u64;
    for c in text {
        let digit = digit_value(*c)?;
        number = number * 16 + digit as u64;
    }
    Some(number)
}

/// The pointer whose one spelling the text is.
#[tactic(auto, unfolding(crate::specs::Hex::hex_number))]
pub fn hex_number(text: &[u8]) -> Option<u64>
    ensures { result ≡ spec.hex_number text.now }
{
    match text {
        [] => None,
        [b'0', _, ..] => None,
        _ if text.len() > MAX_DIGITS => None,
        _ => digits_number(text),
    }
}

/// Room for the digits of one pointer.
#[derive(Drop)]
pub struct HexBuffer {
    digits: [u8; MAX_DIGITS],
}

impl HexBuffer {
    pub fn new() -> HexBuffer {
        HexBuffer {
            digits: [0; MAX_DIGITS],
        }
    }

    /// The pointer in lower-case hex, with no zero in front.
    pub fn format(&mut self, n: u64) -> &[u8]
        ensures text { result.now ≡ hex n }
        ensures short { length result.now ≤ 16 }
    {
        let start = write_digits(n, &mut self.digits);
        &self.digits[start..]
    }
}

/// The number whose one spelling the text is.
pub fn decimal_number(text: &[u8]) -> Option<i64>
    ensures { result ≡ reading.decimal_number text.now }
{
    let Ok(digits) = std::str::from_utf8(text) else {
        return None;
    };
    let Ok(number) = i64::from_str_radix(digits, 10) else {
        return None;
    };
    let mut buffer = itoa::Buffer::new();
    if buffer.format(number).as_bytes() == text {
        Some(number)
    } else {
        None
    }
}
