ghost use Rattle.std.specs.Prelude.{◌≡◌, ◌^◌, ◌-◌};
ghost use Rattle.wc_text.specs.Integer.{integer_of, magnitude_of, negative_of, positive_of};

/// The number that an optional `-` and one or more decimal digits write.
/// None where the bytes are anything else, or the number is out of the range of 64 bits.
#[tactic(auto, unfolding(crate::specs::Integer::integer_of))]
pub fn read_i64(bytes: &[u8]) -> Option<i64>
    ensures { result ≡ integer_of bytes.now }
{
    let (first, following) = bytes.split_first()?;
    if *first == b'-' {
        read_negative(following)
    } else {
        read_positive(bytes)
    }
}

fn read_positive(digits: &[u8]) -> Option<i64>
    ensures { result ≡ positive_of digits.now }
{
    i64::try_from(read_magnitude(digits)?).ok()
}

fn read_negative(digits: &[u8]) -> Option<i64>
    ensures { result ≡ negative_of digits.now }
{
    0i64.checked_sub_unsigned(read_magnitude(digits)?)
}

fn read_magnitude(digits: &[u8]) -> Option<u64>
    ensures { result ≡ magnitude_of (2 ^ 64 - 1) digits.now }
{
    if digits.is_empty() {
        return None;
    }
    let mut value: u64 = 0;
    for b in digits {
        if !b.is_ascii_digit() {
            return None;
        }
        value = value.checked_mul(10)?.checked_add(u64::from(*b - b'0'))?;
    }
    Some(value)
}
