ghost use Rattle.std.specs.Prelude.{◌≡◌, ◌≤◌, IfSome};
ghost use Rattle.wc_options.specs.Number.{decimal_from, number_in, number_of, within};

/// The number that decimal digits write, with no sign and no leading zero, where it is from the
/// lowest to the highest.
#[tactic(auto, unfolding(crate::specs::Number::number_in))]
pub fn number_in(text: &[u8], lowest: u32, highest: u32) -> Option<u32>
    ensures number { result ≡ number_in lowest highest text.now }
    ensures at_least { IfSome result (λ number. lowest ≤ number) }
    ensures in_range { IfSome result (λ number. number ≤ highest) }
{
    match text {
        [] => None,
        [b'0', _, ..] => None,
        _ => digits_in(text, lowest, highest),
    }
}

/// What digits write, also after leading zeros, where it is from the lowest to the highest.
#[tactic(auto, using(crate::proofs::NumberLemmas::number_steps))]
fn digits_in(text: &[u8], lowest: u32, highest: u32) -> Option<u32>
    ensures number { result ≡ within lowest highest (decimal_from 0 text.now) }
    ensures at_least { IfSome result (λ number. lowest ≤ number) }
    ensures in_range { IfSome result (λ number. number ≤ highest) }
{
    let mut value = 0u32;
    let mut rest = text;
    while let [byte, others @ ..] = rest {
        if *byte < b'0' || *byte > b'9' {
            return None;
        }
        let next = value as u64 * 10 + (*byte - b'0') as u64;
        if next > highest as u64 {
            return None;
        }
        value = next as u32;
        rest = others;
    }
    if value < lowest {
        return None;
    }
    Some(value)
}
