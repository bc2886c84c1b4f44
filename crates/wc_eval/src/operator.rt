ghost use Rattle.std.specs.Prelude.{◌≡◌, ◌<◌, length, IfSome, option_map};
ghost use Rattle.wc_eval.specs.Sums.{result_of};
ghost use Rattle.wc_eval.specs.Signs.{sum_sign, product_sign};

/// What joins two numbers.
#[derive(Clone, Copy, PartialEq, Eq)]
pub enum Operator {
    Add,
    Subtract,
    Multiply,
    /// Cut towards zero.
    Divide,
    /// With the sign of the left.
    Remainder,
}

impl Operator {
    /// None where the divisor is zero, or the value does not fit 64 bits.
    pub(crate) fn result(self, left: i64, right: i64) -> Option<i64>
        ensures { result ≡ result_of self left right }
    {
        match self {
            Operator::Add => left.checked_add(right),
            Operator::Subtract => left.checked_sub(right),
            Operator::Multiply => left.checked_mul(right),
            Operator::Divide => left.checked_div(right),
            Operator::Remainder => remainder(left, right),
        }
    }
}

/// Beside the least number and -1 the remainder is 0, although the quotient does not fit.
fn remainder(left: i64, right: i64) -> Option<i64>
    ensures { result ≡ result_of Operator.Remainder left right }
{
    if right == 0 {
        return None;
    }
    Some(left.wrapping_rem(right))
}

/// The `+` or `-` at the front of a text, and what comes after it.
pub(crate) fn cut_sum_sign(text: &[u8]) -> Option<(Operator, &[u8])>
    ensures found { option_map (λ parts. (parts.0, parts.1.now)) result ≡ sum_sign text.now }
    ensures shorter { IfSome result (λ parts. length parts.1.now < length text.now) }
{
    match text {
        [b'+', rest @ ..] => Some((Operator::Add, rest)),
        [b'-', rest @ ..] => Some((Operator::Subtract, rest)),
        _ => None,
    }
}

/// The `*`, `//` or `%` at the front of a text, and what comes after it.
pub(crate) fn cut_product_sign(text: &[u8]) -> Option<(Operator, &[u8])>
    ensures found { option_map (λ parts. (parts.0, parts.1.now)) result ≡ product_sign text.now }
    ensures shorter { IfSome result (λ parts. length parts.1.now < length text.now) }
{
    match text {
        [b'*', rest @ ..] => Some((Operator::Multiply, rest)),
        [b'/', b'/', rest @ ..] => Some((Operator::Divide, rest)),
        [b'%', rest @ ..] => Some((Operator::Remainder, rest)),
        _ => None,
    }
}
