ghost use Rattle.std.specs.Prelude.{◌≡◌};
ghost use Rattle.wc_text.specs.Order.{fold_order, byte_order, lower_case};

use std::cmp::Ordering;

/// Compares with ASCII letters in lower case, and by bytes where that leaves a tie.
#[tactic(auto, unfolding(crate::specs::Order::fold_order))]
pub fn fold_cmp(a: &[u8], b: &[u8]) -> Ordering
    ensures { result ≡ fold_order a.now b.now }
{
    match fold_only_cmp(a, b) {
        Ordering::Less => Ordering::Less,
        Ordering::Equal => a.cmp(&b),
        Ordering::Greater => Ordering::Greater,
    }
}

/// Compares with ASCII letters in lower case.
fn fold_only_cmp(a: &[u8], b: &[u8]) -> Ordering
    ensures { result ≡ byte_order (lower_case a.now) (lower_case b.now) }
{
    a.iter()
        .map(|x| x.to_ascii_lowercase())
        .cmp(b.iter().map(|y| y.to_ascii_lowercase()))
}
