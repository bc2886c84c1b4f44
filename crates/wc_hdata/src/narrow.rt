//! Steps that lead from each place to exactly one, so that what they give need not be gone through
//! to be counted.

ghost use Rattle.std.specs.Prelude.{◌≡◌, ◌+◌, ◌*◌, ◌<◌, drop, length, true, MatchOption};
ghost use Rattle.wc_hdata.specs.Narrow.{gives_one, is_narrow, others_give_one};

use crate::count::Count;
use crate::element::Element;
use crate::path::Step;
use crate::variable::Variable;

/// Whether a step leads to exactly one place from where it leads to any.
fn is_narrow(step: Step) -> bool
    ensures { result ≡ is_narrow step.variable step.count }
{
    match step.variable {
        Variable::OwnLines | Variable::Lines | Variable::Data => true,
        Variable::FirstLine | Variable::LastLine => false,
        Variable::Buffer => matches!(step.count, Count::One),
    }
}

/// Whether a step leads to one place from each of an element.
fn gives_one(element: Element, step: Step) -> bool
    ensures { result ≡ gives_one element step }
{
    element.leads(step.variable).is_some() && is_narrow(step)
}

/// The place of a step after which each step leads from each place to one.
pub(crate) fn last_wide(steps: &[Step]) -> usize
    requires { 0 < length steps.now }
    ensures inside { result < length steps.now }
    ensures narrow { others_give_one (drop result steps.now) ≡ true }
{
    let mut last = steps.len() - 1;
    while last > 0 {
        if !gives_one(steps[last - 1].variable.target(), steps[last]) {
            return last;
        }
        last -= 1;
    }
    last
}

/// What is left of a number after so many places, and as many again for each of the other steps.
pub(crate) fn left_after(left: usize, places: usize, steps: usize) -> Option<usize>
    ensures { MatchOption result (left < places * steps) (λ rest. rest + places * steps ≡ left) }
{
    left.checked_sub(places.checked_mul(steps)?)
}
