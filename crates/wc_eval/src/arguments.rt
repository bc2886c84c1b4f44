ghost use Rattle.std.specs.Prelude.{◌≡◌, IfOk, option_map};
ghost use Rattle.wc_eval.specs.Arguments.{arguments_of, lent_texts};

use crate::forms::split_at_byte;
use std::alloc::Global;
use wc_text::NoMemory;

/// The arguments of a form, of which so many have a comma after them. None where there are fewer
/// commas outside forms.
pub(crate) fn arguments(
    alloc: Global,
    text: &[u8],
    commas: usize,
) -> Result<Option<Vec<&[u8]>>, NoMemory>
    ensures { IfOk result (λ found. option_map (λ texts. lent_texts texts.items) found
        ≡ arguments_of commas text.now) }
{
    let mut texts = Vec::new(alloc);
    let mut rest = text;
    for _turn in 0..commas {
        let Some((argument, after)) = split_at_byte(rest, b',') else {
            return Ok(None);
        };
        let Ok(()) = texts.push(argument) else {
            return Err(NoMemory);
        };
        rest = after;
    }
    let Ok(()) = texts.push(rest) else {
        return Err(NoMemory);
    };
    Ok(Some(texts))
}
