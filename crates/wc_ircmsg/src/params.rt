ghost use Rattle.std.specs.Prelude.{◌≡◌, IfOk};
ghost use Rattle.wc_ircmsg.specs.Params.{first_of, after_first, params_of};

use std::alloc::Global;
use wc_text::{Items, NoMemory, Text, cut_word};

/// The most parameters that a line has.
pub const MOST_PARAMS: usize = 15;

/// The parameter at the front of a text, and what is left after it, where so many more may come.
/// After a `:` it is all that is left, and so it is where no more may come.
fn cut_param(text: &[u8], more: usize) -> (&[u8], &[u8])
    ensures param { result.0.now ≡ first_of more text.now }
    ensures rest { result.1.now ≡ after_first more text.now }
{
    if let [b':', trailing @ ..] = text {
        return (trailing, &[]);
    }
    if more == 0 {
        return (text, &[]);
    }
    cut_word(text)
}

/// The parameters of a text.
pub(crate) fn read_params(alloc: Global, text: &[u8]) -> Result<Items<Text>, NoMemory>
    ensures { IfOk result (λ params. params ≡ params_of 15 text.now) }
{
    let mut params = Items::new(alloc);
    let mut rest = text;
    let mut places = MOST_PARAMS;
    while places > 0 && !rest.is_empty() {
        places -= 1;
        let (param, text_after) = cut_param(rest, places);
        params.push(Text::from_slice(alloc, param)?)?;
        rest = text_after;
    }
    Ok(params)
}
