ghost use Rattle.std.specs.Prelude.{◌≡◌};
ghost use Rattle.wc_irc_texts.specs.Rows.{param, last_param, params_from};

use wc_ircmsg::Message;
use wc_text::Text;

/// The parameter at a place, which is empty where there are not so many.
pub fn param(m: &Message, place: usize) -> &[u8]
    ensures { result.now ≡ param place m.now }
{
    match m.params.as_slice().get(place) {
        Some(param) => param.as_slice(),
        None => &[],
    }
}

/// The last parameter, which is empty where there is none.
pub fn last_param(m: &Message) -> &[u8]
    ensures { result.now ≡ last_param m.now }
{
    match m.params.as_slice() {
        [.., last] => last.as_slice(),
        [] => &[],
    }
}

/// The parameters from a place on.
#[tactic(auto, using(crate::proofs::ParamLemmas::past_all))]
pub fn params_from(m: &Message, place: usize) -> &[Text]
    ensures { result.now ≡ params_from place m.now }
{
    let params = m.params.as_slice();
    if params.len() <= place {
        return &[];
    }
    params.split_at(place).1
}
