ghost use Rattle.std.specs.Prelude.{◌≡◌, ◌++◌, ◌∷◌, [], true, not, map, codes, IfOk, OnOk, OnErr};
ghost use Rattle.wc_ircmsg.specs.Written.{is_one_line, needs_colon};
ghost use Rattle.wc_irc.specs.LoginActs.{cap_params, cap_act, list_act, list_acts, end_act};
ghost use Rattle.wc_irc.specs.LoginActs.{asking_act, granted_act, failure_act, refusal_act};
ghost use Rattle.wc_irc.specs.LoginActs.{proof_acts, acts_of_step, login_acts, after_login};
ghost use Rattle.wc_irc.specs.ServersSeen.{seen};
ghost use Rattle.wc_irc.specs.TalkActs.{sent, other_acts};
ghost use Rattle.wc_irc_texts.specs.Negotiation.{listed, granted};

use crate::act::Act;
use crate::autojoin::line_of;
use crate::state::State;
use crate::talk_acts::{put_other, sent};
use std::alloc::Global;
use wc_irc_texts::{LoginStep, Negotiation, has_sasl, in_one_line, login_pieces, spaced};
use wc_ircmsg::Message;
use wc_text::{Cause, Items, NoMemory, Text};

// ---- lines

fn cap_params(alloc: Global, word: &[u8], text: &[u8]) -> Result<Items<Text>, NoMemory>
    ensures { IfOk result (λ params. params ≡ cap_params word.now text.now) }
{
    let mut params = Items::new(alloc);
    params.push(Text::from_slice(alloc, word)?)?;
    params.push(in_one_line(alloc, text)?)?;
    Ok(params)
}

/// A CAP of a word and a text.
fn cap_act(alloc: Global, word: &[u8], text: &[u8]) -> Result<Act, NoMemory>
    requires word { not (needs_colon word.now) ≡ true }
    requires one_line { is_one_line word.now ≡ true }
    ensures { IfOk result (λ a. a ≡ cap_act word.now text.now) }
{
    let params = cap_params(alloc, word, text)?;
    let command = Text::from_slice(alloc, b"CAP")?;
    Ok(Act::Send(line_of(alloc, command, params)?))
}

fn list_act(alloc: Global) -> Result<Act, NoMemory>
    ensures { IfOk result (λ a. a ≡ list_act) }
{
    cap_act(alloc, b"LS", b"302")
}

/// Asks for the list of capabilities, where options ask for any of it.
pub(crate) fn put_list(
    acts: &mut Items<Act>,
    alloc: Global,
    negotiation: &Negotiation,
) -> Result<(), NoMemory>
    ensures { OnOk result (acts.new ≡ acts.old ++ list_acts negotiation.now) }
{
    if !negotiation.is_used {
        return Ok(());
    }
    acts.push(list_act(alloc)?)
}

fn end_act(alloc: Global) -> Result<Act, NoMemory>
    ensures { IfOk result (λ a. a ≡ end_act) }
{
    sent(alloc, b"CAP", b"END")
}

/// The request of capabilities, or the end where there are none.
fn asking_act(alloc: Global, names: &[Text]) -> Result<Act, NoMemory>
    ensures { IfOk result (λ a. a ≡ asking_act names.now) }
{
    if names.is_empty() {
        return end_act(alloc);
    }
    let text = spaced(alloc, names)?;
    cap_act(alloc, b"REQ", text.as_slice())
}

fn granted_act(alloc: Global, names: &[Text]) -> Result<Act, NoMemory>
    ensures { IfOk result (λ a. a ≡ granted_act names.now) }
{
    if has_sasl(names) {
        sent(alloc, b"AUTHENTICATE", b"PLAIN")
    } else {
        end_act(alloc)
    }
}

/// Gives the server up where options ask for it, and else ends the negotiation.
fn failure_act(alloc: Global, negotiation: &Negotiation) -> Result<Act, NoMemory>
    ensures { IfOk result (λ a. a ≡ failure_act negotiation.now) }
{
    if negotiation.is_strict {
        Ok(Act::Leave(Cause::NickTaken))
    } else {
        end_act(alloc)
    }
}

fn refusal_act(alloc: Global, negotiation: &Negotiation) -> Result<Act, NoMemory>
    ensures { IfOk result (λ a. a ≡ refusal_act negotiation.now) }
{
    if has_sasl(negotiation.offered.as_slice()) {
        failure_act(alloc, negotiation)
    } else {
        end_act(alloc)
    }
}

// ---- steps

fn put_asking(
    acts: &mut Items<Act>,
    alloc: Global,
    negotiation: &Negotiation,
    m: &Message,
) -> Result<(), NoMemory>
    ensures { OnOk result (acts.new ≡ acts.old ++ asking_act (listed negotiation.now m.now) ∷ []) }
{
    let names = negotiation.listed(alloc, m)?;
    acts.push(asking_act(alloc, names.as_slice())?)
}

fn put_granted(
    acts: &mut Items<Act>,
    alloc: Global,
    negotiation: &Negotiation,
    m: &Message,
) -> Result<(), NoMemory>
    ensures { OnOk result (acts.new
        ≡ acts.old ++ granted_act (granted negotiation.now m.now) ∷ []) }
{
    let names = negotiation.granted(alloc, m)?;
    acts.push(granted_act(alloc, names.as_slice())?)
}

/// Says who the client is, in as many lines as it takes.
fn put_proof(
    acts: &mut Items<Act>,
    alloc: Global,
    negotiation: &Negotiation,
) -> Result<(), NoMemory>
    ensures { OnOk result (acts.new ≡ acts.old ++ proof_acts negotiation.now) }
{
    let (user, password) = (negotiation.user.as_slice(), negotiation.password.as_slice());
    let pieces = login_pieces(alloc, user, password)?;
    put_pieces(acts, alloc, pieces.as_slice())
}

fn put_piece(acts: &mut Items<Act>, alloc: Global, piece: &[u8]) -> Result<(), NoMemory>
    ensures { OnOk result (acts.new ≡ acts.old ++ sent (codes "AUTHENTICATE") piece.now ∷ []) }
{
    acts.push(sent(alloc, b"AUTHENTICATE", piece)?)
}

fn put_pieces(acts: &mut Items<Act>, alloc: Global, pieces: &[Text]) -> Result<(), NoMemory>
    ensures { OnOk result (acts.new ≡ acts.old ++ map (sent (codes "AUTHENTICATE")) pieces.now) }
{
    for piece in pieces {
        put_piece(acts, alloc, piece.as_slice())?;
    }
    Ok(())
}

fn put_admitted(
    acts: &mut Items<Act>,
    alloc: Global,
    state: &State,
    m: &Message,
) -> Result<(), NoMemory>
    ensures { OnOk result (acts.new
        ≡ acts.old ++ other_acts (seen state.now) m.now ++ end_act ∷ []) }
{
    put_other(acts, alloc, state, m)?;
    acts.push(end_act(alloc)?)
}

fn put_rejected(
    acts: &mut Items<Act>,
    alloc: Global,
    state: &State,
    m: &Message,
) -> Result<(), NoMemory>
    ensures { OnOk result (acts.new ≡ acts.old ++ other_acts (seen state.now) m.now
        ++ failure_act state.now.negotiation ∷ []) }
{
    put_other(acts, alloc, state, m)?;
    acts.push(failure_act(alloc, &state.negotiation)?)
}

#[tactic(auto, unfolding(crate::specs::LoginActs::acts_of_step))]
fn put_step(
    acts: &mut Items<Act>,
    alloc: Global,
    state: &State,
    m: &Message,
    step: LoginStep,
) -> Result<(), NoMemory>
    ensures { OnOk result (acts.new ≡ acts.old ++ acts_of_step (seen state.now) m.now step) }
{
    match step {
        LoginStep::Foreign => put_other(acts, alloc, state, m),
        LoginStep::Nothing | LoginStep::Lists | LoginStep::TakesAway => Ok(()),
        LoginStep::EndsList => put_asking(acts, alloc, &state.negotiation, m),
        LoginStep::Grants => put_granted(acts, alloc, &state.negotiation, m),
        LoginStep::Refuses => acts.push(refusal_act(alloc, &state.negotiation)?),
        LoginStep::AsksProof => put_proof(acts, alloc, &state.negotiation),
        LoginStep::Admits => put_admitted(acts, alloc, state, m),
        LoginStep::Rejects => put_rejected(acts, alloc, state, m),
    }
}

/// Puts what follows of a message of no other kind after the acts: the next line of the login, where
/// it is about that, and else a line that is printed.
pub(crate) fn put_login(
    acts: &mut Items<Act>,
    alloc: Global,
    state: &State,
    m: &Message,
) -> Result<(), NoMemory>
    ensures { OnOk result (acts.new ≡ acts.old ++ login_acts (seen state.now) m.now) }
{
    put_step(acts, alloc, state, m, state.negotiation.step(m))
}

impl State {
    /// Takes in a message of no other kind.
    pub(crate) fn take_login(&mut self, alloc: Global, m: &Message) -> Result<(), NoMemory>
        ensures after { OnOk result (seen self.new ≡ after_login (seen self.old) m.now) }
        ensures unchanged { OnErr result (self.new ≡ self.old) }
    {
        let step = self.negotiation.step(m);
        self.negotiation.take_in(alloc, m, step)
    }
}
