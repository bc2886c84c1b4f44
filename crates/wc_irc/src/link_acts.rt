ghost use Rattle.std.specs.Prelude.{◌≡◌, ◌++◌, ◌∷◌, [], true, codes, flat_map, IfOk, OnOk, OnErr};
ghost use Rattle.wc_irc.specs.Autojoin.{message};
ghost use Rattle.wc_irc.specs.Channels.{joined};
ghost use Rattle.wc_irc.specs.LinkActs.{pass_acts, word_or_own, user_word, user_params, user_act};
ghost use Rattle.wc_irc.specs.LinkActs.{first_acts, after_connect, lost_of, lost_line, loss_acts};
ghost use Rattle.wc_irc.specs.LinkActs.{after_loss};
ghost use Rattle.wc_irc.specs.ServersSeen.{seen};
ghost use Rattle.wc_irc.specs.TalkActs.{sent};
ghost use Rattle.wc_irc_texts.specs.Texts.{in_one_line};
ghost use Rattle.wc_ircmsg.specs.Written.{IsWritable, is_one_line};

use crate::act::Act;
use crate::autojoin::{first_words, line_of};
use crate::channel::Channel;
use crate::lines::printed;
use crate::login_acts::put_list;
use crate::nick_acts::put_emptied;
use crate::state::State;
use crate::talk_acts::{put_raised, sent};
use crate::targets::{found, server_buffer};
use std::alloc::Global;
use wc_buffers::Buffers;
use wc_irc_texts::in_one_line;
use wc_irc_words::is_target;
use wc_text::{Items, NoMemory, Text};

/// The user name of a server whose option has none that can be sent.
const OWN_USER: &[u8] = b"weechat";

// ---- the first lines

fn put_pass(acts: &mut Items<Act>, alloc: Global, password: &[u8]) -> Result<(), NoMemory>
    ensures { OnOk result (acts.new ≡ acts.old ++ pass_acts password.now) }
{
    if password.is_empty() {
        return Ok(());
    }
    acts.push(sent(alloc, b"PASS", password)?)
}

fn word_or_own(word: &[u8]) -> &[u8]
    ensures { result.now ≡ word_or_own word.now }
{
    if is_target(word) { word } else { OWN_USER }
}

/// A user name as one word.
pub(crate) fn user_word(alloc: Global, user: &[u8]) -> Result<Text, NoMemory>
    ensures { IfOk result (λ word. word ≡ user_word user.now) }
{
    let line = in_one_line(alloc, user)?;
    let (word, _) = first_words(line.as_slice());
    Text::from_slice(alloc, word_or_own(word))
}

fn user_params(alloc: Global, user: &[u8], real_name: &[u8]) -> Result<Items<Text>, NoMemory>
    ensures { IfOk result (λ params. params ≡ user_params user.now real_name.now) }
{
    let mut params = Items::new(alloc);
    params.push(user_word(alloc, user)?)?;
    params.push(Text::from_slice(alloc, b"0")?)?;
    params.push(Text::from_slice(alloc, b"*")?)?;
    params.push(in_one_line(alloc, real_name)?)?;
    Ok(params)
}

fn user_act(alloc: Global, state: &State) -> Result<Act, NoMemory>
    ensures { IfOk result (λ a. a ≡ user_act (seen state.now)) }
{
    let (user, real_name) = (
        state.login.user.as_slice(),
        state.login.real_name.as_slice(),
    );
    let params = user_params(alloc, user, real_name)?;
    let word = Text::from_slice(alloc, b"USER")?;
    Ok(Act::Send(line_of(alloc, word, params)?))
}

/// What is said as the link begins.
fn first_acts(alloc: Global, state: &State) -> Result<Items<Act>, NoMemory>
    ensures { IfOk result (λ acts. acts ≡ first_acts (seen state.now)) }
{
    let mut acts = Items::new(alloc);
    put_list(&mut acts, alloc, &state.negotiation)?;
    put_pass(&mut acts, alloc, state.login.password.as_slice())?;
    acts.push(sent(alloc, b"NICK", state.nick.as_slice())?)?;
    acts.push(user_act(alloc, state)?)?;
    Ok(acts)
}

/// The link begins.
pub(crate) fn on_connect(state: &mut State, alloc: Global) -> Result<Items<Act>, NoMemory>
    ensures acts { IfOk result (λ acts. acts ≡ first_acts (seen state.old)) }
    ensures after { OnOk result (seen state.new ≡ after_connect (seen state.old)) }
    ensures unchanged { OnErr result (seen state.new ≡ seen state.old) }
{
    let acts = first_acts(alloc, state)?;
    state.is_connected = true;
    state.negotiation.begin();
    Ok(acts)
}

// ---- a loss

fn put_lost_of(
    acts: &mut Items<Act>,
    alloc: Global,
    buffers: &Buffers,
    state: &State,
    channel: &Channel,
) -> Result<(), NoMemory>
    ensures { OnOk result (acts.new ≡ acts.old
        ++ lost_of buffers.now (seen state.now) (joined channel.now)) }
{
    match found(alloc, buffers, state, channel.name.as_slice())? {
        Some(buffer) => put_emptied(acts, alloc, buffer.as_slice(), &channel.nicks),
        None => Ok(()),
    }
}

/// The nicks of each channel go.
fn put_lost_lists(
    acts: &mut Items<Act>,
    alloc: Global,
    buffers: &Buffers,
    state: &State,
) -> Result<(), NoMemory>
    ensures { OnOk result (acts.new ≡ acts.old
        ++ flat_map (lost_of buffers.now (seen state.now)) (seen state.now).channels) }
{
    for channel in state.channels.as_slice() {
        put_lost_of(acts, alloc, buffers, state, channel)?;
    }
    Ok(())
}

fn lost_line(alloc: Global, state: &State) -> Result<Act, NoMemory>
    ensures { IfOk result (λ a. a ≡ lost_line (seen state.now)) }
{
    let buffer = server_buffer(alloc, state.name.as_slice())?;
    printed(
        alloc,
        buffer.as_slice(),
        Items::new(alloc),
        b"--",
        b"disconnected",
    )
}

fn loss_acts(alloc: Global, buffers: &Buffers, state: &State) -> Result<Items<Act>, NoMemory>
    ensures { IfOk result (λ acts. acts ≡ loss_acts buffers.now (seen state.now)) }
{
    let mut acts = Items::new(alloc);
    put_lost_lists(&mut acts, alloc, buffers, state)?;
    acts.push(lost_line(alloc, state)?)?;
    put_raised(&mut acts, alloc, state, b"irc_server_disconnected")?;
    Ok(acts)
}

/// The link is lost.
pub(crate) fn on_lost(
    state: &mut State,
    alloc: Global,
    buffers: &Buffers,
) -> Result<Items<Act>, NoMemory>
    ensures acts { IfOk result (λ acts. acts ≡ loss_acts buffers.now (seen state.old)) }
    ensures after { OnOk result (seen state.new ≡ after_loss (seen state.old)) }
    ensures unchanged { OnErr result (seen state.new ≡ seen state.old) }
{
    let acts = loss_acts(alloc, buffers, state)?;
    state.channels.clear();
    state.mask = Text::new(alloc);
    state.is_connected = false;
    state.is_registered = false;
    state.negotiation.lose(alloc);
    Ok(acts)
}
