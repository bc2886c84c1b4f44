//! What everyday commands come to, each by its form.

ghost use Rattle.std.specs.Option.{option_copied};
ghost use Rattle.std.specs.Prelude.{◌≡◌, ◌++◌, ◌∷◌, [], codes, drop, map, take, IfOk, OnOk};
ghost use Rattle.wc_irc.specs.Autojoin.{message};
ghost use Rattle.wc_irc.specs.CommandActs.{Sends, SendsLine, Speaks, reason_params};
ghost use Rattle.wc_irc.specs.CommandActs.{words_line, text_line, with_channel, nick_and_channel};
ghost use Rattle.wc_irc.specs.CommandActs.{mode_sign, mode_letters, mode_params, fours, modes_of};
ghost use Rattle.wc_irc.specs.CommandActs.{ban_and_kick};
ghost use Rattle.wc_irc.specs.CommandActs.{part_and_join, request, is_right, form_errand};
ghost use Rattle.wc_irc.specs.CommandActs.{everyday_errand};
ghost use Rattle.wc_irc.specs.CommandSeen.{place_seen, errand_seen, leading_in};
ghost use Rattle.wc_text.specs.Splits.{word_of, rest_of};
ghost use Rattle.wc_text.specs.Words.{words_of, is_filled};

use crate::errand::{Errand, may_lead, no_channel, put_params, put_words, send, wrong_arguments};
use crate::place::Place;
use std::alloc::Global;
use wc_irc_texts::joined;
use wc_irc_words::{Everyday, Form, are_few_words, is_target};
use wc_text::{Items, NoMemory, Text, cut_word};

/// The most names of a mode command.
const MOST_NAMES: u32 = 100;

/// The most names of a line, of which a server takes three at least (RFC 2812).
const NAMES_OF_LINE: usize = 4;

// ---- lines

fn words_line(alloc: Global, command: &[u8], text: &[u8]) -> Result<Text, NoMemory>
    ensures { IfOk result (λ line. line ≡ words_line command.now text.now) }
{
    if text.is_empty() {
        Text::from_slice(alloc, command)
    } else {
        joined(alloc, &[command, b" ", text])
    }
}

fn text_line(alloc: Global, front: &[u8], text: &[u8]) -> Result<Text, NoMemory>
    ensures { IfOk result (λ line. line ≡ text_line front.now text.now) }
{
    if text.is_empty() {
        Text::from_slice(alloc, front)
    } else {
        joined(alloc, &[front, b" :", text])
    }
}

/// The command with the words after it.
fn send_line<'a>(alloc: Global, command: &[u8], text: &'a [u8]) -> Result<Errand<'a>, NoMemory>
    ensures { IfOk result (λ errand. errand_seen errand
        ≡ SendsLine (words_line command.now text.now)) }
{
    Ok(Errand::Line(words_line(alloc, command, text)?))
}

/// The command with a text as its last parameter.
fn send_text<'a>(alloc: Global, front: &[u8], text: &'a [u8]) -> Result<Errand<'a>, NoMemory>
    ensures { IfOk result (λ errand. errand_seen errand
        ≡ SendsLine (text_line front.now text.now)) }
{
    Ok(Errand::Line(text_line(alloc, front, text)?))
}

fn word_and_text<'a>(alloc: Global, command: &[u8], text: &'a [u8]) -> Result<Errand<'a>, NoMemory>
    ensures { IfOk result (λ errand. errand_seen errand
        ≡ SendsLine (text_line (words_line command.now (word_of text.now)) (rest_of text.now))) }
{
    let (word, rest) = cut_word(text);
    let front = words_line(alloc, command, word)?;
    send_text(alloc, front.as_slice(), rest)
}

// ---- messages of a channel

/// The channel of the buffer, where it can be sent before others.
fn leading(channel: Option<&[u8]>) -> Option<&[u8]>
    ensures { option_copied result ≡ leading_in (option_copied channel.entry) }
{
    match channel {
        Some(channel) if may_lead(channel, &[b""]) => Some(channel),
        _ => None,
    }
}

/// A nick and the channel that is named after it, or else that of the buffer.
fn nick_and_channel<'a>(
    alloc: Global,
    command: &'static [u8],
    here: Option<&[u8]>,
    text: &'a [u8],
) -> Result<Errand<'a>, NoMemory>
    ensures { IfOk result (λ errand. errand_seen errand ≡ nick_and_channel command.now
        (option_copied here.entry) (word_of text.now) (word_of (rest_of text.now))) }
{
    let (nick, rest) = cut_word(text);
    let (channel, _) = cut_word(rest);
    if !channel.is_empty() {
        return send(alloc, command, &[nick, channel]);
    }
    match leading(here) {
        Some(channel) => send(alloc, command, &[nick, channel]),
        None => no_channel(alloc),
    }
}

/// What modes begin with, where they are added or taken away.
fn sign(adds: bool) -> u8
    ensures { result ≡ mode_sign adds }
{
    if adds { b'+' } else { b'-' }
}

/// The letter once for each name, after its sign.
fn mode_letters(alloc: Global, adds: bool, letter: u8, names: &[Text]) -> Result<Text, NoMemory>
    ensures { IfOk result (λ letters. letters ≡ mode_letters adds letter names.now) }
{
    let mut letters = Text::from_slice(alloc, &[sign(adds)])?;
    for _ in names {
        letters.append(&[letter])?;
    }
    Ok(letters)
}

fn put_names(params: &mut Items<Text>, alloc: Global, names: &[Text]) -> Result<(), NoMemory>
    ensures { OnOk result (params.new ≡ params.old ++ names.now) }
{
    for name in names {
        params.push(name.copy(alloc)?)?;
    }
    Ok(())
}

/// The parameters of a line with these names.
fn mode_params(
    alloc: Global,
    adds: bool,
    letter: u8,
    channel: &[u8],
    names: &[Text],
) -> Result<Items<Text>, NoMemory>
    ensures { IfOk result (λ params. params ≡ mode_params adds letter channel.now names.now) }
{
    let letters = mode_letters(alloc, adds, letter, names)?;
    let mut params = Items::new(alloc);
    put_params(&mut params, alloc, &[channel, letters.as_slice()])?;
    drop(letters);
    put_names(&mut params, alloc, names)?;
    Ok(params)
}

/// The first four names, and those after them.
#[tactic(auto, using(crate::proofs::FourLemmas::few_names))]
fn cut_four(names: &[Text]) -> (&[Text], &[Text])
    ensures first { result.0.now ≡ take 4 names.now }
    ensures rest { result.1.now ≡ drop 4 names.now }
{
    if names.len() <= NAMES_OF_LINE {
        return (names, &[]);
    }
    names.split_at(NAMES_OF_LINE)
}

/// The parameters of each line.
fn each_params(
    alloc: Global,
    adds: bool,
    letter: u8,
    channel: &[u8],
    names: &[Text],
) -> Result<Items<Items<Text>>, NoMemory>
    ensures { IfOk result (λ each. each
        ≡ map (mode_params adds letter channel.now) (fours names.now)) }
{
    let mut each = Items::new(alloc);
    let mut rest = names;
    while !rest.is_empty() {
        let (four, others) = cut_four(rest);
        each.push(mode_params(alloc, adds, letter, channel, four)?)?;
        rest = others;
    }
    Ok(each)
}

fn modes_of<'a>(
    alloc: Global,
    adds: bool,
    letter: u8,
    names: &'a [u8],
    channel: Option<&[u8]>,
) -> Result<Errand<'a>, NoMemory>
    ensures { IfOk result (λ errand. errand_seen errand
        ≡ with_channel (modes_of adds letter (words_of names.now)) (option_copied channel.entry)) }
{
    let Some(channel) = leading(channel) else {
        return no_channel(alloc);
    };
    let mut own = Items::new(alloc);
    put_words(&mut own, alloc, names)?;
    let each = each_params(alloc, adds, letter, channel, own.as_slice())?;
    Ok(Errand::SendEach {
        command: b"MODE",
        each,
    })
}

/// A channel, a word, and a reason where there is one, as parameters.
fn with_reason(alloc: Global, front: &[&[u8]], reason: &[u8]) -> Result<Items<Text>, NoMemory>
    ensures { IfOk result (λ params. params
        ≡ map (λ word. word.now) front.now ++ reason_params reason.now) }
{
    let mut params = Items::new(alloc);
    put_params(&mut params, alloc, front)?;
    if !reason.is_empty() {
        params.push(Text::from_slice(alloc, reason)?)?;
    }
    Ok(params)
}

fn ban_params(alloc: Global, channel: &[u8], nick: &[u8]) -> Result<Items<Text>, NoMemory>
    ensures { IfOk result (λ params. params
        ≡ channel.now ∷ codes "+b" ∷ (nick.now ++ codes "!*@*") ∷ []) }
{
    let mut params = Items::new(alloc);
    put_params(&mut params, alloc, &[channel, b"+b"])?;
    params.push(joined(alloc, &[nick, b"!*@*"])?)?;
    Ok(params)
}

/// The nick is kept out of the channel and taken out of it.
fn ban_and_kick<'a>(
    alloc: Global,
    text: &'a [u8],
    channel: Option<&[u8]>,
) -> Result<Errand<'a>, NoMemory>
    ensures { IfOk result (λ errand. errand_seen errand ≡ with_channel
        (ban_and_kick (word_of text.now) (rest_of text.now)) (option_copied channel.entry)) }
{
    let (nick, reason) = cut_word(text);
    let Some(channel) = leading(channel) else {
        return no_channel(alloc);
    };
    let params = ban_params(alloc, channel, nick)?;
    let others = with_reason(alloc, &[channel, nick], reason)?;
    Ok(Errand::SendBoth {
        first: b"MODE",
        params,
        second: b"KICK",
        others,
    })
}

/// The channel is left and joined again.
fn part_and_join<'a>(
    alloc: Global,
    reason: &'a [u8],
    channel: Option<&[u8]>,
) -> Result<Errand<'a>, NoMemory>
    ensures { IfOk result (λ errand. errand_seen errand
        ≡ with_channel (part_and_join reason.now) (option_copied channel.entry)) }
{
    let Some(channel) = leading(channel) else {
        return no_channel(alloc);
    };
    let params = with_reason(alloc, &[channel], reason)?;
    let others = with_reason(alloc, &[channel], &[])?;
    Ok(Errand::SendBoth {
        first: b"PART",
        params,
        second: b"JOIN",
        others,
    })
}

// ---- requests between clients

fn request<'a>(alloc: Global, text: &'a [u8]) -> Result<Errand<'a>, NoMemory>
    ensures { IfOk result (λ errand. errand_seen errand
        ≡ Speaks (word_of text.now) (request (rest_of text.now))) }
{
    let (target, said) = cut_word(text);
    let text = joined(alloc, &[b"\x01", said, b"\x01"])?;
    Ok(Errand::Speak { target, text })
}

// ---- forms

/// Whether what comes after the name has its form.
fn is_right(form: Form, text: &[u8]) -> bool
    ensures { result ≡ is_right form text.now }
{
    let (word, rest) = cut_word(text);
    match form {
        Form::Words | Form::Text | Form::PartAndJoin => true,
        Form::SomeWords => !text.is_empty(),
        Form::WordAndText | Form::BanAndKick => is_target(word),
        Form::NickAndChannel => is_target(word) && cut_word(rest).1.is_empty(),
        Form::Modes(_, _) => are_few_words(text, MOST_NAMES),
        Form::Request => is_target(word) && !rest.is_empty(),
    }
}

/// What a command of this form is for.
fn of_form<'a>(
    alloc: Global,
    place: Place<'_>,
    form: Form,
    command: &'static [u8],
    text: &'a [u8],
) -> Result<Errand<'a>, NoMemory>
    ensures { IfOk result (λ errand. errand_seen errand
        ≡ form_errand (place_seen place.entry) form command.now text.now) }
{
    match form {
        Form::Words | Form::SomeWords => send_line(alloc, command, text),
        Form::Text => send_text(alloc, command, text),
        Form::WordAndText => word_and_text(alloc, command, text),
        Form::NickAndChannel => nick_and_channel(alloc, command, place.channel(), text),
        Form::Modes(adds, letter) => modes_of(alloc, adds, letter, text, place.channel()),
        Form::BanAndKick => ban_and_kick(alloc, text, place.channel()),
        Form::Request => request(alloc, text),
        Form::PartAndJoin => part_and_join(alloc, text, place.channel()),
    }
}

/// What an everyday command is for: the line of its form, or the refusal of what has another form.
#[tactic(auto, unfolding(crate::specs::CommandActs::everyday_errand))]
pub(crate) fn everyday<'a>(
    alloc: Global,
    place: Place<'_>,
    word: Everyday,
    text: &'a [u8],
) -> Result<Errand<'a>, NoMemory>
    ensures { IfOk result (λ errand. errand_seen errand
        ≡ everyday_errand (place_seen place.entry) word text.now) }
{
    if !is_right(word.form(), text) {
        return wrong_arguments(alloc, word.name());
    }
    of_form(alloc, place, word.form(), word.command(), text)
}
