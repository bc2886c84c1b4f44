ghost use Rattle.std.specs.Prelude.{◌≡◌, ◌++◌, ◌∷◌, [], true, codes, IfOk, OnOk, OnErr};
ghost use Rattle.std.specs.Str.{IsUtf8};
ghost use Rattle.hex.specs.Hex.{encode_upper};
ghost use Rattle.wc_objects.specs.Forms.{well_formed};
ghost use Rattle.wc_session.specs.Handshakes.{choice_in, first_choice, asks_escapes};
ghost use Rattle.wc_session.specs.Handshakes.{name_of_choice, switch};
ghost use Rattle.wc_session.specs.Handshakes.{entry, handshake_table, handshake_objects};
ghost use Rattle.wc_session.specs.Reply.{shaken, handshake_answer};
ghost use Rattle.wc_session.specs.Served.{GivesAnswer};

use crate::client::Client;
use crate::outcome::Outcome;
use crate::served::give;
use bytes::BytesMut;
use std::alloc::Global;
use wc_objects::{Kind, Object};
use wc_relaycmd::{Algorithm, choose_algorithm, last_value};
use wc_text::{Cause, Items, NoMemory, Pair, Text};

/// The algorithm of a client that said nothing: `plain`, where a mask allows it.
#[tactic(auto, unfolding(crate::specs::Handshakes::first_choice))]
pub fn first_choice(masks: &[u8]) -> Option<Algorithm>
    ensures { result ≡ first_choice masks.now }
{
    choose_algorithm(b"plain", masks)
}

/// The algorithm that a handshake settles: the strongest of the client's list that a mask allows.
/// The list is `plain` where it is not given.
#[tactic(auto, unfolding(crate::specs::Handshakes::choice_in))]
fn choice_in(masks: &[u8], pairs: &Items<Pair>) -> Option<Algorithm>
    ensures { result ≡ choice_in masks.now pairs.now }
{
    match last_value(pairs, b"password_hash_algo") {
        Some(offered) => choose_algorithm(offered.as_slice(), masks),
        None => choose_algorithm(b"plain", masks),
    }
}

#[tactic(auto, unfolding(crate::specs::Handshakes::asks_escapes))]
fn asks_escapes(pairs: &Items<Pair>) -> bool
    ensures { result ≡ asks_escapes pairs.now }
{
    match last_value(pairs, b"escape_commands") {
        Some(value) => value.as_slice() == b"on".as_slice(),
        None => false,
    }
}

fn name_of_choice(choice: Option<Algorithm>) -> &'static [u8]
    ensures { result.now ≡ name_of_choice choice }
{
    match choice {
        Some(algorithm) => algorithm.name(),
        None => b"",
    }
}

fn switch(on: bool) -> &'static [u8]
    ensures { result.now ≡ switch on }
{
    if on { b"on" } else { b"off" }
}

fn entry(alloc: Global, name: &[u8], value: &[u8]) -> Result<(Object, Object), NoMemory>
    ensures { IfOk result (λ pair. pair ≡ entry name.now value.now) }
{
    let name = Text::from_slice(alloc, name)?;
    let value = Text::from_slice(alloc, value)?;
    Ok((Object::Str(Some(name)), Object::Str(Some(value))))
}

/// Puts an entry after the others.
fn put(
    table: &mut Items<(Object, Object)>,
    alloc: Global,
    name: &[u8],
    value: &[u8],
) -> Result<(), NoMemory>
    ensures { OnOk result (table.new ≡ table.old ++ entry name.now value.now ∷ []) }
{
    table.push(entry(alloc, name, value)?)
}

fn put_nonce(
    table: &mut Items<(Object, Object)>,
    alloc: Global,
    nonce: &[u8],
) -> Result<(), NoMemory>
    ensures { OnOk result
        (table.new ≡ table.old ++ entry (codes "nonce") (encode_upper nonce.now) ∷ []) }
{
    let digits = hex::encode_upper(alloc, nonce)?;
    put(table, alloc, b"nonce", digits.as_bytes())
}

#[tactic(auto, unfolding(crate::specs::Handshakes::handshake_table))]
fn put_all(
    table: &mut Items<(Object, Object)>,
    alloc: Global,
    nonce: &[u8],
    choice: Option<Algorithm>,
    escapes: bool,
) -> Result<(), NoMemory>
    requires { table.old ≡ [] }
    ensures { OnOk result (table.new ≡ handshake_table nonce.now choice escapes) }
{
    put(table, alloc, b"password_hash_algo", name_of_choice(choice))?;
    put(table, alloc, b"password_hash_iterations", b"100000")?;
    put(table, alloc, b"totp", b"off")?;
    put_nonce(table, alloc, nonce)?;
    put(table, alloc, b"compression", b"off")?;
    put(table, alloc, b"escape_commands", switch(escapes))
}

fn handshake_table(
    alloc: Global,
    nonce: &[u8],
    choice: Option<Algorithm>,
    escapes: bool,
) -> Result<Items<(Object, Object)>, NoMemory>
    ensures { IfOk result (λ table. table ≡ handshake_table nonce.now choice escapes) }
{
    let mut table = Items::new(alloc);
    put_all(&mut table, alloc, nonce, choice, escapes)?;
    Ok(table)
}

/// The object of the reply.
fn handshake_objects(
    alloc: Global,
    nonce: &[u8],
    choice: Option<Algorithm>,
    escapes: bool,
) -> Result<[Object; 1], NoMemory>
    ensures objects { IfOk result
        (λ objects. objects ≡ handshake_objects nonce.now choice escapes) }
    ensures formed { IfOk result (λ objects. well_formed objects ≡ true) }
{
    let pairs = handshake_table(alloc, nonce, choice, escapes)?;
    Ok([Object::Htb {
        key: Kind::Str,
        value: Kind::Str,
        pairs,
    }])
}

/// Takes note of a handshake, which settles nothing after login.
#[tactic(auto, unfolding(crate::specs::Reply::shaken))]
fn settle(client: &mut Client, masks: &[u8], pairs: &Items<Pair>)
    ensures { client.new ≡ shaken masks.now client.old pairs.now }
{
    if !client.logged_in {
        client.chosen = choice_in(masks, pairs);
        client.escaped = asks_escapes(pairs);
    }
}

/// Serves `handshake`: it is answered, and before login it settles the algorithm, which a mask
/// allows, and the escapes, or drops the client where there is no common algorithm. Where memory is refused nothing changes.
#[tactic(auto, unfolding(crate::specs::Reply::handshake_answer))]
pub fn shake(
    alloc: Global,
    out: &mut BytesMut,
    client: &mut Client,
    masks: &[u8],
    id: &[u8],
    pairs: &Items<Pair>,
) -> Result<Outcome, NoMemory>
    requires { IsUtf8 id.now }
    ensures ok { IfOk result (λ outcome. GivesAnswer out.old.items out.new.items outcome client.new
        (handshake_answer masks.now client.old id.now pairs.now)) }
    ensures err { OnErr result (out.new.items ≡ out.old.items) }
    ensures still { OnErr result (client.new ≡ client.old) }
{
    let choice = choice_in(masks, pairs);
    let nonce = client.nonce;
    let objects = handshake_objects(alloc, nonce.as_slice(), choice, asks_escapes(pairs))?;
    let outcome = give(alloc, out, id, objects.as_slice())?;
    let leaves = !client.logged_in && choice.is_none();
    settle(client, masks, pairs);
    if leaves {
        return Ok(Outcome::Leave(Cause::LoginFailed));
    }
    Ok(outcome)
}
