ghost use Rattle.std.specs.Prelude.{◌≡◌, IfOk, OnErr};
ghost use Rattle.wc_session.specs.Handshakes.{algorithm_for};
ghost use Rattle.wc_session.specs.Logins.{lets_in, pairs_let_in};
ghost use Rattle.wc_session.specs.Reply.{init_answer};
ghost use Rattle.wc_session.specs.Served.{IsQuiet};

use crate::client::Client;
use crate::handshake::first_choice;
use crate::outcome::Outcome;
use std::alloc::Global;
use wc_relaycmd::{Algorithm, Login, check_login, read_login};
use wc_text::{Cause, Items, NoMemory, Pair};

fn lets_in(login: &Login, password: &[u8], nonce: &[u8; 16], chosen: Algorithm) -> bool
    ensures { result ≡ lets_in login.now password.now nonce.now chosen }
{
    check_login(login, password, nonce, chosen)
}

/// The algorithm by which a client has to prove that it knows the password: the one that its
/// handshake settled, and without one the first choice by these masks.
fn algorithm_for(masks: &[u8], chosen: Option<Algorithm>) -> Option<Algorithm>
    ensures { result ≡ algorithm_for masks.now chosen }
{
    match chosen {
        None => first_choice(masks),
        Some(algorithm) => Some(algorithm),
    }
}

/// Whether the pairs of `init` let the client in.
#[tactic(auto, unfolding(crate::specs::Logins::pairs_let_in))]
fn pairs_let_in(
    alloc: Global,
    pairs: &Items<Pair>,
    masks: &[u8],
    password: &[u8],
    client: &Client,
) -> Result<bool, NoMemory>
    ensures { IfOk result (λ let_in. let_in ≡ pairs_let_in pairs.now password.now client.now.nonce
        (algorithm_for masks.now client.now.chosen)) }
{
    let Some(login) = read_login(alloc, pairs)? else {
        return Ok(false);
    };
    let Some(chosen) = algorithm_for(masks, client.chosen) else {
        return Ok(false);
    };
    let nonce = client.nonce;
    Ok(lets_in(&login, password, &nonce, chosen))
}

/// Serves `init`: it lets the client in or drops it, and after login does nothing. Where memory is
/// refused the client stays as it was.
#[tactic(auto, unfolding(crate::specs::Reply::init_answer))]
pub fn log_in(
    alloc: Global,
    client: &mut Client,
    masks: &[u8],
    password: &[u8],
    pairs: &Items<Pair>,
) -> Result<Outcome, NoMemory>
    ensures ok { IfOk result (λ outcome. IsQuiet outcome client.new
        (init_answer masks.now password.now client.old pairs.now)) }
    ensures err { OnErr result (client.new ≡ client.old) }
{
    if client.logged_in {
        return Ok(Outcome::Silent);
    }
    if !pairs_let_in(alloc, pairs, masks, password, client)? {
        return Ok(Outcome::Leave(Cause::LoginFailed));
    }
    client.logged_in = true;
    Ok(Outcome::Silent)
}
