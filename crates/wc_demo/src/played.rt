//! Whether sockets gave what a script has, step by step.

ghost use Rattle.std.specs.Prelude.{◌≡◌, true, map};
ghost use Rattle.wc_demo.specs.Script.{client, given_as};

use crate::steps::CLIENT;
use wc_outside::Happening;
use wc_scripted::Scripted;
use wc_text::{LinkId, Text};

/// Whether it is the return of a wait at this moment.
fn is_woken(moment: u64, happening: &Happening) -> bool
    ensures holds { result ≡ true → happening.now ≡ Happening.Woke moment }
    ensures only { happening.now ≡ Happening.Woke moment → result ≡ true }
{
    match happening {
        Happening::Woke(at) => *at == moment,
        _ => false,
    }
}

/// Whether it is the arrival of the client with this nonce.
fn is_arrived(nonce: &[u8; 16], happening: &Happening) -> bool
    ensures holds { result ≡ true → happening.now ≡ Happening.Accepted client nonce.now }
    ensures only { happening.now ≡ Happening.Accepted client nonce.now → result ≡ true }
{
    match happening {
        Happening::Accepted(link, other) => *link == CLIENT && other == nonce,
        _ => false,
    }
}

/// Whether it is that this connection stands.
fn is_connected(link: LinkId, happening: &Happening) -> bool
    ensures holds { result ≡ true → happening.now ≡ Happening.Connected link }
    ensures only { happening.now ≡ Happening.Connected link → result ≡ true }
{
    match happening {
        Happening::Connected(other) => *other == link,
        _ => false,
    }
}

/// Whether it is the read of these bytes on this link.
fn is_read(link: LinkId, bytes: &Text, happening: &Happening) -> bool
    ensures holds { result ≡ true → happening.now ≡ Happening.Read link bytes.now }
    ensures only { happening.now ≡ Happening.Read link bytes.now → result ≡ true }
{
    match happening {
        Happening::Read(other, piece) => *other == link && piece.as_slice() == bytes.as_slice(),
        _ => false,
    }
}

/// Whether it is the end of this link.
fn is_ended(link: LinkId, happening: &Happening) -> bool
    ensures holds { result ≡ true → happening.now ≡ Happening.Ended link }
    ensures only { happening.now ≡ Happening.Ended link → result ≡ true }
{
    match happening {
        Happening::Ended(other) => *other == link,
        _ => false,
    }
}

/// Whether a step was given as this.
fn is_given(step: &Scripted, happening: &Happening) -> bool
    ensures holds { result ≡ true → happening.now ≡ given_as step.now }
    ensures only { happening.now ≡ given_as step.now → result ≡ true }
{
    match step {
        Scripted::Wake(moment) => is_woken(*moment, happening),
        Scripted::Arrive(nonce) => is_arrived(nonce, happening),
        Scripted::Stands(link) => is_connected(*link, happening),
        Scripted::Gives(link, bytes) => is_read(*link, bytes, happening),
        Scripted::Ends(link) => is_ended(*link, happening),
    }
}

/// Whether what sockets gave is each step in turn, all of them and nothing else.
#[tactic(auto, using(crate::proofs::PlayedLemmas::played_facts))]
pub fn is_played(steps: &[Scripted], taken: &[Happening]) -> bool
    ensures holds { result ≡ true → taken.now ≡ map given_as steps.now }
    ensures only { taken.now ≡ map given_as steps.now → result ≡ true }
{
    if steps.len() != taken.len() {
        return false;
    }
    for place in 0..steps.len() {
        if !is_given(&steps[place], &taken[place]) {
            return false;
        }
    }
    true
}
