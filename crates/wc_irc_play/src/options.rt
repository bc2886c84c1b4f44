//! What commands ask of the options of servers, and why they are refused.

use crate::sheet::Sheet;
use crate::stage::{Stage, utf8};
use std::alloc::Global;
use wc_irc::{connect_refusal, delete_refusal, server_settings};
use wc_notation::{Wrong, cut_word};
use wc_text::{Items, NoMemory, Pair, Text};

/// Whether a word says that TLS is to be used, or is not.
fn tls_of(word: &str) -> Option<bool> {
    match word {
        "tls" => Some(true),
        "plain" => Some(false),
        _ => None,
    }
}

fn put_settings(out: &mut Sheet, made: Result<Items<Pair>, NoMemory>) {
    let Ok(pairs) = made else {
        return out.lack();
    };
    for pair in pairs.as_slice() {
        out.put_two("sets", pair.name.as_slice(), pair.value.as_slice());
        out.put("\n");
    }
}

/// Writes the options that are to be set.
fn settings(alloc: Global, rest: &str, out: &mut Sheet) -> Result<(), Wrong> {
    let (name, rest) = cut_word(rest);
    let (address, tls) = cut_word(rest);
    let name = utf8(alloc, name)?;
    let address = utf8(alloc, address)?;
    let made = server_settings(alloc, name.as_slice(), address.as_slice(), tls_of(tls));
    put_settings(out, made);
    Ok(())
}

fn put_refusal(out: &mut Sheet, refusal: Result<Option<Text>, NoMemory>) {
    match refusal {
        Ok(Some(text)) => out.put_quoted(text.as_slice()),
        Ok(None) => out.put("not refused"),
        Err(NoMemory) => out.lack(),
    }
}

/// Writes why a server is not deleted.
fn delete(
    alloc: Global,
    stage: &Stage,
    is_linked: bool,
    name: &str,
    out: &mut Sheet,
) -> Result<(), Wrong> {
    let name = utf8(alloc, name)?;
    let refusal = delete_refusal(alloc, &stage.options, is_linked, name.as_slice());
    put_refusal(out, refusal);
    Ok(())
}

/// Writes why a server is not connected.
fn connect(
    alloc: Global,
    stage: &Stage,
    is_linked: bool,
    name: &str,
    out: &mut Sheet,
) -> Result<(), Wrong> {
    let name = utf8(alloc, name)?;
    let refusal = connect_refusal(alloc, &stage.options, is_linked, name.as_slice());
    put_refusal(out, refusal);
    Ok(())
}

/// Writes the answer of a call on the options of servers.
pub fn options_answer(
    alloc: Global,
    stage: &Stage,
    call: &str,
    rest: &str,
    out: &mut Sheet,
) -> Result<(), Wrong> {
    match call {
        "settings" => settings(alloc, rest, out),
        "delete" => delete(alloc, stage, false, rest, out),
        "delete-linked" => delete(alloc, stage, true, rest, out),
        "connect" => connect(alloc, stage, false, rest, out),
        "connect-linked" => connect(alloc, stage, true, rest, out),
        _ => Err(Wrong::Word),
    }
}
