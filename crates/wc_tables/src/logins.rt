//! Calls on the logins of relay clients.

ghost use Rattle.std.specs.Prelude.{◌≤◌, IfOk};

use std::alloc::Global;
use wc_notation::{Sheet, Wrong, cut_word, two_texts, unescape};
use wc_relaycmd::{
    Algorithm, Command, Login, Request, check_login, choose_algorithm, pbkdf2_sha256,
    pbkdf2_sha512, read_login, read_request,
};
use wc_text::{Items, NoMemory, Pair, Text};

/// What a login is held against.
#[derive(Drop)]
struct Wanted {
    chosen: Algorithm,
    nonce: [u8; 16],
    password: Text,
}

fn algorithm_named(name: &str) -> Result<Algorithm, Wrong> {
    match name {
        "plain" => Ok(Algorithm::Plain),
        "sha256" => Ok(Algorithm::Sha256),
        "sha512" => Ok(Algorithm::Sha512),
        "pbkdf2+sha256" => Ok(Algorithm::Pbkdf2Sha256),
        "pbkdf2+sha512" => Ok(Algorithm::Pbkdf2Sha512),
        _ => Err(Wrong::Word),
    }
}

fn nonce(word: &str) -> Result<[u8; 16], Wrong> {
    match word.as_bytes().as_array::<16>() {
        Some(nonce) => Ok(*nonce),
        None => Err(Wrong::Number),
    }
}

/// What the first three words of a text write, and what is after them.
fn read_wanted(alloc: Global, text: &str) -> Result<(Wanted, &str), Wrong> {
    let (name, following) = cut_word(text);
    let (bytes, rest) = cut_word(following);
    let (password, line) = cut_word(rest);
    let chosen = algorithm_named(name)?;
    let nonce = nonce(bytes)?;
    let password = unescape(alloc, password)?;
    let wanted = Wanted {
        chosen,
        nonce,
        password,
    };
    Ok((wanted, line))
}

fn put_decision(out: &mut Sheet, wanted: &Wanted, login: &Login) {
    let password = wanted.password.as_slice();
    let is_in = check_login(login, password, &wanted.nonce, wanted.chosen);
    out.put_either(is_in, "let in", "kept out");
}

fn put_outcome(out: &mut Sheet, wanted: &Wanted, login: &Result<Option<Login>, NoMemory>) {
    match login {
        Ok(Some(login)) => put_decision(out, wanted, login),
        Ok(None) => out.put("no login"),
        Err(NoMemory) => out.lack(),
    }
}

fn put_login(alloc: Global, wanted: &Wanted, pairs: &Items<Pair>, out: &mut Sheet) {
    let login = read_login(alloc, pairs);
    put_outcome(out, wanted, &login);
}

fn put_command(
    alloc: Global,
    wanted: &Wanted,
    command: &Command,
    out: &mut Sheet,
) -> Result<(), Wrong> {
    match command {
        Command::Init(pairs) => put_login(alloc, wanted, pairs, out),
        _ => return Err(Wrong::Word),
    }
    Ok(())
}

fn put_reading(
    alloc: Global,
    wanted: &Wanted,
    request: &Result<Option<Request>, NoMemory>,
    out: &mut Sheet,
) -> Result<(), Wrong> {
    match request {
        Ok(Some(request)) => put_command(alloc, wanted, &request.command, out),
        Ok(None) => Err(Wrong::Word),
        Err(NoMemory) => Err(Wrong::NoMemory),
    }
}

fn put_line(alloc: Global, wanted: &Wanted, line: &[u8], out: &mut Sheet) -> Result<(), Wrong> {
    let request = read_request(alloc, line, false);
    put_reading(alloc, wanted, &request, out)
}

fn put_text(alloc: Global, wanted: &Wanted, text: &str, out: &mut Sheet) -> Result<(), Wrong> {
    let line = unescape(alloc, text)?;
    put_line(alloc, wanted, line.as_slice(), out)
}

/// Whether the line of a client is let in, after the algorithm, the nonce and the password.
pub fn login(alloc: Global, rest: &str, out: &mut Sheet) -> Result<(), Wrong> {
    let (wanted, line) = read_wanted(alloc, rest)?;
    put_text(alloc, &wanted, line, out)
}

fn algorithm_name(algorithm: Algorithm) -> &'static str {
    match algorithm {
        Algorithm::Plain => "plain",
        Algorithm::Sha256 => "sha256",
        Algorithm::Sha512 => "sha512",
        Algorithm::Pbkdf2Sha256 => "pbkdf2+sha256",
        Algorithm::Pbkdf2Sha512 => "pbkdf2+sha512",
    }
}

/// The algorithm that is chosen of those that a client offers and those that are allowed.
pub fn algorithm(alloc: Global, rest: &str, out: &mut Sheet) -> Result<(), Wrong> {
    let (offered, allowed) = two_texts(alloc, rest)?;
    match choose_algorithm(offered.as_slice(), allowed.as_slice()) {
        Some(chosen) => out.put(algorithm_name(chosen)),
        None => out.put("none in common"),
    }
    Ok(())
}

fn put_digits(out: &mut Sheet, bytes: &[u8]) {
    for byte in bytes {
        let written = write!(out.text, "{byte:02x}");
        out.note(written);
    }
}

fn rounds_of(word: &str) -> Result<u32, Wrong>
    ensures { IfOk result (λ rounds. 1 ≤ rounds) }
{
    match word.parse::<u32>() {
        Ok(rounds) if rounds > 0 => Ok(rounds),
        _ => Err(Wrong::Number),
    }
}

fn put_key(
    out: &mut Sheet,
    hash: &str,
    password: &[u8],
    salt: &[u8],
    rounds: u32,
) -> Result<(), Wrong>
    requires { 1 ≤ rounds }
{
    match hash {
        "sha256" => put_digits(out, &pbkdf2_sha256(password, salt, rounds)),
        "sha512" => put_digits(out, &pbkdf2_sha512(password, salt, rounds)),
        _ => return Err(Wrong::Word),
    }
    Ok(())
}

/// The key of a password and a salt in so many rounds, in hex.
pub fn key(alloc: Global, rest: &str, out: &mut Sheet) -> Result<(), Wrong> {
    let (hash, following) = cut_word(rest);
    let (count, texts) = cut_word(following);
    let rounds = rounds_of(count)?;
    let (password, salt) = two_texts(alloc, texts)?;
    put_key(out, hash, password.as_slice(), salt.as_slice(), rounds)
}
