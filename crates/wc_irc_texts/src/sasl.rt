ghost use Rattle.base64.specs.Engines.{standard};
ghost use Rattle.base64.specs.GeneralPurpose.{encode_of};
ghost use Rattle.std.specs.Prelude.{◌≡◌, ◌++◌, ◌∷◌, [], IfOk, OnOk};
ghost use Rattle.wc_irc_texts.specs.Sasl.{credentials, response, last_piece, response_pieces};
ghost use Rattle.wc_irc_texts.specs.Sasl.{login_pieces};

use crate::line_text::joined;
use base64::engine::general_purpose::STANDARD;
use std::alloc::Global;
use wc_text::{Items, NoMemory, Text};

/// How many bytes of a response a line has (IRCv3).
const PIECE: usize = 400;

/// What stands for a piece without bytes.
const EMPTY: &[u8] = b"+";

/// No other name to act for, and after a NUL each the name and the password.
fn credentials(alloc: Global, user: &[u8], password: &[u8]) -> Result<Text, NoMemory>
    ensures { IfOk result (λ text. text ≡ credentials user.now password.now) }
{
    joined(alloc, &[b"\0", user, b"\0", password])
}

fn encoded(alloc: Global, bytes: &[u8]) -> Result<Text, NoMemory>
    ensures { IfOk result (λ text. text ≡ encode_of standard bytes.now) }
{
    let text = STANDARD.encode(alloc, bytes)?;
    Text::from_slice(alloc, text.as_bytes())
}

fn response(alloc: Global, user: &[u8], password: &[u8]) -> Result<Text, NoMemory>
    ensures { IfOk result (λ text. text ≡ response user.now password.now) }
{
    let bytes = credentials(alloc, user, password)?;
    encoded(alloc, bytes.as_slice())
}

fn last_piece(rest: &[u8]) -> &[u8]
    ensures { result.now ≡ last_piece rest.now }
{
    if rest.is_empty() { EMPTY } else { rest }
}

fn put_piece(pieces: &mut Items<Text>, alloc: Global, piece: &[u8]) -> Result<(), NoMemory>
    ensures { OnOk result (pieces.new ≡ pieces.old ++ piece.now ∷ []) }
{
    pieces.push(Text::from_slice(alloc, piece)?)
}

#[tactic(auto, using(crate::proofs::SaslLemmas::end_piece))]
fn response_pieces(alloc: Global, text: &[u8]) -> Result<Items<Text>, NoMemory>
    ensures { IfOk result (λ pieces. pieces ≡ response_pieces text.now) }
{
    let mut pieces = Items::new(alloc);
    let mut rest = text;
    while rest.len() >= PIECE {
        let (piece, others) = rest.split_at(PIECE);
        put_piece(&mut pieces, alloc, piece)?;
        rest = others;
    }
    put_piece(&mut pieces, alloc, last_piece(rest))?;
    Ok(pieces)
}

/// What a login by SASL PLAIN says (RFC 4616): the name and the password by base64 (RFC 4648), in
/// pieces of 400 bytes. The last piece is shorter, and where nothing is left it is `+` (IRCv3).
pub fn login_pieces(alloc: Global, user: &[u8], password: &[u8]) -> Result<Items<Text>, NoMemory>
    ensures { IfOk result (λ pieces. pieces ≡ login_pieces user.now password.now) }
{
    let text = response(alloc, user, password)?;
    response_pieces(alloc, text.as_slice())
}
