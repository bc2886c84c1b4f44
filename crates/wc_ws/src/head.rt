//! The head of a handshake: found, read and answered.
ghost use Rattle.std.specs.Prelude.{◌≡◌, ◌≤◌, ◌+◌, ◌++◌, ℕ, List, [], length, true, false, None};
ghost use Rattle.std.specs.Prelude.{IfOk, IfErr, OnOk, OnErr, IfSome};
ghost use Rattle.httparse.specs.Grammar.{ReadsRequest, RequestHead};
ghost use Rattle.httparse.specs.Spans.{IsRequestAt, IsRequestWithin};
ghost use Rattle.websocket.specs.Handshake.{accept_key_of};
ghost use Rattle.wc_ws.specs.Head.{FirstEmptyLine, IsUpgrade, head_answer, HeadTaken, HeadWaits};
ghost use Rattle.wc_ws.specs.Head.{HeadRefused, AnswerRefused};

use crate::names::WsRefused;
use bytes::BytesMut;
use httparse::Status;
use httparse::spans::{EMPTY_HEADER_SPAN, HeaderSpan, RequestSpans, parse_request};
use memchr::memmem;
use websocket::handshake::server::{check_request, write_response};

/// How many bytes a head has at most.
const HEAD_LIMIT: usize = 8192;

/// How many fields a head has at most.
const FIELD_LIMIT: usize = 128;

/// The end of a line, and the empty line that follows.
const EMPTY_LINE: &[u8] = b"\r\n\r\n";

/// Takes the head off what was fed and answers it. It is false while the head is not whole.
#[tactic(auto, using(crate::proofs::HeadLemmas::head_refused))]
pub(crate) fn take_head(input: &mut BytesMut, output: &mut BytesMut) -> Result<bool, WsRefused>
    ensures taken { IfOk result (λ whole. whole ≡ true → HeadTaken input.old.items input.new.items
        output.old.items output.new.items) }
    ensures waits { IfOk result (λ whole. whole ≡ false → HeadWaits input.old.items input.new.items
        output.old.items output.new.items) }
    ensures refused { IfErr result (HeadRefused input.old.items) }
    ensures output { OnErr result (output.new.items ≡ output.old.items) }
{
    let place = match first_empty_line(input.as_slice()) {
        Some(place) => place,
        None if input.len() < HEAD_LIMIT => return Ok(false),
        None => return Err(WsRefused::HeadTooLong { limit: 8192 }),
    };
    answer_head(&input.as_slice()[..place + 4], output)?;
    input.advance(place + 4);
    Ok(true)
}

/// Where the first empty line within the limit is.
fn first_empty_line(input: &[u8]) -> Option<usize>
    ensures first { FirstEmptyLine input.now result }
    ensures fits { IfSome result (λ place. (place + 4 ≤ length input.now) × (place + 4 ≤ 8192)) }
{
    let within = &input[..HEAD_LIMIT.min(input.len())];
    memmem::find(within, EMPTY_LINE)
}

/// Puts the answer to a head after what is to be sent.
fn answer_head(head: &[u8], output: &mut BytesMut) -> Result<(), WsRefused>
    ensures ok { OnOk result ((key : List ℕ) × IsUpgrade head.now key
        × (output.new.items ≡ output.old.items ++ head_answer key)) }
    ensures err { OnErr result (output.new.items ≡ output.old.items) }
    ensures refused { IfErr result (AnswerRefused head.now) }
{
    let accept_key = match upgrade_answer(head) {
        Some(accept_key) => accept_key,
        None => return Err(WsRefused::BadHead),
    };
    // Each accept key can be sent, so memory alone may be wanting here.
    match write_response(&accept_key, &[], output) {
        Ok(()) => Ok(()),
        Err(_) => Err(WsRefused::NoMemory),
    }
}

/// The accept key that answers a head, where it asks for a WebSocket.
fn upgrade_answer(head: &[u8]) -> Option<[u8; 28]>
    ensures some { IfSome result (λ answer. (key : List ℕ) × IsUpgrade head.now key
        × (answer ≡ accept_key_of key)) }
    ensures none { result ≡ None → (key : List ℕ) → ¬ (IsUpgrade head.now key) }
{
    let mut spans = [EMPTY_HEADER_SPAN; FIELD_LIMIT];
    let request = whole_request(head, &mut spans)?;
    match check_request(head, &request, &spans) {
        Ok(answer) => Some(answer),
        Err(_) => None,
    }
}

/// Where the parts of a head are, which is a request and nothing more.
fn whole_request(head: &[u8], spans: &mut [HeaderSpan]) -> Option<RequestSpans>
    requires { length spans.old ≡ 128 }
    ensures within { IfSome result (IsRequestWithin head.now spans.new) }
    ensures some { IfSome result (λ spans_of. (request : RequestHead)
        × IsRequestAt head.now spans.new spans_of request
        × ReadsRequest head.now request [] × (length request.fields ≤ 128)) }
    ensures each { IfSome result (λ spans_of. (request : RequestHead)
        → ReadsRequest head.now request [] → length request.fields ≤ 128
        → IsRequestAt head.now spans.new spans_of request) }
    ensures none { result ≡ None → (request : RequestHead) → ReadsRequest head.now request []
        → length request.fields ≤ 128 → ⊥ }
{
    match parse_request(head, spans) {
        Ok(Status::Complete(request)) if request.len == head.len() => Some(request),
        _ => None,
    }
}
