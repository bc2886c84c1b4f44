//! Answers in words.

use std::alloc::AllocError;
use wc_notation::put_quoted;
use wc_ws::{WsGot, WsRefused};

/// How many bytes are shown at most; of more only the number is.
const SHOWN_LIMIT: usize = 400;

/// Writes bytes, or how many they are.
pub fn put_bytes(out: &mut String, bytes: &[u8]) -> Result<(), AllocError> {
    if bytes.len() > SHOWN_LIMIT {
        return write!(out, "{} bytes", bytes.len());
    }
    put_quoted(out, bytes)
}

/// Writes what `next` answered.
pub fn put_answer(out: &mut String, answer: &Result<WsGot, WsRefused>) -> Result<(), AllocError> {
    match answer {
        Ok(WsGot::Payload(payload)) => {
            out.push_str("payload ")?;
            put_bytes(out, payload.as_slice())
        }
        Ok(WsGot::Control) => out.push_str("control"),
        Ok(WsGot::NotYet) => out.push_str("not yet"),
        Ok(WsGot::Ended) => out.push_str("ended"),
        Err(why) => write!(out, "refused: {why}"),
    }
}

/// Whether there may be more answers without more bytes.
pub fn goes_on(answer: &Result<WsGot, WsRefused>) -> bool {
    matches!(answer, Ok(WsGot::Payload(_)) | Ok(WsGot::Control))
}
