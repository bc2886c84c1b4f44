//! Frames: one is read from the front of what was fed, and answered where it asks for that.
ghost use Rattle.std.specs.Prelude.{◌≡◌, ◌⊎◌, true, IfOk, IfSome, OnErr, IfErr, Err, option_map};
ghost use Rattle.websocket.specs.declared.error.Error.{Error as WhyNot};
ghost use Rattle.websocket.specs.Connection.{read_step};
ghost use Rattle.websocket.specs.Content.{IsReceivedInside, HasValidText, received_content};
ghost use Rattle.wc_ws.specs.Link.{told, carries};
ghost use Rattle.wc_ws.specs.Parts.{StepsParts, IsSameSide};

use crate::names::{WsGot, WsRefused};
use bytes::BytesMut;
use std::alloc::Global;
use wc_text::{NoMemory, Text};
use websocket::error::Error;
use websocket::protocol::{FrameStatus, Message, NoMask, Received, WebSocketContext};

/// Reads the frame at the front of what was fed.
pub(crate) fn read_frame(
    alloc: Global,
    context: &mut WebSocketContext,
    input: &mut BytesMut,
    output: &mut BytesMut,
) -> Result<WsGot, WsRefused>
    ensures steps { IfOk result (StepsParts (read_step context.old input.old.items) context.old
        context.new input.old.items input.new.items output.old.items output.new.items) }
    ensures refused { IfErr result (λ why. (why ≡ WsRefused.NoMemory) ⊎ ((why ≡ WsRefused.BadFrame)
        × ((e : WhyNot) × (read_step context.old input.old.items ≡ Err e)))) }
    ensures output { OnErr result (output.new.items ≡ output.old.items) }
    ensures side { IsSameSide context.old context.new }
{
    let status = match context.read(input.as_mut_slice(), output, &mut NoMask) {
        Ok(status) => status,
        Err(Error::OutOfMemory) => return Err(WsRefused::NoMemory),
        Err(_) => return Err(WsRefused::BadFrame),
    };
    let step = match status {
        FrameStatus::Partial(_) => return Ok(WsGot::NotYet),
        FrameStatus::Complete(step) => step,
    };
    match told_of(alloc, &step.message, input.as_slice()) {
        Ok(got) => {
            input.advance(step.consumed);
            Ok(got)
        }
        Err(NoMemory) => Err(WsRefused::NoMemory),
    }
}

/// What the reader is told of a message.
fn told_of(alloc: Global, message: &Option<Received>, input: &[u8]) -> Result<WsGot, NoMemory>
    requires inside { IfSome message.now (IsReceivedInside input.now) }
    requires text { IfSome message.now (λ m. HasValidText (received_content input.now m)) }
    ensures told { IfOk result (λ got. got ≡ told (option_map (received_content input.now)
        message.now)) }
    ensures err { OnErr result (carries (option_map (received_content input.now) message.now)
        ≡ true) }
{
    let Some(received) = message else {
        return Ok(WsGot::Control);
    };
    match received.message(input) {
        Message::Text(text) => Ok(WsGot::Payload(Text::from_slice(alloc, text.as_bytes())?)),
        Message::Binary(bytes) => Ok(WsGot::Payload(Text::from_slice(alloc, bytes)?)),
        Message::Ping(_) | Message::Pong(_) => Ok(WsGot::Control),
        Message::Close(_) => Ok(WsGot::Ended),
    }
}
