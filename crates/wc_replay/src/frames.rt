use crate::wrong::Wrong;
use wc_text::{NoMemory, Text};

/// The key that masks each frame.
const KEY: [u8; 4] = *b"\x37\xfa\x21\x3d";

/// The first byte of a kind of frame: `text` and `binary` are whole messages, `text_part` begins
/// one, `part` goes on with it and `last_part` ends it.
pub fn first_byte(kind: &str) -> Result<u8, Wrong> {
    match kind {
        "part" => Ok(0x00),
        "text_part" => Ok(0x01),
        "last_part" => Ok(0x80),
        "text" => Ok(0x81),
        "binary" => Ok(0x82),
        "close" => Ok(0x88),
        "ping" => Ok(0x89),
        "pong" => Ok(0x8a),
        _ => Err(Wrong::Form),
    }
}

/// Adds the length of a frame that is masked.
fn add_length(bytes: &mut Text, length: usize) -> Result<(), NoMemory> {
    if length < 126 {
        return bytes.append(&[0x80 | length as u8]);
    }
    if let Ok(short) = u16::try_from(length) {
        bytes.append(&[0xfe])?;
        return bytes.append(&short.to_be_bytes());
    }
    bytes.append(&[0xff])?;
    bytes.append(&(length as u64).to_be_bytes())
}

/// Adds a frame as a client sends it, with this first byte and this payload, which is masked.
pub fn add_frame(bytes: &mut Text, first: u8, payload: &[u8]) -> Result<(), Wrong> {
    bytes.append(&[first])?;
    add_length(bytes, payload.len())?;
    bytes.append(&KEY)?;
    for (place, byte) in payload.iter().enumerate() {
        bytes.append(&[*byte ^ KEY[place % 4]])?;
    }
    Ok(())
}
