use crate::wrong::Wrong;
use std::alloc::AllocError;
use wc_text::Text;

/// The value of a hexadecimal digit.
fn digit(byte: u8) -> Result<u8, Wrong> {
    match byte {
        b'0'..=b'9' => Ok(byte - b'0'),
        b'a'..=b'f' => Ok(byte - b'a' + 10),
        _ => Err(Wrong::Escape),
    }
}

/// The byte that two hexadecimal digits stand for.
fn hex_byte(high: u8, low: u8) -> Result<u8, Wrong> {
    let high = digit(high)?;
    let low = digit(low)?;
    Ok(high.wrapping_mul(16).wrapping_add(low))
}

/// The byte that an escape stands for, and how many bytes the escape takes after its backslash.
fn byte_of_escape(rest: &[u8]) -> Result<(u8, usize), Wrong> {
    match rest {
        [b'n', ..] => Ok((b'\n', 1)),
        [b'r', ..] => Ok((b'\r', 1)),
        [b't', ..] => Ok((b'\t', 1)),
        [b'\\', ..] => Ok((b'\\', 1)),
        [b'x', high, low, ..] => Ok((hex_byte(*high, *low)?, 3)),
        [] | [b'x', ..] => Err(Wrong::EarlyEnd),
        _ => Err(Wrong::Escape),
    }
}

/// Adds the bytes that a text spells, in which `\n`, `\r`, `\t`, `\\` and `\xHH` stand for one byte
/// each.
pub fn add_unescaped(bytes: &mut Text, text: &[u8]) -> Result<(), Wrong> {
    let mut skip = 0usize;
    for (place, byte) in text.iter().enumerate() {
        if skip > 0 {
            skip -= 1;
        } else if *byte == b'\\' {
            let (found, taken) = byte_of_escape(
                text.get(place.saturating_add(1)..).unwrap_or(&[]),
            )?;
            skip = taken;
            bytes.append(&[found])?;
        } else {
            bytes.append(&[*byte])?;
        }
    }
    Ok(())
}

/// How a byte is escaped that has an escape of its own, or is one of the marks of forms.
fn known_escape(byte: u8) -> Option<&'static str> {
    match byte {
        b'\n' => Some("\\n"),
        b'\r' => Some("\\r"),
        b'\t' => Some("\\t"),
        b'\\' => Some("\\\\"),
        b'{' => Some("\\x7b"),
        b'}' => Some("\\x7d"),
        _ => None,
    }
}

fn push_byte(out: &mut String, byte: u8) -> Result<(), AllocError> {
    if let Some(text) = known_escape(byte) {
        return out.push_str(text);
    }
    if matches!(byte, b' '..=b'~') {
        return out.push(byte as char);
    }
    write!(out, "\\x{byte:02x}")
}

/// Writes bytes as a script spells them: those that print as they are, and the others escaped.
pub fn escape(out: &mut String, bytes: &[u8]) -> Result<(), AllocError> {
    for byte in bytes {
        push_byte(out, *byte)?;
    }
    Ok(())
}
