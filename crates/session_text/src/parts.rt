// Parts of messages: texts, numbers and lengths.
use crate::unread::Unread;
use std::alloc::Global;

// The value of a hexadecimal digit, 0 to 9 and a to f.
fn digit(byte: u8) -> Result<u8, Unread> {
    match byte {
        b'0'..=b'9' => Ok(byte - b'0'),
        b'a'..=b'f' => Ok(byte - b'a' + 10),
        _ => Err(Unread::Line),
    }
}

// What stands after a backslash.
fn push_after_backslash(out: &mut Vec<u8>, part: &[u8]) -> Result<(), Unread> {
    match part {
        [b'0', rest @ ..] => {
            out.push(0)?;
            out.extend_from_slice(rest)?;
        }
        [b'x', high, low, rest @ ..] => {
            out.push((digit(*high)? << 4) | digit(*low)?)?;
            out.extend_from_slice(rest)?;
        }
        _ => return Err(Unread::Line),
    }
    Ok(())
}

/// The bytes of a text: `\0` is a zero byte, `\x` and two hexadecimal digits the byte of that number, and every other character stands
/// for itself.
pub fn push_bytes(out: &mut Vec<u8>, text: &str) -> Result<(), Unread> {
    let mut is_first = true;
    for part in text.split('\\') {
        if is_first {
            out.extend_from_slice(part.as_bytes())?;
        } else {
            push_after_backslash(out, part.as_bytes())?;
        }
        is_first = false;
    }
    Ok(())
}

/// The bytes of a text, and a zero byte.
pub fn push_text(out: &mut Vec<u8>, text: &str) -> Result<(), Unread> {
    push_bytes(out, text)?;
    out.push(0)?;
    Ok(())
}

/// A number in decimal digits.
pub fn number(text: &str) -> Result<u32, Unread> {
    match text.parse::<u32>() {
        Ok(number) => Ok(number),
        Err(_) => Err(Unread::Line),
    }
}

/// Two numbers of four bytes each, which a blank parts.
pub fn two_numbers(alloc: Global, text: &str) -> Result<Vec<u8>, Unread> {
    let Some((first, second)) = text.split_once(' ') else {
        return Err(Unread::Line);
    };
    let mut out = Vec::from_slice(alloc, &number(first)?.to_be_bytes())?;
    out.extend_from_slice(&number(second)?.to_be_bytes())?;
    Ok(out)
}

// A length as a number of four bytes. No text is as long as its limit.
fn length(bytes: &[u8], more: u32) -> [u8; 4] {
    let length = u32::try_from(bytes.len()).unwrap_or(u32::MAX);
    length.saturating_add(more).to_be_bytes()
}

/// A value of four bytes of length and its bytes.
pub fn push_value(out: &mut Vec<u8>, bytes: &[u8]) -> Result<(), Unread> {
    out.extend_from_slice(&length(bytes, 0))?;
    out.extend_from_slice(bytes)?;
    Ok(())
}

/// A length, which counts its own four bytes too, and the body.
pub fn push_body(out: &mut Vec<u8>, body: &[u8]) -> Result<(), Unread> {
    out.extend_from_slice(&length(body, 4))?;
    out.extend_from_slice(body)?;
    Ok(())
}

/// A message with a type byte.
pub fn push_message(out: &mut Vec<u8>, kind: u8, body: &[u8]) -> Result<(), Unread> {
    out.push(kind)?;
    push_body(out, body)
}

/// A message whose body is one text.
pub fn push_text_message(
    alloc: Global,
    out: &mut Vec<u8>,
    kind: u8,
    text: &str,
) -> Result<(), Unread> {
    let mut body = Vec::new(alloc);
    push_text(&mut body, text)?;
    push_message(out, kind, &body)
}
