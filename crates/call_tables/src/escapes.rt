//! The escapes of the table: `%HEX;` stands for a character.
use std::alloc::{AllocError, Global};

/// The text with each escape as the character that it stands for.
pub fn decoded(alloc: Global, text: &str) -> Result<String, AllocError> {
    let mut plain = String::new(alloc);
    for (place, piece) in text.split('%').enumerate() {
        if place == 0 {
            plain.push_str(piece)?;
        } else {
            push_piece(&mut plain, piece)?;
        }
    }
    Ok(plain)
}

// Puts what stands behind a percent sign at the end: a character, and the text behind its escape.
fn push_piece(plain: &mut String, piece: &str) -> Result<(), AllocError> {
    match piece.split_once(';') {
        Some((code, rest)) => {
            plain.push(character(code))?;
            plain.push_str(rest)
        }
        None => plain.push_str(piece),
    }
}

// The character with this code, in hexadecimal digits.
fn character(code: &str) -> char {
    match u32::from_str_radix(code, 16) {
        Ok(code) => char::from_u32(code).unwrap_or('?'),
        Err(_) => '?',
    }
}

/// The text with an escape for each percent sign and each character that is not printed in ASCII.
pub fn encoded(alloc: Global, text: &str) -> Result<String, AllocError> {
    let mut escaped = String::new(alloc);
    for c in text.chars() {
        if c == ' ' || (c.is_ascii_graphic() && c != '%') {
            escaped.push(c)?;
        } else {
            let code = c as u32;
            write!(escaped, "%{code:X};")?;
        }
    }
    Ok(escaped)
}
