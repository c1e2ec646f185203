//! Reads lines such as `pattern<TAB>a{2,1}` and `match<TAB>a*<TAB>aaa`, in which `%HEX;` stands for a character, and prints for
//! each what reading the pattern answers, or whether the text matches it.

use pattern_syntax::PatternFault;
use std::alloc::{AllocError, Global};
use xs_regex::Pattern;

pub fn answer(alloc: Global, line: &str) -> Result<String, AllocError> {
    let mut columns = line.split('\t');
    let kind = columns.next().unwrap_or("");
    let pattern = plain(alloc, columns.next().unwrap_or(""))?;
    let text = plain(alloc, columns.next().unwrap_or(""))?;
    match Pattern::read(alloc, &pattern)? {
        Err(PatternFault::Syntax(place)) => format!(in alloc; "Syntax {place}"),
        Err(fault) => format!(in alloc; "{fault:?}"),
        Ok(_) if kind == "pattern" => format!(in alloc; "ok"),
        Ok(mut pattern) => {
            let answer = if pattern.matches(&text) { "yes" } else { "no" };
            format!(in alloc; "{answer}")
        }
    }
}

/// The text with each `%HEX;` replaced by its character.
fn plain(alloc: Global, text: &str) -> Result<String, AllocError> {
    let mut plain = String::new(alloc);
    let mut pieces = text.split('%');
    plain.push_str(pieces.next().unwrap_or(""))?;
    for piece in pieces {
        if let Some((hex, rest)) = piece.split_once(';') {
            let number = u32::from_str_radix(hex, 16).unwrap_or(0);
            plain.push(char::from_u32(number).unwrap_or('?'))?;
            plain.push_str(rest)?;
        }
    }
    Ok(plain)
}
