use item_listing::{Items, read_item};
use std::alloc::{AllocError, Global};

/// The items of these lines.
pub fn items_of(alloc: Global, lines: &[&str]) -> Result<Items, AllocError> {
    let mut items = Items::new(alloc);
    for line in lines {
        if let Ok(item) = read_item(alloc, true, line.as_bytes())? {
            items.push(item)?;
        }
    }
    Ok(items)
}

/// A document.
pub const DOCUMENT: [&str; 9] = [
    "(r",
    "Axmlns:p u",
    "Aa 1",
    "-x",
    "(p:b",
    "Ap:c 2",
    ")p:b",
    "-y",
    ")r",
];

const LEAF: [&str; 2] = ["(b", ")b"];

const BOUND: [&str; 6] = ["(q:c", "Axmlns:q v", "Aq:a 1", "Aa 2", "-text", ")q:c"];

const NESTED: [&str; 8] = ["(d", "Axmlns w", "(e", "-one", ")e", "(p:f", ")p:f", ")d"];

/// A part by its number.
pub fn part_lines(number: u32) -> &'static [&'static str] {
    match number {
        0 => &LEAF,
        1 => &BOUND,
        _ => &NESTED,
    }
}
