//! The white space of a text: kept, replaced or collapsed; and the items between it.
ghost use Rattle.std.specs.Prelude.{◌≡◌, List, ℕ, ◌++◌, ◌∷◌, [], length, IsTrue, IfOk, OnOk, OnErr, string_bytes};
ghost use Rattle.xs_names.specs.WhiteSpace as spec;
ghost use Rattle.xs_names.specs.declared.handling.WhiteSpace.{WhiteSpace};

use crate::{Text, Texts};
use std::alloc::{AllocError, Global};

/// What a type does with the white space of a text, before its literals are read (Datatypes 4.3.6).
#[derive(Clone, Copy, PartialEq)]
pub enum WhiteSpace {
    /// Nothing.
    Preserve,
    /// Each tab, line feed and carriage return becomes a space.
    Replace,
    /// The same, and then each run of spaces becomes one, and those at the ends go.
    Collapse,
}

impl WhiteSpace {
    /// Of two ways the one that leaves less: collapse before replace, and replace before preserve.
    pub fn stronger(self, other: WhiteSpace) -> WhiteSpace
        ensures { result ≡ spec.stronger self other }
    {
        match (self, other) {
            (WhiteSpace::Collapse, _) | (_, WhiteSpace::Collapse) => WhiteSpace::Collapse,
            (WhiteSpace::Replace, _) | (_, WhiteSpace::Replace) => WhiteSpace::Replace,
            (WhiteSpace::Preserve, WhiteSpace::Preserve) => WhiteSpace::Preserve,
        }
    }
}

#[tactic(auto, using(crate::proofs::Again::again, crate::proofs::Again::same_items))]
/// The text as a type of this handling of white space reads it (Datatypes 4.3.6). A text without white space is copied at once.
///
/// To treat what comes out once more, in whatever way, is to treat the text once, in the stronger of the two; and it has
/// the items that the text has.
pub fn normalized(alloc: Global, handling: WhiteSpace, text: &str) -> Result<Text, AllocError>
    ensures value { IfOk result (λ t. t ≡ spec.normalized handling text.now) }
    ensures again { IfOk result (λ t. (other : WhiteSpace) → spec.normalized other t ≡ spec.normalized (spec.stronger other handling) text.now) }
    ensures items { IfOk result (λ t. spec.items t ≡ spec.items text.now) }
{
    if is_bare(text) {
        return Text::new(alloc, text);
    }
    match handling {
        WhiteSpace::Preserve => Text::new(alloc, text),
        WhiteSpace::Replace => Ok(Text::from_string(replaced(alloc, text)?)?),
        WhiteSpace::Collapse => Ok(Text::from_string(collapsed(alloc, text)?)?),
    }
}

/// Whether the text has no white space: every way to treat it then leaves it as it is (Datatypes 4.3.6).
pub fn is_bare(text: &str) -> bool
    ensures value { result ≡ spec.is_bare text.now }
    ensures kept { IsTrue result → (handling : WhiteSpace) → spec.normalized handling text.now ≡ text.now }
{
    has_no_white(text)
}

// Whether no character is white space.
fn has_no_white(text: &str) -> bool
    ensures { result ≡ spec.is_bare text.now }
{
    text.as_bytes().iter().all(|b| !is_white(*b))
}

/// The items of a list: what stands between the white space of the text, in order (Datatypes 4.2.1.2).
///
/// They are the same once the white space has been treated, in whatever way.
pub fn items(alloc: Global, text: &str) -> Result<Texts, AllocError>
    ensures value { IfOk result (λ found. found ≡ spec.items text.now) }
    ensures treated { IfOk result (λ found. (handling : WhiteSpace) → found ≡ spec.items (spec.normalized handling text.now)) }
{
    let spaced = replaced(alloc, text)?;
    let mut found = Texts::new(alloc);
    for item in spaced.split(' ') {
        if !item.is_empty() {
            found.push(Text::new(alloc, item)?)?;
        }
    }
    Ok(found)
}

/// How many items there are, before any is copied (Datatypes 4.2.1.2).
pub fn count_items(text: &str) -> usize
    ensures { result ≡ length (spec.items text.now) }
{
    text.as_bytes()
        .split(|b| is_white(*b))
        .filter(|item| !item.is_empty())
        .count()
}

// Whether the byte is white space.
fn is_white(b: u8) -> bool
    ensures { result ≡ spec.is_space (spec.to_space b) }
{
    matches!(b, b' ' | b'\t' | b'\n' | b'\r')
}

// A tab, a line feed or a carriage return as a space; any other character as it is.
fn to_space(c: char) -> char
    ensures { result ≡ spec.to_space c }
{
    match c {
        '\t' | '\n' | '\r' => ' ',
        _ => c,
    }
}

// The text with a space for each tab, line feed and carriage return.
fn replaced(alloc: Global, text: &str) -> Result<String, AllocError>
    ensures { IfOk result (λ t. string_bytes t ≡ spec.replaced text.now) }
{
    text.chars().map(to_space).collect(alloc)
}

// The items of the text, with one space between each two.
fn collapsed(alloc: Global, text: &str) -> Result<String, AllocError>
    ensures { IfOk result (λ t. string_bytes t ≡ spec.collapsed text.now) }
{
    let spaced = replaced(alloc, text)?;
    let mut joined = String::new(alloc);
    for item in spaced.split(' ') {
        join_item(&mut joined, item)?;
    }
    Ok(joined)
}

// Puts an item behind those that are there, unless it is empty.
fn join_item(joined: &mut String, item: &str) -> Result<(), AllocError>
    ensures { OnOk result ((pieces : List (List ℕ)) → string_bytes joined.old ≡ spec.joined pieces
        → string_bytes joined.new ≡ spec.joined (pieces ++ item.now ∷ [])) }
{
    if item.is_empty() {
        return Ok(());
    }
    if !joined.is_empty() {
        joined.push(' ')?;
    }
    joined.push_str(item)?;
    Ok(())
}
