ghost use Rattle.std.specs.Prelude.{◌≡◌, IfOk, map};
ghost use Rattle.schema_values.specs.Spaces as spec;

use std::alloc::{AllocError, Global};
use xs_lists::Listed;
use xs_names::{Text, items};

/// A namespace in the list of a wildcard (Structures 3.10.2).
#[derive(Drop)]
pub enum SpaceToken {
    /// `##targetNamespace`
    Target,
    /// `##local`: the absent namespace.
    Local,
    /// A namespace by its name.
    Named(Text),
}

/// The namespaces that a wildcard admits, as they are written (Structures 3.10.2).
pub enum Spaces {
    /// `##any`
    Any,
    /// `##other`: all but the target namespace and the absent one.
    Other,
    /// These alone.
    These(Listed<SpaceToken>),
}

/// The namespace that a word of the list means.
fn token_of(word: &Text) -> Result<SpaceToken, AllocError>
    ensures { IfOk result (λ token. token ≡ spec.token_of word.now) }
{
    if word.as_str() == "##targetNamespace" {
        return Ok(SpaceToken::Target);
    }
    if word.as_str() == "##local" {
        return Ok(SpaceToken::Local);
    }
    Ok(SpaceToken::Named(word.try_clone()?))
}

/// The namespaces that the words of a list mean.
fn tokens_of(alloc: Global, words: &[Text]) -> Result<Listed<SpaceToken>, AllocError>
    ensures { IfOk result (λ tokens. tokens ≡ map spec.token_of words.now) }
{
    let mut tokens = Listed::new(alloc);
    for word in words {
        tokens.push(token_of(word)?)?;
    }
    Ok(tokens)
}

/// The namespaces that a text means, its white space collapsed.
///
/// # Errors
///
/// `AllocError` is want of memory.
pub fn spaces_of(alloc: Global, text: &str) -> Result<Spaces, AllocError>
    ensures { IfOk result (λ spaces. spaces ≡ spec.spaces_of text.now) }
{
    if text == "##any" {
        return Ok(Spaces::Any);
    }
    if text == "##other" {
        return Ok(Spaces::Other);
    }
    let words = items(alloc, text)?;
    Ok(Spaces::These(tokens_of(alloc, words.as_slice())?))
}

impl Drop for Spaces {
    fn drop(self) {
        match self {
            Spaces::Any => {}
            Spaces::Other => {}
            Spaces::These(these) => drop(these),
        }
    }
}
