ghost use Rattle.std.specs.Prelude.{◌≡◌, IfOk};
ghost use Rattle.std.specs.Option.{option_copied};
ghost use Rattle.tag_names.specs.Scopes.{namespace_by};
ghost use Rattle.schema_values.specs.Names as spec;

use std::alloc::{AllocError, Global};
use tag_names::Prefixes;
use tree_rows::Expanded;
use xs_lists::Listed;
use xs_names::{Text, split_qname};

/// The namespace of this name; the empty name is that of the absent one.
fn named_space(space: Option<&Text>) -> Result<Option<Text>, AllocError>
    ensures { IfOk result (λ named. named ≡ namespace_by (option_copied space.entry)) }
{
    match space {
        None => Ok(None),
        Some(name) => {
            if name.as_str().is_empty() {
                Ok(None)
            } else {
                Ok(Some(name.try_clone()?))
            }
        }
    }
}

/// The name that a QName gives in a scope; without a prefix it is in the default namespace. `None` where the text is no
/// QName, or its prefix is not bound.
///
/// # Errors
///
/// `AllocError` is want of memory.
pub fn qname_of(alloc: Global, scope: &Prefixes, text: &str) -> Result<Option<Expanded>, AllocError>
    ensures { IfOk result (λ name. name ≡ spec.qname_of scope.now text.now) }
{
    match split_qname(text) {
        Err(_) => Ok(None),
        Ok((None, local)) => {
            let namespace = named_space(scope.of_prefix(""))?;
            Ok(Some(Expanded {
                namespace,
                local: Text::new(alloc, local)?,
            }))
        }
        Ok((Some(prefix), local)) => match scope.of_prefix(prefix) {
            None => Ok(None),
            Some(space) => {
                let namespace = named_space(Some(space))?;
                Ok(Some(Expanded {
                    namespace,
                    local: Text::new(alloc, local)?,
                }))
            }
        },
    }
}

/// Whether each word is a QName whose prefix is bound.
pub(crate) fn are_qnames(
    alloc: Global,
    scope: &Prefixes,
    words: &[Text],
) -> Result<bool, AllocError>
    ensures { IfOk result (λ found. found ≡ spec.are_qnames scope.now words.now) }
{
    for word in words {
        if qname_of(alloc, scope, word.as_str())?.is_none() {
            return Ok(false);
        }
    }
    Ok(true)
}

/// The names that QNames give, those that give none left out.
pub(crate) fn names_in(
    alloc: Global,
    scope: &Prefixes,
    words: &[Text],
) -> Result<Listed<Expanded>, AllocError>
    ensures { IfOk result (λ names. names ≡ spec.names_in scope.now words.now) }
{
    let mut names = Listed::new(alloc);
    for word in words {
        match qname_of(alloc, scope, word.as_str())? {
            None => {}
            Some(name) => names.push(name)?,
        }
    }
    Ok(names)
}
