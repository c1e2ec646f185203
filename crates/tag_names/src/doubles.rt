ghost use Rattle.std.specs.Prelude.{◌≡◌, IfOk, bytes_eq};
ghost use Rattle.std.specs.List.{list_any};
ghost use Rattle.tree_rows.specs.Naming.{same_name};
ghost use Rattle.tag_names.specs.Faults as faults;
ghost use Rattle.tag_names.specs.Keys.{space_of, name_of};

use indexmap::IndexSet;
use std::alloc::{AllocError, Global};
use tree_rows::{Attribute, Binding, Expanded};
use xs_names::Text;

/// So many bindings or attributes are compared with each other. Where there are more, a set finds a double, so that the
/// time grows with their number alone.
const FEW: usize = 16;

/// An expanded name as the key of a set.
#[derive(PartialEq, Eq, Hash, Drop)]
pub(crate) struct NameKey {
    pub(crate) namespace: Option<String>,
    pub(crate) local: String,
}

/// A namespace as a part of a key.
pub(crate) fn space_key(alloc: Global, space: &Option<Text>) -> Result<Option<String>, AllocError>
    ensures { IfOk result (λ key. space_of key ≡ space.now) }
{
    match space {
        None => Ok(None),
        Some(space) => Ok(Some(String::from_str(alloc, space.as_str())?)),
    }
}

/// The key of an expanded name.
fn key_of(alloc: Global, name: &Expanded) -> Result<NameKey, AllocError>
    ensures { IfOk result (λ key. name_of key ≡ name.now) }
{
    Ok(NameKey {
        namespace: space_key(alloc, &name.namespace)?,
        local: String::from_str(alloc, name.local.as_str())?,
    })
}

/// Whether a binding has this prefix.
fn binds_prefix(bindings: &[Binding], prefix: &str) -> bool
    ensures { result ≡ list_any (λ other. bytes_eq prefix.now other.prefix) bindings.now }
{
    bindings.iter().any(|other| prefix == other.prefix.as_str())
}

/// Whether two of few bindings have one prefix.
fn few_repeat_prefix(bindings: &[Binding]) -> bool
    ensures { result ≡ faults.repeats_prefix bindings.now }
{
    let mut left = bindings;
    'left: while let Some((first, rest)) = left.split_first() {
        if binds_prefix(rest, first.prefix.as_str()) {
            return true;
        }
        left = rest;
    }
    false
}

/// Whether two bindings have one prefix, by a set of those that came.
fn many_repeat_prefix(alloc: Global, bindings: &[Binding]) -> Result<bool, AllocError>
    ensures { IfOk result (λ repeats. repeats ≡ faults.repeats_prefix bindings.now) }
{
    let mut seen = IndexSet::new(alloc);
    for binding in bindings {
        let key = String::from_str(alloc, binding.prefix.as_str())?;
        let added = seen.insert(key)?;
        if !added {
            return Ok(true);
        }
    }
    Ok(false)
}

/// Whether two bindings have one prefix.
pub(crate) fn repeats_prefix(alloc: Global, bindings: &[Binding]) -> Result<bool, AllocError>
    ensures { IfOk result (λ repeats. repeats ≡ faults.repeats_prefix bindings.now) }
{
    if bindings.len() <= FEW {
        return Ok(few_repeat_prefix(bindings));
    }
    many_repeat_prefix(alloc, bindings)
}

/// Whether two names are the same. Local parts differ most often, and are short.
#[tactic(auto, using(crate::proofs::DoubleLaws::and_twice))]
fn are_same(one: &Expanded, other: &Expanded) -> bool
    ensures { result ≡ same_name one.now other.now }
{
    one.local.as_str() == other.local.as_str() && one.is_same(other)
}

/// Whether an attribute has this name.
fn has_name(attributes: &[Attribute], name: &Expanded) -> bool
    ensures { result ≡ list_any (λ other. same_name name.now other.name) attributes.now }
{
    attributes.iter().any(|other| are_same(name, &other.name))
}

/// Whether two of few attributes have one expanded name.
fn few_repeat_name(attributes: &[Attribute]) -> bool
    ensures { result ≡ faults.repeats_name attributes.now }
{
    let mut left = attributes;
    'left: while let Some((first, rest)) = left.split_first() {
        if has_name(rest, &first.name) {
            return true;
        }
        left = rest;
    }
    false
}

/// Whether two attributes have one expanded name, by a set of those that came.
fn many_repeat_name(alloc: Global, attributes: &[Attribute]) -> Result<bool, AllocError>
    ensures { IfOk result (λ repeats. repeats ≡ faults.repeats_name attributes.now) }
{
    let mut seen = IndexSet::new(alloc);
    for attribute in attributes {
        let key = key_of(alloc, &attribute.name)?;
        let added = seen.insert(key)?;
        if !added {
            return Ok(true);
        }
    }
    Ok(false)
}

/// Whether two attributes have one expanded name.
pub(crate) fn repeats_name(alloc: Global, attributes: &[Attribute]) -> Result<bool, AllocError>
    ensures { IfOk result (λ repeats. repeats ≡ faults.repeats_name attributes.now) }
{
    if attributes.len() <= FEW {
        return Ok(few_repeat_name(attributes));
    }
    many_repeat_name(alloc, attributes)
}
