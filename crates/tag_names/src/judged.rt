ghost use Rattle.std.specs.Prelude.{◌≡◌, ◌++◌, IsNone, IfOk};
ghost use Rattle.std.specs.Option.{option_copied};
ghost use Rattle.tag_names.specs.Faults as faults;
ghost use Rattle.tag_names.specs.Resolving as resolving;
ghost use Rattle.tag_names.specs.Scopes as scopes;

use crate::parts::{NameParts, binds, parts_of};
use crate::{NameReason, Prefixes};
use std::alloc::AllocError;
use tree_rows::Expanded;
use xs_names::{Text, TextPool};

/// What a name's prefix stands for in a scope.
#[derive(Drop)]
pub(crate) struct Space {
    /// The name of the namespace, `None` for the absent one.
    pub(crate) namespace: Option<Text>,
    /// Whether the prefix is not bound.
    pub(crate) unbound: bool,
}

/// A name in a scope, and what stands against it.
#[derive(Drop)]
pub(crate) struct JudgedName {
    pub(crate) name: Expanded,
    /// It is no QName.
    pub(crate) bad: bool,
    /// Its prefix is not bound.
    pub(crate) unbound: bool,
    /// Its prefix is `xmlns`, or an attribute of this name is a binding.
    pub(crate) reserved: bool,
}

impl JudgedName {
    /// The name, or the first reason against it: `BadName`, `UnboundPrefix` or `ReservedName`.
    pub(crate) fn end(self) -> Result<Expanded, NameReason>
        ensures { result ≡ resolving.end_of self }
    {
        if self.bad {
            return Err(NameReason::BadName);
        }
        if self.unbound {
            return Err(NameReason::UnboundPrefix);
        }
        if self.reserved {
            return Err(NameReason::ReservedName);
        }
        Ok(self.name)
    }
}

/// The name of the namespace that these bindings, if there are any, give a prefix.
fn own_prefix<'a>(own: Option<&'a Prefixes>, prefix: &str) -> Option<&'a Text>
    ensures { option_copied result ≡ scopes.of_prefix (scopes.own_of (option_copied own.entry)) prefix.now }
{
    match own {
        None => None,
        Some(own) => own.of_prefix(prefix),
    }
}

/// The name of the namespace that a prefix is bound to, where these bindings come before a scope.
fn of_prefix<'a>(own: Option<&'a Prefixes>, scope: &'a Prefixes, prefix: &str) -> Option<&'a Text>
    ensures { option_copied result ≡ scopes.of_prefix (scopes.own_of (option_copied own.entry) ++ scope.now) prefix.now }
{
    match own_prefix(own, prefix) {
        Some(namespace) => Some(namespace),
        None => scope.of_prefix(prefix),
    }
}

/// The namespace of this name, `None` for the absent one. Its characters are shared with the binding.
fn namespace_by(name: Option<&Text>) -> Result<Option<Text>, AllocError>
    ensures { IfOk result (λ space. space ≡ scopes.namespace_by (option_copied name.entry)) }
{
    match name {
        None => Ok(None),
        Some(name) if name.as_str().is_empty() => Ok(None),
        Some(name) => Ok(Some(name.try_clone()?)),
    }
}

/// What a prefix stands for.
fn prefixed(own: Option<&Prefixes>, scope: &Prefixes, prefix: &str) -> Result<Space, AllocError>
    ensures { IfOk result (λ space. space ≡ resolving.prefixed (scopes.own_of (option_copied own.entry) ++ scope.now) prefix.now) }
{
    let bound = of_prefix(own, scope, prefix);
    let unbound = prefix != "xmlns" && bound.is_none();
    Ok(Space {
        namespace: namespace_by(bound)?,
        unbound,
    })
}

/// What the prefix of an element's name stands for: without one it is the default namespace.
fn element_space(
    own: Option<&Prefixes>,
    scope: &Prefixes,
    prefix: Option<&str>,
) -> Result<Space, AllocError>
    ensures { IfOk result (λ space. space ≡ resolving.element_place (scopes.own_of (option_copied own.entry) ++ scope.now) (option_copied prefix.entry)) }
{
    match prefix {
        None => Ok(Space {
            namespace: namespace_by(of_prefix(own, scope, ""))?,
            unbound: false,
        }),
        Some(prefix) => prefixed(own, scope, prefix),
    }
}

/// What the prefix of an attribute's name stands for: without one the name is in no namespace.
pub(crate) fn attribute_space(
    own: Option<&Prefixes>,
    scope: &Prefixes,
    prefix: Option<&str>,
) -> Result<Space, AllocError>
    ensures { IfOk result (λ space. space ≡ resolving.attribute_place (scopes.own_of (option_copied own.entry) ++ scope.now) (option_copied prefix.entry)) }
{
    match prefix {
        None => Ok(Space {
            namespace: None,
            unbound: false,
        }),
        Some(prefix) => prefixed(own, scope, prefix),
    }
}

/// Whether a prefix other than `xmlns` is not bound.
pub(crate) fn is_unbound(own: Option<&Prefixes>, scope: &Prefixes, prefix: Option<&str>) -> bool
    ensures { result ≡ faults.is_unbound (scopes.own_of (option_copied own.entry) ++ scope.now) (option_copied prefix.entry) }
{
    match prefix {
        None => false,
        Some(prefix) => prefix != "xmlns" && of_prefix(own, scope, prefix).is_none(),
    }
}

/// Whether a prefix is `xmlns`.
pub(crate) fn is_xmlns(prefix: Option<&str>) -> bool
    ensures { result ≡ faults.is_xmlns (option_copied prefix.entry) }
{
    match prefix {
        None => false,
        Some(prefix) => prefix == "xmlns",
    }
}

/// The local part of a name that has these parts. A name without a prefix is its own; others' come from the pool.
fn local_part(pool: &mut TextPool, name: &Text, parts: &NameParts<'_>) -> Result<Text, AllocError>
    requires { IsNone parts.now.prefix → parts.now.local.now ≡ name.now }
    ensures { IfOk result (λ local. local ≡ parts.now.local.now) }
{
    match parts.prefix {
        None => name.try_clone(),
        Some(_) => pool.text(parts.local),
    }
}

/// The name of an element in a scope, where these bindings come before it.
pub(crate) fn judged_element(
    own: Option<&Prefixes>,
    scope: &Prefixes,
    pool: &mut TextPool,
    name: &Text,
) -> Result<JudgedName, AllocError>
    ensures { IfOk result (λ judged. judged ≡ resolving.judged_element (scopes.own_of (option_copied own.entry) ++ scope.now) name.now) }
{
    let parts = parts_of(name.as_str());
    let space = element_space(own, scope, parts.prefix)?;
    let local = local_part(pool, name, &parts)?;
    Ok(JudgedName {
        name: Expanded {
            namespace: space.namespace,
            local,
        },
        bad: parts.bad,
        unbound: space.unbound,
        reserved: is_xmlns(parts.prefix),
    })
}

/// The name of an attribute in a scope, where these bindings come before it.
pub(crate) fn judged_attribute(
    own: Option<&Prefixes>,
    scope: &Prefixes,
    pool: &mut TextPool,
    name: &Text,
) -> Result<JudgedName, AllocError>
    ensures { IfOk result (λ judged. judged ≡ resolving.judged_attribute (scopes.own_of (option_copied own.entry) ++ scope.now) name.now) }
{
    let parts = parts_of(name.as_str());
    let space = attribute_space(own, scope, parts.prefix)?;
    let local = local_part(pool, name, &parts)?;
    Ok(JudgedName {
        name: Expanded {
            namespace: space.namespace,
            local,
        },
        bad: parts.bad,
        unbound: space.unbound,
        reserved: binds(name.as_str()),
    })
}
