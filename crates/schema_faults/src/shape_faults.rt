ghost use Rattle.std.specs.Prelude.{◌≡◌, IfOk};
ghost use Rattle.std.specs.List.{list_all};
ghost use Rattle.schema_faults.specs.ShapeFaults as spec;

use crate::children::{follows, has_characters};
use schema_values::{Kind, Rule, SCHEMA_NAMESPACE, Tag, contents, fits, has, is_named, rules};
use std::alloc::{AllocError, Global};
use tag_names::Prefixes;
use tree_rows::{Attribute, Siblings};

/// Whether the root is no schema.
pub(crate) fn is_no_schema(kind: Kind) -> bool
    ensures { result ≡ spec.is_no_schema kind }
{
    matches!(kind, Kind::NoSchema)
}

/// Whether the child elements are not those of the table.
pub(crate) fn has_wrong_children(kind: Kind, tags: &[Tag]) -> bool
    ensures { result ≡ spec.has_wrong_children kind tags.now }
{
    for steps in contents(kind) {
        if follows(steps, tags) {
            return false;
        }
    }
    true
}

/// Whether there are characters other than white space.
pub(crate) fn has_text(kind: Kind, children: Siblings<'_>) -> bool
    ensures { result ≡ spec.has_text kind children.entry }
{
    match kind {
        Kind::Annotation => false,
        _ => has_characters(children),
    }
}

/// The rule of an attribute.
fn rule_of(rules: &[Rule], attribute: &Attribute) -> Option<Rule>
    ensures { result ≡ spec.rule_of rules.now attribute.now }
{
    for rule in rules {
        if is_named(rule.name, attribute) {
            return Some(*rule);
        }
    }
    None
}

/// Whether the attribute is of a foreign namespace, or has a rule.
fn is_allowed(rules: &[Rule], attribute: &Attribute) -> bool
    ensures { result ≡ spec.is_allowed rules.now attribute.now }
{
    match &attribute.name.namespace {
        None => rule_of(rules, attribute).is_some(),
        Some(space) => {
            if space.as_str() == SCHEMA_NAMESPACE {
                rule_of(rules, attribute).is_some()
            } else {
                true
            }
        }
    }
}

/// Whether each attribute is of a foreign namespace, or has a rule.
fn are_allowed(rules: &[Rule], attributes: &[Attribute]) -> bool
    ensures { result ≡ list_all (spec.is_allowed rules.now) attributes.now }
{
    for attribute in attributes {
        if !is_allowed(rules, attribute) {
            return false;
        }
    }
    true
}

/// Whether each attribute is there that is required.
fn are_met(rules: &[Rule], attributes: &[Attribute]) -> bool
    ensures { result ≡ list_all (spec.is_met attributes.now) rules.now }
{
    for rule in rules {
        if rule.required && !has(rule.name, attributes) {
            return false;
        }
    }
    true
}

/// Whether there is an attribute that the table lacks, or a required one is not there.
pub(crate) fn has_wrong_attribute(kind: Kind, attributes: &[Attribute]) -> bool
    ensures { result ≡ spec.has_wrong_attribute kind attributes.now }
{
    if !are_allowed(rules(kind), attributes) {
        return true;
    }
    !are_met(rules(kind), attributes)
}

/// Whether the attribute's value is of the kind that its rule says.
fn is_fit(
    alloc: Global,
    scope: &Prefixes,
    rules: &[Rule],
    attribute: &Attribute,
) -> Result<bool, AllocError>
    ensures { IfOk result (λ found. found ≡ spec.is_fit scope.now rules.now attribute.now) }
{
    match rule_of(rules, attribute) {
        None => Ok(true),
        Some(rule) => fits(alloc, scope, rule.kind, attribute.value.as_str()),
    }
}

/// Whether the attributes' values are of their kinds.
fn are_fit(
    alloc: Global,
    scope: &Prefixes,
    rules: &[Rule],
    attributes: &[Attribute],
) -> Result<bool, AllocError>
    ensures { IfOk result (λ found. found ≡ list_all (spec.is_fit scope.now rules.now) attributes.now) }
{
    for attribute in attributes {
        if !is_fit(alloc, scope, rules, attribute)? {
            return Ok(false);
        }
    }
    Ok(true)
}

/// Whether a value is not of its kind.
pub(crate) fn has_wrong_value(
    alloc: Global,
    scope: &Prefixes,
    kind: Kind,
    attributes: &[Attribute],
) -> Result<bool, AllocError>
    ensures { IfOk result (λ found. found ≡ spec.has_wrong_value scope.now kind attributes.now) }
{
    Ok(!are_fit(alloc, scope, rules(kind), attributes)?)
}
