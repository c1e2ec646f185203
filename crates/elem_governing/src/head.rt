//! The head of an element.

ghost use Rattle.std.specs.Prelude.{◌≡◌, IfOk};
ghost use Rattle.assess_records.specs.Numbered as numbered;
ghost use Rattle.plain_tree.specs.Found.{HasName, HasBindings, HasAttributes, HasTag};
ghost use Rattle.elem_governing.specs.Heads.{IsHead};

use crate::numbers::{known_name, known_space};
use assess_records::{NamedText, NamedTextList};
use std::alloc::{AllocError, Global};
use tree_rows::{Attribute, Binding, Expanded, Row};
use xs_lists::Listed;
use xs_names::{NameId, Names, Scope};

/// What an element has to show before it is governed.
#[derive(Drop)]
pub struct ElementHead {
    pub name: NameId,
    /// Its attributes in document order; bindings are none.
    pub attrs: NamedTextList,
    /// The prefixes in scope, its own bindings among them.
    pub scope: Scope,
}

// The scope in an element with these bindings, below one with the outer scope (Namespaces in XML 1.0, 6.1).
fn scope_in(names: &mut Names, outer: &Scope, bindings: &[Binding]) -> Result<Scope, AllocError>
    requires { HasBindings names.old bindings.now }
    ensures scope { IfOk result (λ scope. scope ≡ numbered.scope_in names.old bindings.now outer.now) }
    ensures same { names.new ≡ names.old }
{
    let mut scope = outer.try_clone()?;
    for binding in bindings {
        let space = known_space(names, binding.namespace.as_str())?;
        scope.bind(&binding.prefix, space)?;
    }
    Ok(scope)
}

// An attribute under the number of its name.
fn named_text(names: &mut Names, attribute: &Attribute) -> Result<NamedText, AllocError>
    requires { HasName names.old attribute.now.name }
    ensures named { IfOk result (λ a. a ≡ numbered.named_text names.old attribute.now) }
    ensures same { names.new ≡ names.old }
{
    let name = known_name(names, &attribute.name)?;
    let text = attribute.value.try_clone()?;
    Ok(NamedText { name, text })
}

// The attributes of an element, under the numbers of their names.
fn named_texts(
    alloc: Global,
    names: &mut Names,
    attributes: &[Attribute],
) -> Result<NamedTextList, AllocError>
    requires { HasAttributes names.old attributes.now }
    ensures named { IfOk result (λ attrs. attrs ≡ numbered.named_texts names.old attributes.now) }
    ensures same { names.new ≡ names.old }
{
    let mut attrs = Listed::from_vec(Vec::with_capacity(alloc, attributes.len())?);
    for attribute in attributes {
        let named = named_text(names, attribute)?;
        attrs.push(named)?;
    }
    Ok(attrs)
}

/// The head of an element of this name and with what else its row says, below an element with the outer scope. Its names
/// stand in the table.
///
/// # Errors
///
/// `AllocError` is want of memory.
pub fn read_head(
    alloc: Global,
    names: &mut Names,
    outer: &Scope,
    name: &Expanded,
    row: &Row,
) -> Result<ElementHead, AllocError>
    requires { HasTag names.old name.now row.now.bindings row.now.attributes }
    ensures head { IfOk result (IsHead names.old outer.now name.now row.now.bindings row.now.attributes) }
    ensures same { names.new ≡ names.old }
{
    let scope = scope_in(names, outer, row.bindings.as_slice())?;
    let attrs = named_texts(alloc, names, row.attributes.as_slice())?;
    let name = known_name(names, name)?;
    Ok(ElementHead { name, attrs, scope })
}
