ghost use Rattle.std.specs.Prelude.{◌≡◌, ◌∷◌, ℕ, List, length, OnOk, IfOk};
ghost use Rattle.xs_names.specs.Names.{Grown};
ghost use Rattle.schema_faults.specs.Constructs.{nearest};
ghost use Rattle.schema_shape.specs.declared.forms.Shape.{Shape};
ghost use Rattle.representations.specs.Documents.{bindings_table};
ghost use Rattle.representations.specs.Lasting.{IsLasting};
ghost use Rattle.set_representations.specs.Scopes as spec;
ghost use Rattle.set_representations.specs.inside.Building.{opened_place, scope_at, IsOpened};

use crate::item_places::ItemPlaces;
use schema_shape::Shape;
use std::alloc::{AllocError, Global};
use tree_rows::Binding;
use xs_lists::Listed;
use xs_names::{Names, Scope};

// The place of the scope that the element of this number opened; else that of the scope outside of all elements.
fn place_of(opened: &ItemPlaces, item: u32) -> u32
    ensures { result ≡ opened_place opened.now item }
{
    opened.find(item).unwrap_or(0)
}

// The scope at a place once more.
fn copy_of(alloc: Global, scopes: &[Scope], place: u32) -> Result<Scope, AllocError>
    ensures { IfOk result (λ scope. scope ≡ scope_at scopes.now place) }
{
    match scopes.get(place as usize) {
        None => Scope::new(alloc),
        Some(scope) => scope.try_clone(),
    }
}

// Puts bindings before those of a scope.
fn bind_all(names: &mut Names, bindings: &[Binding], scope: &mut Scope) -> Result<(), AllocError>
    ensures table { OnOk result (names.new ≡ bindings_table bindings.now names.old) }
    ensures bound { OnOk result (IsLasting names.new (λ t. spec.bound t bindings.now scope.old) scope.new) }
    ensures grown { Grown names.old names.new }
{
    for binding in bindings {
        let ns = names.namespace_id(binding.namespace.as_str())?;
        scope.bind(&binding.prefix, ns)?;
    }
    Ok(())
}

/// The place of an element's scope: the one that it opens, which is put behind the others, or that of the nearest element above
/// that opened one.
pub(crate) fn open_scope(
    alloc: Global,
    names: &mut Names,
    shape: &Shape,
    opened: &mut ItemPlaces,
    scopes: &mut Listed<Scope>,
) -> Result<u32, AllocError>
    ensures table { OnOk result (names.new ≡ bindings_table shape.now.bindings names.old) }
    ensures opened { (base : List (List (List ℕ × ℕ))) (before : List Shape) → IsOpened names.old base before opened.old scopes.old
        → OnOk result (IsOpened names.new base (shape.now ∷ before) opened.new scopes.new) }
    ensures place { (base : List (List (List ℕ × ℕ))) (before : List Shape) → IsOpened names.old base before opened.old scopes.old
        → IfOk result (λ place. place ≡ spec.scope_place (length base) (shape.now ∷ before) (nearest shape.now.above shape.now.item shape.now.bindings)) }
    ensures grown { Grown names.old names.new }
{
    let above = place_of(opened, shape.above);
    if shape.bindings.is_empty() {
        return Ok(above);
    }
    let place = scopes.len();
    if place >= u32::MAX as usize {
        return Err(AllocError);
    }
    let mut scope = copy_of(alloc, scopes.as_slice(), above)?;
    bind_all(names, shape.bindings.as_slice(), &mut scope)?;
    scopes.push(scope)?;
    opened.put(shape.item, place as u32)?;
    Ok(place as u32)
}
