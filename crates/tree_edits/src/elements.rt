//! An element gets another name, or its attributes change.

ghost use Rattle.std.specs.Prelude.{◌≡◌, ◌≢◌, ◌<◌, ◌+◌, ◌≤◌, List, true, false, Some, None, length, slice_index_or, slice_set, IfOk, OnOk, OnErr, IfErr};
ghost use Rattle.std.specs.List.{position, remove};
ghost use Rattle.tree_rows.specs.Naming.{same_name};
ghost use Rattle.tree_rows.specs.declared.row.Row.{Row};
ghost use Rattle.tree_rows.specs.declared.row.Content.TheVariants as contents;
ghost use Rattle.tree_building.specs.Shape.{AreSound};
ghost use Rattle.tree_edits.specs.Changes.{has_name, set_in, unset_in, has_no_room};
ghost use Rattle.tree_edits.specs.Spots.{Makes, CannotMake};
ghost use Rattle.tree_edits.specs.declared.edit.Edit.TheVariants as edits;
ghost use Rattle.tree_edits.specs.declared.edit.EditError.TheVariants as errors;

use crate::EditError;
use crate::places::element_place;
use crate::scope::scope_inside;
use std::alloc::Global;
use std::mem;
use tree_rows::{Attribute, Attributes, Content, Expanded, MAX_ATTRIBUTES, Row};
use xs_names::{Text, TextPool};

/// Writes the name of an element into its row.
fn write_name(rows: &mut Vec<Row>, place: usize, name: Expanded)
    requires { place < length rows.old.items }
    ensures { (row : Row) → row ≡ slice_index_or rows.old.items place row → rows.new.items ≡ slice_set rows.old.items place (record row { content = contents.Element name }) }
{
    rows[place].content = Content::Element(name);
}

/// Gives an element another name.
pub fn rename_element(
    alloc: Global,
    rows: &mut Vec<Row>,
    node: u32,
    name: &Text,
) -> Result<(), EditError>
    requires sound { AreSound rows.old.items }
    ensures ok { OnOk result (Makes rows.old.items rows.new.items (edits.Rename node name.now)) }
    ensures err { IfErr result (CannotMake rows.old.items (edits.Rename node name.now)) }
    ensures kept { OnErr result (rows.new.items ≡ rows.old.items) }
{
    let place = element_place(rows, node)?;
    let scope = scope_inside(alloc, rows, place)?;
    let mut pool = TextPool::new(alloc);
    let resolved = scope.element_name(&mut pool, name.as_str())?;
    let own = resolved?;
    write_name(rows, place, own);
    Ok(())
}

/// The place of the attribute of this name.
fn attribute_place(attributes: &[Attribute], name: &Expanded) -> Option<usize>
    ensures { result ≡ position (λ a. same_name a.name name.now) attributes.now }
{
    attributes
        .iter()
        .position(|attribute| attribute.name.is_same(name))
}

/// Puts an attribute behind the others of an element, where it may have one more.
fn push_attribute(row: &mut Row, name: Expanded, value: Text) -> Result<(), EditError>
    requires { has_name name row.old.attributes ≡ false }
    ensures ok { OnOk result ((row.new ≡ record row.old { attributes = set_in name value row.old.attributes }) × (has_no_room name row.old.bindings row.old.attributes ≡ false)) }
    ensures err { IfErr result (λ e. e ≢ errors.Memory → (e ≡ errors.TooManyAttributes) × (has_no_room name row.old.bindings row.old.attributes ≡ true)) }
    ensures kept { OnErr result (row.new ≡ row.old) }
{
    if row.attributes.len().saturating_add(row.bindings.len()) >= MAX_ATTRIBUTES {
        return Err(EditError::TooManyAttributes);
    }
    row.attributes.push(Attribute { name, value })?;
    Ok(())
}

/// Gives the attribute of this name a value; where there is none, it is put behind the others.
fn write_attribute(row: &mut Row, name: Expanded, value: Text) -> Result<(), EditError>
    ensures ok { OnOk result ((row.new ≡ record row.old { attributes = set_in name value row.old.attributes }) × (has_no_room name row.old.bindings row.old.attributes ≡ false)) }
    ensures err { IfErr result (λ e. e ≢ errors.Memory → (e ≡ errors.TooManyAttributes) × (has_no_room name row.old.bindings row.old.attributes ≡ true)) }
    ensures kept { OnErr result (row.new ≡ row.old) }
{
    match attribute_place(row.attributes.as_slice(), &name) {
        Some(place) => {
            row.attributes.as_mut_slice()[place] = Attribute { name, value };
            Ok(())
        }
        None => push_attribute(row, name, value),
    }
}

/// Gives an attribute of an element a value.
pub fn set_attribute(
    alloc: Global,
    rows: &mut Vec<Row>,
    node: u32,
    name: &Text,
    value: &Text,
) -> Result<(), EditError>
    requires sound { AreSound rows.old.items }
    ensures ok { OnOk result (Makes rows.old.items rows.new.items (edits.SetAttr node name.now value.now)) }
    ensures err { IfErr result (CannotMake rows.old.items (edits.SetAttr node name.now value.now)) }
    ensures kept { OnErr result (rows.new.items ≡ rows.old.items) }
{
    let place = element_place(rows, node)?;
    let scope = scope_inside(alloc, rows, place)?;
    let mut pool = TextPool::new(alloc);
    let resolved = scope.attribute_name(&mut pool, name.as_str())?;
    let own = resolved?;
    let value = value.try_clone()?;
    write_attribute(&mut rows[place], own, value)
}

/// Takes the attribute of this place out.
fn take_out(alloc: Global, row: &mut Row, place: usize)
    requires { place < length row.old.attributes }
    ensures { row.new ≡ record row.old { attributes = remove row.old.attributes place } }
{
    let mut items = mem::replace(&mut row.attributes, Attributes::new(alloc)).into_vec();
    items.remove(place);
    row.attributes = Attributes::from_vec(items);
}

/// Takes an attribute of an element away.
pub fn unset_attribute(
    alloc: Global,
    rows: &mut Vec<Row>,
    node: u32,
    name: &Text,
) -> Result<(), EditError>
    requires sound { AreSound rows.old.items }
    ensures ok { OnOk result (Makes rows.old.items rows.new.items (edits.UnsetAttr node name.now)) }
    ensures err { IfErr result (CannotMake rows.old.items (edits.UnsetAttr node name.now)) }
    ensures kept { OnErr result (rows.new.items ≡ rows.old.items) }
{
    let place = element_place(rows, node)?;
    let scope = scope_inside(alloc, rows, place)?;
    let mut pool = TextPool::new(alloc);
    let resolved = scope.attribute_name(&mut pool, name.as_str())?;
    let own = resolved?;
    let Some(at) = attribute_place(rows[place].attributes.as_slice(), &own) else {
        return Err(EditError::NoSuchAttribute);
    };
    take_out(alloc, &mut rows[place], at);
    Ok(())
}
