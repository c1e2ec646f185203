ghost use Rattle.std.specs.Prelude.{◌≡◌, OnOk};
ghost use Rattle.representations.specs.Documents as spec;

use crate::naming::{Naming, naming_of, number_space};
use schema_shape::Shape;
use std::alloc::AllocError;
use tree_rows::Binding;
use xs_names::{Names, Text};

// The namespaces of bindings.
fn add_bindings(names: &mut Names, bindings: &[Binding]) -> Result<(), AllocError>
    ensures { OnOk result (names.new ≡ spec.bindings_table bindings.now names.old) }
{
    for binding in bindings {
        names.namespace_id(binding.namespace.as_str())?;
    }
    Ok(())
}

// The names in a shape.
fn add_shape(naming: &Naming, names: &mut Names, shape: &Shape) -> Result<(), AllocError>
    ensures { OnOk result (names.new ≡ spec.shape_table naming.now shape.now names.old) }
{
    add_bindings(names, shape.bindings.as_slice())?;
    naming.form(names, &shape.form)
}

// The names in shapes.
fn add_shapes(naming: &Naming, names: &mut Names, shapes: &[Shape]) -> Result<(), AllocError>
    ensures { OnOk result (names.new ≡ spec.shapes_table naming.now shapes.now names.old) }
{
    for shape in shapes {
        add_shape(naming, names, shape)?;
    }
    Ok(())
}

/// Puts the names that stand in a document into a table, in document order, where the document has this target namespace in
/// a set.
pub fn number_names(
    names: &mut Names,
    target: &Option<Text>,
    shapes: &[Shape],
) -> Result<(), AllocError>
    ensures table { OnOk result (names.new ≡ spec.document_table target.now shapes.now names.old) }
{
    let naming = naming_of(target, shapes)?;
    number_space(names, target)?;
    add_shapes(&naming, names, shapes)
}
