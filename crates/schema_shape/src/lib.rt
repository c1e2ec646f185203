//! The shape of schema documents: what each declares, or the first constraint on its shape that it breaks.
#![tactic(auto)]

mod component_shapes;
mod content_shapes;
mod forms;
mod shaped;
mod simple_shapes;
mod walk;

pub use forms::{
    AttributeForm, ComplexTypeForm, Compositor, ElementForm, Form, IdentityKind, Reading,
    SchemaForm, Shape, ShapeList, ShapedSchema, Use, ValueForm, WildcardForm,
};
pub use walk::{read, shape};
