//! The content type of each type of a schema set (Structures 3.4.1, 3.4.2), found once.

ghost use Rattle.std.specs.Prelude.{◌≡◌, ℕ, ◌<◌, List, length, slice_get, slice_index_or, IfOk};
ghost use Rattle.xs_components.specs.Tables.{Tables};
ghost use Rattle.component_references.specs.Ranked.{IsRanked};
ghost use Rattle.component_tables.specs.ContentTypes as spec;
ghost use Rattle.component_tables.specs.inside.Filled.{AreFilled};

use component_references::{Rule, fill, order_of};
use std::alloc::{AllocError, Global};
use std::marker::Model;
use xs_components::{Components, ContentForm, TypeId};

/// What elements of a type contain.
#[derive(Clone, Copy, PartialEq)]
pub enum ContentType {
    /// The type is a simple type: text that it accepts.
    SimpleType,
    /// Nothing.
    Empty,
    /// Text that a simple type accepts; the type is complex.
    SimpleContent,
    /// Elements by a content model.
    ElementOnly,
    /// Elements by a content model, and characters between them.
    Mixed,
}

/// The content types of all complex types of a schema set.
pub struct ContentTypes {
    complexes: Vec<ContentType>,
}

impl Model for ContentTypes {
    ghost use Rattle.std.specs.Prelude.{List};
    ghost use Rattle.component_tables.specs.declared.content_types.ContentType.{ContentType};

    ghost Value = { List ContentType };

    ghost view = { λ c. c.complexes.items };
}

impl ContentTypes {
    /// Finds them, each once, that of the base before.
    pub fn of(alloc: Global, parts: &Components) -> Result<ContentTypes, AllocError>
        requires ranked { IsRanked parts.now }
        ensures contents { IfOk result (spec.AreContentsOf parts.now) }
    {
        let complexes = find_contents(alloc, parts)?;
        Ok(ContentTypes { complexes })
    }

    /// The content type of a type.
    pub fn content_of(&self, of: TypeId) -> ContentType
        ensures content { (t : Tables) → spec.AreContentsOf t self.now → result ≡ spec.content_of t of }
    {
        base_content(self.complexes.as_slice(), of)
    }
}

// The content types of all complex types, each found once from those of lower rank.
fn find_contents(alloc: Global, parts: &Components) -> Result<Vec<ContentType>, AllocError>
    requires ranked { IsRanked parts.now }
    ensures contents { IfOk result (λ contents. AreFilled parts.now contents.items) }
{
    let order = order_of(alloc, parts.complex_ranks())?;
    let mut contents = Vec::from_elem(alloc, ContentType::Empty, parts.complexes().len())?;
    fill(&ContentRule { parts }, &order, contents.as_mut_slice());
    Ok(contents)
}

// How the content type of a complex type comes from that of its base.
#[derive(Clone, Copy)]
struct ContentRule<'a> {
    parts: &'a Components,
}

impl Rule<ContentType> for ContentRule<'_> {
    ghost is_valid = { λ r. IsRanked r.parts.now };

    ghost count = { λ r. length r.parts.now.complexes.parts };

    ghost ranks = { λ r. r.parts.now.complexes.ranks };

    ghost value_of = { λ r n. spec.complex_content r.parts.now n };

    fn value(&self, x: u32, table: &[ContentType]) -> ContentType {
        let part = &self.parts.complexes()[x as usize];
        form_content(
            part.by_extension,
            &part.content,
            base_content(table, part.base),
        )
    }
}

// The content type of a type, by a table of those of complex types.
fn base_content(table: &[ContentType], of: TypeId) -> ContentType
    ensures { result ≡ spec.type_content (spec.known table.now) of }
{
    match of {
        TypeId::AnyType => ContentType::Mixed,
        TypeId::Builtin(_) => ContentType::SimpleType,
        TypeId::Simple(_) => ContentType::SimpleType,
        TypeId::Complex(id) => match table.get(id.number() as usize) {
            Some(content) => *content,
            None => ContentType::Empty,
        },
    }
}

/// The content type of a complex type (Structures 3.4.2), by its form and the content type of its base.
pub fn form_content(by_extension: bool, form: &ContentForm, base: ContentType) -> ContentType
    ensures { result ≡ spec.form_content by_extension form.now base }
{
    match form {
        ContentForm::Simple { .. } => ContentType::SimpleContent,
        ContentForm::Complex { effective, mixed } => match effective {
            Some(_) => model_content(*mixed),
            None => {
                if by_extension {
                    taken(base)
                } else {
                    ContentType::Empty
                }
            }
        },
    }
}

// The content type of a type with a content model.
fn model_content(mixed: bool) -> ContentType
    ensures { result ≡ spec.model_content mixed }
{
    if mixed {
        ContentType::Mixed
    } else {
        ContentType::ElementOnly
    }
}

// The content type that is taken from a base.
fn taken(base: ContentType) -> ContentType
    ensures { result ≡ spec.taken base }
{
    match base {
        ContentType::SimpleType => ContentType::SimpleContent,
        _ => base,
    }
}

impl Drop for ContentTypes {
    fn drop(self) {
        let ContentTypes { complexes } = self;
        drop(complexes);
    }
}
