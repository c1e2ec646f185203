//! The attribute use of a name, as it is written.

ghost use Rattle.std.specs.Prelude.{◌≡◌, ◌<◌, None, length, IfSome, IfNone, MatchOption};
ghost use Rattle.std.specs.Option.{option_copied};
ghost use Rattle.attr_uses.specs.Written.{use_name};
ghost use Rattle.attr_assess.specs.inside.Uses as inside;

use crate::added::space_text;
use crate::{AddedUse, AttrSchema};
use attr_uses::{UseAt, use_at};
use xs_components::{AttrUse, AttributeDecl, Components, ValueConstraint};

/// An attribute use: where it is written, what is, and its declaration.
#[derive(Clone, Copy)]
pub(crate) struct FoundUse<'a> {
    pub at: UseAt,
    pub part: &'a AttrUse,
    pub decl: &'a AttributeDecl,
}

/// What is written in a place.
pub(crate) fn written_use(parts: &Components, at: UseAt) -> Option<FoundUse<'_>>
    ensures found { IfSome result (inside.IsWritten parts.now at) }
    ensures none { IfNone result (use_name parts.now at ≡ None) }
{
    let Some(part) = use_at(parts, at) else {
        return None;
    };
    match parts.attributes().get(part.attribute.number() as usize) {
        None => None,
        Some(decl) => Some(FoundUse { at, part, decl }),
    }
}

impl<'a> FoundUse<'a> {
    /// The use, if it gives its attribute a value.
    pub(crate) fn added(&self, schema: &AttrSchema<'a>) -> Option<AddedUse<'a>>
        requires named { self.now.decl.now.name < length schema.now.names.now.names }
        ensures added { MatchOption result
            (inside.constraint_of self.now ≡ None)
            (inside.IsAddedOf schema.now.names.now self.now) }
    {
        let constraint = self.constraint()?;
        let name = self.decl.name;
        Some(AddedUse {
            name,
            space: space_text(schema.names, name),
            local: schema.names.local(name),
            at: self.at,
            attribute: self.part.attribute,
            constraint,
        })
    }

    /// Its effective value constraint (Structures 3.4.6).
    pub(crate) fn constraint(&self) -> Option<&'a ValueConstraint>
        ensures { option_copied result ≡ inside.constraint_of self.now }
    {
        match self.part.value.as_ref() {
            Some(own) => Some(own),
            None => self.decl.value.as_ref(),
        }
    }
}
