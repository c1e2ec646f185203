//! The content of a restriction against that of its base, but for its content model.

ghost use Rattle.std.specs.Prelude.{◌≡◌, Some, List, IfOk, IfSome};
ghost use Rattle.xs_components.specs.declared.common.TypeId.{TypeId as TypeIdValue};
ghost use Rattle.xs_components.specs.declared.complex.ContentForm.TheVariants as forms;
ghost use Rattle.xs_components.specs.declared.simple.FacetItem.{FacetItem};
ghost use Rattle.component_references.specs.Heights.{IsType};
ghost use Rattle.component_tables.specs.Bases.{AreLinesOf};
ghost use Rattle.component_tables.specs.ContentTypes.{AreContentsOf, content_of};
ghost use Rattle.particle_forms.specs.Ranges.{AreRangesOf};
ghost use Rattle.derive_faults.specs.TypeFaults.{IsFirstCode};
ghost use Rattle.derive_restriction.specs.Given.{AreGiven};
ghost use Rattle.derive_restriction.specs.Contents as spec;

use crate::ComparedSet;
use crate::texts::is_text_derived;
use component_tables::ContentType;
use derive_faults::{has_emptiable_model, when, when_not};
use std::alloc::{AllocError, Global};
use xs_codes::Code;
use xs_components::{ComplexType, ContentForm, TypeId};

// Whether content is empty, or has a content model that is emptiable.
fn may_be_empty(content: ContentType, emptiable: bool) -> bool
    ensures { result ≡ spec.may_be_empty content emptiable }
{
    match content {
        ContentType::Empty => true,
        ContentType::SimpleType | ContentType::SimpleContent => false,
        ContentType::ElementOnly | ContentType::Mixed => emptiable,
    }
}

// Whether the content is mixed.
fn is_mixed(content: ContentType) -> bool
    ensures { result ≡ spec.is_mixed content }
{
    content == ContentType::Mixed
}

// The code of a content model against the content of a base.
fn model_code(content: ContentType, emptiable: bool, has_model: bool, mixed: bool) -> Option<Code>
    ensures { result ≡ spec.model_code content emptiable has_model mixed }
{
    if has_model {
        when_not(mixed, is_mixed(content), Code::DerivationOkRestriction5_4_1)
    } else {
        when(
            !may_be_empty(content, emptiable),
            Code::DerivationOkRestriction5_3,
        )
    }
}

// Whether simple content is none of a restriction of content, by whether its type derives from that of the base's text and
// whether the base has an emptiable model.
fn is_other(content: ContentType, derived: bool, emptiable: bool) -> bool
    ensures { result ≡ spec.is_other content derived emptiable }
{
    match content {
        ContentType::SimpleType | ContentType::Empty | ContentType::ElementOnly => false,
        ContentType::SimpleContent => !derived,
        ContentType::Mixed => !emptiable,
    }
}

// The code of simple content, with a simple type of its own or without.
fn simple_code(
    alloc: Global,
    set: &ComparedSet<'_>,
    content: ContentType,
    own: Option<TypeId>,
    base: &TypeId,
) -> Result<Option<Code>, AllocError>
    requires given { AreGiven set.now.parts.now set.now.names.now }
    requires bases { AreLinesOf set.now.parts.now set.now.bases.now }
    requires ranges { AreRangesOf set.now.parts.now set.now.ranges.now }
    requires own { IfSome own (IsType set.now.parts.now) }
    requires base { IsType set.now.parts.now base.now }
    ensures first { IfOk result (IsFirstCode (spec.BreaksSimple set.now.parts.now base.now content own)) }
{
    let derived = is_text_derived(alloc, set.parts, set.bases, own, *base)?;
    let emptiable = has_emptiable_model(set.parts, set.ranges, base);
    let other = is_other(content, derived, emptiable);
    Ok(when(other, Code::DerivationOkRestriction5_2))
}

/// The code of the content of a type against that of its base.
pub(crate) fn content_code(
    alloc: Global,
    set: &ComparedSet<'_>,
    part: &ComplexType,
) -> Result<Option<Code>, AllocError>
    requires given { AreGiven set.now.parts.now set.now.names.now }
    requires bases { AreLinesOf set.now.parts.now set.now.bases.now }
    requires ranges { AreRangesOf set.now.parts.now set.now.ranges.now }
    requires contents { AreContentsOf set.now.parts.now set.now.contents.now }
    requires base { IsType set.now.parts.now part.now.base }
    requires own { (own : TypeIdValue) (step : List FacetItem) → part.now.content ≡ forms.Simple (Some own) step → IsType set.now.parts.now own }
    ensures first { IfOk result (IsFirstCode (spec.BreaksContent set.now.parts.now part.now)) }
{
    let content = set.contents.content_of(part.base);
    match &part.content {
        ContentForm::Simple { own, .. } => simple_code(alloc, set, content, *own, &part.base),
        ContentForm::Complex { effective, mixed } => {
            let emptiable = has_emptiable_model(set.parts, set.ranges, &part.base);
            Ok(model_code(content, emptiable, effective.is_some(), *mixed))
        }
    }
}
