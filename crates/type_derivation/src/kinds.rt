ghost use Rattle.std.specs.Prelude.{◌≡◌};
ghost use Rattle.type_derivation.specs.inside.Kinds.{goes_by_base, kind_in, next_kind};

use component_tables::{ContentType, form_content};
use xs_components::{ComplexType, ContentForm, TypeId};

// Whether the content type of a complex type goes by that of its base.
fn goes_by_base(by_extension: bool, content: &ContentForm) -> bool
    ensures { result ≡ goes_by_base by_extension content.now }
{
    match content {
        ContentForm::Simple { .. } => false,
        ContentForm::Complex { effective, .. } => match effective {
            Some(_) => false,
            None => by_extension,
        },
    }
}

// The content type of a type, as far as it is known.
pub(crate) fn kind_of(known: &[Option<ContentType>], of: TypeId) -> Option<ContentType>
    ensures { result ≡ kind_in known.now of }
{
    match of {
        TypeId::AnyType => Some(ContentType::Mixed),
        TypeId::Builtin(_) => Some(ContentType::SimpleType),
        TypeId::Simple(_) => Some(ContentType::SimpleType),
        TypeId::Complex(id) => {
            let number = id.number() as usize;
            if number < known.len() {
                known[number]
            } else {
                None
            }
        },
    }
}

// The content type of a complex type, as far as its form tells it or that of its base is known.
pub(crate) fn kind_by(known: &[Option<ContentType>], part: &ComplexType) -> Option<ContentType>
    ensures { result ≡ next_kind known.now part.now }
{
    if !goes_by_base(part.by_extension, &part.content) {
        return Some(form_content(part.by_extension, &part.content, ContentType::Empty));
    }
    match kind_of(known, part.base) {
        Some(base) => Some(form_content(part.by_extension, &part.content, base)),
        None => None,
    }
}
