use std::alloc::{AllocError, Global};
use xs_codes::Builtin;
use xs_components::{
    AttrGroupIdList, AttrUseList, ComplexType, Components, ContentForm, FacetStep, Methods,
    NameIdList, Place, TypeId,
};

/// What a type is derived from: string, anyType, or the type before it in the table.
#[derive(Clone, Copy)]
pub enum Base {
    String,
    Any,
    Before,
}

/// Complex content without a particle, or simple content, maybe with a simple type of its own.
#[derive(Clone, Copy)]
pub enum Content {
    Complex,
    Simple,
    SimpleOfItsOwn,
}

/// A complex type at an item, by extension or by restriction.
#[derive(Clone, Copy)]
pub enum Derived {
    Extended(u32, Base, Content),
    Restricted(u32, Base, Content),
}

const NO_METHODS: Methods = Methods {
    extension: false,
    restriction: false,
    substitution: false,
    by_list: false,
    by_union: false,
};

const STRING: TypeId = TypeId::Builtin(Builtin::String);

fn form_of(alloc: Global, content: Content) -> ContentForm {
    let own = match content {
        Content::Complex => {
            return ContentForm::Complex {
                effective: None,
                mixed: false,
            };
        }
        Content::Simple => None,
        Content::SimpleOfItsOwn => Some(STRING),
    };
    ContentForm::Simple {
        own,
        step: FacetStep::new(alloc),
    }
}

fn complex_of(
    alloc: Global,
    item: u32,
    base: TypeId,
    by_extension: bool,
    content: ContentForm,
) -> ComplexType {
    ComplexType {
        name: None,
        at: Place { document: 1, item },
        base,
        by_extension,
        is_abstract: false,
        finals: NO_METHODS,
        blocks: NO_METHODS,
        content,
        uses: AttrUseList::new(alloc),
        groups: AttrGroupIdList::new(alloc),
        prohibited: NameIdList::new(alloc),
        wildcard: None,
    }
}

// Adds a type behind the one that is before it.
fn add_type(
    alloc: Global,
    parts: &mut Components,
    before: TypeId,
    derived: Derived,
) -> Result<TypeId, AllocError> {
    let (by_extension, item, base, content) = match derived {
        Derived::Extended(item, base, content) => (true, item, base, content),
        Derived::Restricted(item, base, content) => (false, item, base, content),
    };
    let base = match base {
        Base::String => STRING,
        Base::Any => TypeId::AnyType,
        Base::Before => before,
    };
    let content = form_of(alloc, content);
    let id = parts.add_complex(complex_of(alloc, item, base, by_extension, content))?;
    Ok(TypeId::Complex(id))
}

/// Adds these types.
pub fn add_types(
    alloc: Global,
    parts: &mut Components,
    types: &[Derived],
) -> Result<(), AllocError> {
    let mut before = TypeId::AnyType;
    for derived in types {
        before = add_type(alloc, parts, before, *derived)?;
    }
    Ok(())
}
