ghost use Rattle.std.specs.Prelude.{◌≡◌, ◌+◌, length, IfOk, OnOk};
ghost use Rattle.build_types.specs.Numbers.{type_id, type_ids, simples_in, complexes_in};
ghost use Rattle.build_types.specs.inside.Places.{no_methods, no_simple, no_complex, with_place, with_places};

use representations::{Representation, Represented};
use std::alloc::{AllocError, Global};
use xs_components::{
    ComplexType, Components, ContentForm, Methods, Place, SimpleForm, SimpleType, TypeId,
};
use xs_lists::Listed;

// No method of derivation.
fn no_methods() -> Methods
    ensures { result ≡ no_methods }
{
    Methods {
        extension: false,
        restriction: false,
        substitution: false,
        by_list: false,
        by_union: false,
    }
}

// What stands in the place of a simple type until it is built.
fn no_simple(alloc: Global, at: Place) -> SimpleType
    ensures { result ≡ no_simple at }
{
    SimpleType {
        name: None,
        at,
        finals: no_methods(),
        form: SimpleForm::Restrict {
            base: TypeId::AnyType,
            step: Listed::new(alloc),
        },
    }
}

// What stands in the place of a complex type until it is built.
fn no_complex(alloc: Global, at: Place) -> ComplexType
    ensures { result ≡ no_complex at }
{
    ComplexType {
        name: None,
        at,
        base: TypeId::AnyType,
        by_extension: false,
        is_abstract: false,
        finals: no_methods(),
        blocks: no_methods(),
        content: ContentForm::Complex {
            effective: None,
            mixed: false,
        },
        uses: Listed::new(alloc),
        groups: Listed::new(alloc),
        prohibited: Listed::new(alloc),
        wildcard: None,
    }
}

// Gives a type its number.
fn number_type(
    alloc: Global,
    parts: &mut Components,
    rep: &Representation,
) -> Result<TypeId, AllocError>
    ensures id { IfOk result (λ id. id ≡ type_id (length parts.old.simples.parts) (length parts.old.complexes.parts) rep.now.form) }
    ensures parts { OnOk result (parts.new ≡ with_place parts.old rep.now) }
    ensures simples { OnOk result (length parts.new.simples.parts ≡ length parts.old.simples.parts + simples_in rep.now.form) }
    ensures complexes { OnOk result (length parts.new.complexes.parts ≡ length parts.old.complexes.parts + complexes_in rep.now.form) }
{
    match &rep.form {
        Represented::SimpleType { .. } => {
            Ok(TypeId::Simple(parts.add_simple(no_simple(alloc, rep.at))?))
        }
        Represented::ComplexType(_) => {
            Ok(TypeId::Complex(parts.add_complex(no_complex(alloc, rep.at))?))
        }
        _ => Ok(TypeId::AnyType),
    }
}

/// Gives all types their numbers, and answers the type at each place, which is anyType where no type stands. What stands in
/// the tables for a type is of no account.
///
/// # Errors
///
/// `AllocError` is want of memory.
pub fn number_types(
    alloc: Global,
    parts: &mut Components,
    reps: &[Representation],
) -> Result<Listed<TypeId>, AllocError>
    ensures ids { IfOk result (λ ids. ids ≡ type_ids (length parts.old.simples.parts) (length parts.old.complexes.parts) reps.now) }
    ensures parts { OnOk result (parts.new ≡ with_places parts.old reps.now) }
{
    let mut ids = Listed::new(alloc);
    for rep in reps {
        ids.push(number_type(alloc, parts, rep)?)?;
    }
    Ok(ids)
}
