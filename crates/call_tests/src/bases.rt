use crate::parts::{Base, Content, Derived, add_types};
use std::alloc::{AllocError, Global};
use std::test::Fail;
use type_derivation::first_base;
use xs_codes::{Code, Fault};
use xs_components::Components;

/// Types, and the item and the code of the first whose base is of the wrong kind.
const ROWS: &[(&str, &[Derived], Option<(u32, Code)>)] = &[
    (
        "complex content of a simple type",
        &[Derived::Extended(2, Base::String, Content::Complex)],
        Some((2, Code::SrcCt1)),
    ),
    (
        "simple content by restriction of a simple type, behind an extension of it",
        &[
            Derived::Extended(2, Base::String, Content::Simple),
            Derived::Restricted(3, Base::String, Content::Simple),
        ],
        Some((3, Code::SrcCt2)),
    ),
    (
        "simple content by restriction of anyType, whose content is mixed, with a simple type of its own and without",
        &[
            Derived::Restricted(2, Base::Any, Content::SimpleOfItsOwn),
            Derived::Restricted(3, Base::Any, Content::Simple),
        ],
        Some((3, Code::SrcCt2)),
    ),
    (
        "simple content by restriction of an extension without content of its own",
        &[
            Derived::Extended(2, Base::String, Content::Simple),
            Derived::Extended(3, Base::Before, Content::Complex),
            Derived::Restricted(4, Base::Before, Content::Simple),
        ],
        None,
    ),
    (
        "both, where the later in the table is the earlier in the document",
        &[
            Derived::Extended(5, Base::String, Content::Complex),
            Derived::Restricted(4, Base::String, Content::Simple),
        ],
        Some((4, Code::SrcCt2)),
    ),
];

fn fault_among(
    alloc: Global,
    parts: &mut Components,
    types: &[Derived],
) -> Result<Option<Fault>, AllocError> {
    add_types(alloc, parts, types)?;
    first_base(alloc, parts)
}

/// The first of these types whose base is of the wrong kind.
fn fault_of(alloc: Global, types: &[Derived]) -> Result<Option<Fault>, AllocError> {
    match Components::new(alloc) {
        Ok(mut parts) => fault_among(alloc, &mut parts, types),
        Err(error) => Err(error),
    }
}

/// The fault that is expected.
fn expected_fault(expected: Option<(u32, Code)>) -> Option<Fault> {
    let (item, code) = expected?;
    Some(Fault {
        phase: 4,
        document: 1,
        item,
        code,
    })
}

#[test]
fn bases_of_the_wrong_kind(rt: HostRuntime) -> Result<(), Fail> {
    for (case, types, expected) in ROWS {
        let found = fault_of(rt.alloc(), types)?;
        assert!(rt; found == expected_fault(*expected), "{case}");
    }
    Ok(())
}
