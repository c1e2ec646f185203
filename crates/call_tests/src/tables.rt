use std::alloc::{AllocError, Global};
use std::test::Fail;
use xs_components::{
    Components, Constraint, ConstraintIdList, ConstraintKind, ElementDecl, Methods, PathText,
    PathTextList, Place,
};
use xs_names::{NameId, Names, NsId, Scope, Text};

const PLACE: Place = Place {
    document: 1,
    item: 3,
};

const NONE: Methods = Methods {
    extension: false,
    restriction: false,
    substitution: false,
    by_list: false,
    by_union: false,
};

fn element(alloc: Global, name: NameId) -> ElementDecl {
    ElementDecl {
        name,
        at: PLACE,
        global: true,
        of: None,
        head: None,
        value: None,
        nillable: false,
        is_abstract: false,
        finals: NONE,
        blocks: NONE,
        constraints: ConstraintIdList::new(alloc),
    }
}

fn key(alloc: Global, name: NameId) -> Result<Constraint, AllocError> {
    Ok(Constraint {
        name,
        at: PLACE,
        kind: ConstraintKind::Key,
        selector: PathText {
            text: Text::new(alloc, "a/b")?,
            at: PLACE,
            scope: Scope::new(alloc)?,
        },
        fields: PathTextList::new(alloc),
    })
}

/// Whether the first element has the constraints that it is given, and the first constraint its place.
fn is_constrained(parts: &mut Components, constraints: ConstraintIdList) -> bool {
    let (Some(id), Some(constraint)) = (parts.element_at(0), parts.constraint_at(0)) else {
        return false;
    };
    parts.set_constraints(id, constraints);
    parts.rank_constraint(constraint, 6);
    match (parts.elements().first(), parts.constraints().first()) {
        (Some(element), Some(key)) => element.constraints.len() == 1 && key.at == PLACE,
        _ => false,
    }
}

/// The first constraint alone.
fn first_constraint(alloc: Global, parts: &Components) -> Result<ConstraintIdList, AllocError> {
    let mut constraints = ConstraintIdList::new(alloc);
    if let Some(id) = parts.constraint_at(0) {
        constraints.push(id)?;
    }
    Ok(constraints)
}

fn constrains(alloc: Global, parts: &mut Components, name: NameId) -> Result<bool, AllocError> {
    parts.add_constraint(key(alloc, name)?)?;
    parts.add_element(element(alloc, name))?;
    let constraints = first_constraint(alloc, parts)?;
    Ok(is_constrained(parts, constraints) && parts.constraint_ranks() == [6].as_slice())
}

fn some_name(alloc: Global) -> Result<NameId, AllocError> {
    match Names::new(alloc) {
        Ok(mut names) => names.intern(NsId::ABSENT, "a"),
        Err(error) => Err(error),
    }
}

#[test]
fn keeps_constraints(rt: HostRuntime) -> Result<(), Fail> {
    let name = some_name(rt.alloc())?;
    let mut parts = Components::new(rt.alloc())?;
    assert!(rt; constrains(rt.alloc(), &mut parts, name)?);
    Ok(())
}
