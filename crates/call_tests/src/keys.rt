use identity_tables::{KeyTables, Tuple};
use simple_values::{Atom, Characters, Key};
use std::alloc::{AllocError, Global};
use std::process::Abort;
use std::test::Fail;
use xs_codes::Code;

// The tuple of one text.
fn tuple_of(alloc: Global, text: &str) -> Result<Tuple, AllocError> {
    let mut tuple = Tuple::new(alloc);
    let characters = Characters::new(alloc, text)?;
    tuple.push(Key::Atom(Atom::Text(characters)))?;
    Ok(tuple)
}

/// A tuple that stands twice in the own table of a constraint, and once in it.
fn check_tables(rt: &impl Abort, tables: &mut KeyTables, tuple: &Tuple) -> Result<(), AllocError> {
    tables.add(1, 0, tuple.clone()?)?;
    tables.add(1, 0, tuple.clone()?)?;
    assert!(rt; tables.own_count(1, 0, tuple) == 2 && tables.visible(1, 0, tuple));
    assert!(rt; tables.broken(1, 0) == Some(Code::CvcIdentityConstraint4_1));
    if tables.own_count(1, 0, tuple) > 0 {
        tables.drop_entry(1, 0, tuple);
    }
    assert!(rt; tables.own_count(1, 0, tuple) == 1 && tables.broken(1, 0).is_none());
    Ok(())
}

fn check_tuple(rt: &impl Abort, alloc: Global, tuple: &Tuple) -> Result<(), Fail> {
    let mut tables = KeyTables::new(alloc)?;
    check_tables(rt, &mut tables, tuple)?;
    Ok(())
}

#[test]
fn tuples_are_added_and_dropped(rt: HostRuntime) -> Result<(), Fail> {
    match tuple_of(rt.alloc(), "é") {
        Ok(tuple) => check_tuple(&rt, rt.alloc(), &tuple),
        Err(error) => Err(error.into()),
    }
}
