use identity_tables::IdTable;
use std::alloc::AllocError;
use std::process::Abort;
use std::test::Fail;

/// An id of two bearers and a reference to another one; then one bearer less, and no reference.
fn check_ids(rt: &impl Abort, table: &mut IdTable) -> Result<(), AllocError> {
    table.add_id("a", 1)?;
    table.add_id("a", 2)?;
    table.add_ref("b")?;
    assert!(rt; table.codes() == (true, true));
    assert!(rt; table.id_count("a", 1) == 1 && table.reference_count("b") == 1);
    if table.id_count("a", 2) > 0 {
        table.drop_id("a", 2);
    }
    if table.reference_count("b") > 0 {
        table.drop_ref("b");
    }
    assert!(rt; table.codes() == (false, false));
    Ok(())
}

#[test]
fn ids_are_added_and_dropped(rt: HostRuntime) -> Result<(), Fail> {
    let mut table = IdTable::new(rt.alloc())?;
    check_ids(&rt, &mut table)?;
    Ok(())
}
