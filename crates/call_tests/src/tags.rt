use std::alloc::{AllocError, Global};
use std::process::Abort;
use std::test::Fail;
use tag_names::{NameReason, Prefixes};
use tree_rows::{Binding, Expanded};
use xs_names::{Text, TextPool};

/// Binds a prefix to a namespace.
fn bind(
    alloc: Global,
    scope: &mut Prefixes,
    prefix: &str,
    namespace: &str,
) -> Result<(), AllocError> {
    let prefix = Text::new(alloc, prefix)?;
    let namespace = Text::new(alloc, namespace)?;
    scope.bind(Binding { prefix, namespace })
}

/// A QName, what it is as an element's name where `p` is bound to `u` and the default namespace is `d`, and what it is
/// as an attribute's.
type QName = (
    &'static str,
    Result<&'static str, NameReason>,
    Result<&'static str, NameReason>,
);

const QNAMES: &[QName] = &[
    ("a", Ok("{d}a"), Ok("a")),
    ("p:a", Ok("{u}a"), Ok("{u}a")),
    (
        "q:a",
        Err(NameReason::UnboundPrefix),
        Err(NameReason::UnboundPrefix),
    ),
    ("p:q:a", Err(NameReason::BadName), Err(NameReason::BadName)),
    ("", Err(NameReason::BadName), Err(NameReason::BadName)),
    ("xmlns", Ok("{d}xmlns"), Err(NameReason::ReservedName)),
    (
        "xmlns:p",
        Err(NameReason::ReservedName),
        Err(NameReason::ReservedName),
    ),
];

/// Whether a name is written so, or refused so.
fn is_shown(
    alloc: Global,
    found: &Result<Expanded, NameReason>,
    wanted: &Result<&str, NameReason>,
) -> Result<bool, AllocError> {
    match (found, wanted) {
        (Ok(name), Ok(text)) => Ok(name.clark_name(alloc)?.as_str() == *text),
        (Err(reason), Err(other)) => Ok(*reason == *other),
        _ => Ok(false),
    }
}

fn check_names(rt: &impl Abort, alloc: Global, scope: &Prefixes) -> Result<(), AllocError> {
    for (name, element, attribute) in QNAMES {
        let mut pool = TextPool::new(alloc);
        let found = scope.element_name(&mut pool, name)?;
        assert!(rt; is_shown(alloc, &found, element)?, "{name}");
        let found = scope.attribute_name(&mut pool, name)?;
        assert!(rt; is_shown(alloc, &found, attribute)?, "{name}");
    }
    Ok(())
}

fn check_scope(rt: &impl Abort, alloc: Global, scope: &mut Prefixes) -> Result<(), AllocError> {
    bind(alloc, scope, "p", "u")?;
    bind(alloc, scope, "", "d")?;
    check_names(rt, alloc, scope)
}

#[test]
fn resolves_a_name_by_itself(rt: HostRuntime) -> Result<(), Fail> {
    let mut scope = Prefixes::new(rt.alloc())?;
    check_scope(&rt, rt.alloc(), &mut scope)?;
    Ok(())
}
