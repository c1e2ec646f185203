//! Values and keys.
use simple_values::{Key, Value, key_of, read_builtin, same, same_key};
use std::alloc::{AllocError, Global};
use std::collections::HashMap;
use std::test::Fail;
use xs_codes::Builtin;
use xs_names::{Names, Scope, Text};

// The scope that binds `p`.
fn scope_with_p(alloc: Global) -> Result<Scope, AllocError> {
    match Names::new(alloc) {
        Ok(mut names) => scope_of_p(alloc, &mut names),
        Err(error) => Err(error),
    }
}

fn scope_of_p(alloc: Global, names: &mut Names) -> Result<Scope, AllocError> {
    let space = names.namespace_id("urn:p")?;
    let mut scope = Scope::new(alloc)?;
    scope.bind(&Text::new(alloc, "p")?, space)?;
    Ok(scope)
}

// The value of a literal, if it has one.
fn value_at(alloc: Global, kind: Builtin, text: &str) -> Result<Option<Value>, AllocError> {
    let scope = scope_with_p(alloc)?;
    Ok(read_builtin(alloc, kind, text, &scope)?.ok())
}

fn key_at(alloc: Global, kind: Builtin, text: &str) -> Result<Option<Key>, AllocError> {
    match value_at(alloc, kind, text)? {
        Some(value) => Ok(Some(key_of(alloc, &value)?)),
        None => Ok(None),
    }
}

// What a clone keeps of a value: that it is the same, and the type that accepted it.
fn is_kept(value: &Value, copy: &Value) -> bool {
    let accepted = match (value, copy) {
        (Value::Atom { builtin: x, .. }, Value::Atom { builtin: y, .. }) => x == y,
        (Value::List(x), Value::List(y)) => x.len() == y.len(),
        _ => false,
    };
    accepted && same(value, copy)
}

fn is_kept_by_clone(value: &Value) -> Result<bool, AllocError> {
    let copy = value.clone()?;
    Ok(is_kept(value, &copy))
}

// Whether a literal has a value, which is kept by its clone.
fn is_cloned(alloc: Global, kind: Builtin, text: &str) -> Result<bool, AllocError> {
    match value_at(alloc, kind, text)? {
        Some(value) => is_kept_by_clone(&value),
        None => Ok(false),
    }
}

const LITERALS: &[(Builtin, &str)] = &[
    (Builtin::AnySimpleType, " a"),
    (Builtin::Id, "a"),
    (Builtin::AnyUri, "urn:a"),
    (Builtin::QName, "p:a"),
    (Builtin::Boolean, "1"),
    (Builtin::Byte, "200"),
    (Builtin::HexBinary, "00ff"),
    (Builtin::Base64Binary, "aGk="),
    (Builtin::GDay, "---01"),
    (Builtin::Duration, "P1Y"),
    (Builtin::NmTokens, "a b"),
];

#[test]
fn values_are_read_and_cloned(rt: HostRuntime) -> Result<(), Fail> {
    for (kind, text) in LITERALS {
        assert!(rt; is_cloned(rt.alloc(), *kind, text)?, "{text}");
    }
    Ok(())
}

// Whether the second literal's key is found in a map with the first one's. Both keys are compared, too.
fn is_found(alloc: Global, kept: (Builtin, &str), asked: (Builtin, &str)) -> Result<bool, Fail> {
    match key_at(alloc, asked.0, asked.1)? {
        Some(asked) => is_found_with(alloc, kept, &asked),
        None => Err("no value".into()),
    }
}

fn is_found_with(alloc: Global, kept: (Builtin, &str), asked: &Key) -> Result<bool, Fail> {
    match key_at(alloc, kept.0, kept.1)? {
        Some(kept) if same_key(&kept, asked) => is_in_map(alloc, kept, asked),
        Some(_) => Ok(false),
        None => Err("no value".into()),
    }
}

// Whether a key is found in a map with another one.
fn is_in_map(alloc: Global, kept: Key, asked: &Key) -> Result<bool, Fail> {
    let mut map = HashMap::new(alloc);
    map.insert(kept, 7)?;
    Ok(map.contains_key(asked))
}

#[test]
fn keys_serve_in_a_map(rt: HostRuntime) -> Result<(), Fail> {
    let one = (Builtin::Decimal, "1.0");
    assert!(rt; is_found(rt.alloc(), one, (Builtin::Byte, "1"))?);
    assert!(rt; !is_found(rt.alloc(), one, (Builtin::String, "1"))?);
    assert!(rt; !is_found(rt.alloc(), one, (Builtin::NmTokens, "1"))?);
    Ok(())
}
