//! Records of attributes.

ghost use Rattle.std.specs.Prelude.{◌≡◌, ◌++◌, IfOk, OnOk};
ghost use Rattle.attr_assess.specs.Records as spec;

use crate::{AttrText, JudgedAttr};
use assess_records::{Attempted, AttrRecord, Codes, Shared, Validity, ValueSource};
use simple_values::Value;
use std::alloc::{AllocError, Global};
use xs_codes::{Code, Found};
use xs_components::TypeId;
use xs_names::NameId;

/// The record of an attribute by its codes and by the type of its declaration (Structures 3.2.5).
pub(crate) fn attr_record(
    name: NameId,
    of: Option<TypeId>,
    source: ValueSource,
    codes: Codes,
) -> AttrRecord
    ensures { result ≡ spec.attr_record name of source codes }
{
    let validity = attr_validity(&of, &codes);
    let attempted = attr_attempted(&of);
    AttrRecord {
        name,
        of,
        validity,
        attempted,
        source,
        codes,
    }
}

fn attr_validity(of: &Option<TypeId>, codes: &Codes) -> Validity
    ensures { result ≡ spec.attr_validity of.now codes.now }
{
    if !codes.is_empty() {
        return Validity::Invalid;
    }
    match of {
        Some(_) => Validity::Valid,
        None => Validity::NotKnown,
    }
}

fn attr_attempted(of: &Option<TypeId>) -> Attempted
    ensures { result ≡ spec.attr_attempted of.now }
{
    match of {
        Some(_) => Attempted::Full,
        None => Attempted::Untried,
    }
}

/// An attribute that has no declaration, with the code of why, if that is an error.
pub(crate) fn undeclared(
    alloc: Global,
    name: NameId,
    source: ValueSource,
    code: Option<Code>,
) -> Result<JudgedAttr, AllocError>
    ensures { IfOk result (λ judged. judged ≡ spec.undeclared name source (spec.codes_if code)) }
{
    let mut codes = Codes::new(alloc);
    add_if(&mut codes, code)?;
    Ok(JudgedAttr {
        known: Shared::new(alloc, attr_record(name, None, source, codes))?,
        value: Shared::new(alloc, None)?,
    })
}

/// An attribute that has a declaration, by its type and what the text comes to.
pub(crate) fn declared(
    alloc: Global,
    name: NameId,
    source: ValueSource,
    of: &TypeId,
    read: AttrText,
) -> Result<JudgedAttr, AllocError>
    ensures { IfOk result (λ judged. judged ≡ spec.declared name source of.now read) }
{
    let codes = text_codes(alloc, &read)?;
    Ok(JudgedAttr {
        known: Shared::new(alloc, attr_record(name, Some(*of), source, codes))?,
        value: Shared::new(alloc, value_in(read))?,
    })
}

fn value_in(read: AttrText) -> Option<Value>
    ensures { result ≡ spec.value_in read }
{
    match read {
        AttrText::Invalid(_) => None,
        AttrText::Valid { value, .. } => Some(value),
    }
}

// The codes of an attribute that has a declaration, in order.
fn text_codes(alloc: Global, read: &AttrText) -> Result<Codes, AllocError>
    ensures { IfOk result (λ codes. codes ≡ spec.text_codes read.now) }
{
    match read {
        AttrText::Invalid(code) => two_codes(alloc, Some(Code::CvcAttribute3), Some(*code)),
        AttrText::Valid {
            by_declaration,
            by_use,
            ..
        } => two_codes(
            alloc,
            unless(*by_declaration, Code::CvcAttribute4),
            unless(*by_use, Code::CvcAu),
        ),
    }
}

fn unless(met: bool, code: Code) -> Option<Code>
    ensures { result ≡ spec.unless met code }
{
    if met { None } else { Some(code) }
}

// At most two codes, in order.
fn two_codes(alloc: Global, first: Option<Code>, second: Option<Code>) -> Result<Codes, AllocError>
    ensures { IfOk result (λ codes. codes ≡ spec.codes_if first ++ spec.codes_if second) }
{
    let mut codes = Codes::new(alloc);
    add_if(&mut codes, first)?;
    add_if(&mut codes, second)?;
    Ok(codes)
}

fn add_if(codes: &mut Codes, code: Option<Code>) -> Result<(), AllocError>
    ensures { OnOk result (codes.new ≡ codes.old ++ spec.codes_if code) }
{
    match code {
        None => Ok(()),
        Some(code) => codes.push(Found { code, place: 0 }),
    }
}
