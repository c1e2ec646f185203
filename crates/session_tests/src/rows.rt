//! The worked rows, on both sessions.

use crate::alike::{Case, alike};
use crate::opening::SchemaLines;
use edit_session::EditSession;
use plain_session::PlainSession;
use std::test::Fail;

const AMBIVALENT_CHILD_SCHEMA: [&str; 18] = [
    "(xs:schema",
    "Axmlns:xs http://www.w3.org/2001/XMLSchema",
    "(xs:element",
    "Aname r",
    "(xs:complexType",
    "(xs:sequence",
    "(xs:element",
    "Aname a",
    "Atype xs:integer",
    ")xs:element",
    "(xs:any",
    "Anamespace ##any",
    "AprocessContents lax",
    ")xs:any",
    ")xs:sequence",
    ")xs:complexType",
    ")xs:element",
    ")xs:schema",
];

/// One declaration of `a`, and a wildcard behind it.
pub const AMBIVALENT_CHILD_SCHEMAS: [SchemaLines; 1] = [SchemaLines {
    location: "s",
    lines: &AMBIVALENT_CHILD_SCHEMA,
}];

/// Two elements `a`: one by the declaration, one by the wildcard.
pub const AMBIVALENT_CHILD_DOCUMENT: [&str; 8] = ["(r", "(a", "-1", ")a", "(a", "-x", ")a", ")r"];

const AMBIVALENT_CHILD_COMMANDS: [&[&str]; 5] = [
    &["assess 4"],
    &["insert 1 0", "(a", "-2", ")a"],
    &["assess 2"],
    &["assess 4"],
    &["assess 1"],
];

const NIL_AND_FIXED_SCHEMA: [&str; 9] = [
    "(xs:schema",
    "Axmlns:xs http://www.w3.org/2001/XMLSchema",
    "(xs:element",
    "Aname r",
    "Atype xs:integer",
    "Anillable true",
    "Afixed 5",
    ")xs:element",
    ")xs:schema",
];

const NIL_AND_FIXED_SCHEMAS: [SchemaLines; 1] = [SchemaLines {
    location: "s",
    lines: &NIL_AND_FIXED_SCHEMA,
}];

const NIL_AND_FIXED_DOCUMENT: [&str; 4] = [
    "(r",
    "Axmlns:xsi http://www.w3.org/2001/XMLSchema-instance",
    "Axsi:nil true",
    ")r",
];

const NIL_AND_FIXED_COMMANDS: [&[&str]; 6] = [
    &["errors"],
    &["unset 1 xsi:nil"],
    &["assess 1"],
    &["addtext 1 0 6"],
    &["errors"],
    &["text 2 05"],
];

const KEY_VISIBILITY_SCHEMA: [&str; 56] = [
    "(xs:schema",
    "Axmlns:xs http://www.w3.org/2001/XMLSchema",
    "(xs:element",
    "Aname g",
    "(xs:complexType",
    "(xs:sequence",
    "(xs:element",
    "Aname i",
    "AminOccurs 0",
    "AmaxOccurs unbounded",
    "(xs:complexType",
    "(xs:attribute",
    "Aname v",
    "Atype xs:string",
    ")xs:attribute",
    ")xs:complexType",
    ")xs:element",
    "(xs:element",
    "Aref g",
    "AminOccurs 0",
    "AmaxOccurs unbounded",
    ")xs:element",
    "(xs:element",
    "Aname f",
    "AminOccurs 0",
    "AmaxOccurs unbounded",
    "(xs:complexType",
    "(xs:attribute",
    "Aname r",
    "Atype xs:string",
    ")xs:attribute",
    ")xs:complexType",
    ")xs:element",
    ")xs:sequence",
    ")xs:complexType",
    "(xs:key",
    "Aname K",
    "(xs:selector",
    "Axpath i",
    ")xs:selector",
    "(xs:field",
    "Axpath @v",
    ")xs:field",
    ")xs:key",
    "(xs:keyref",
    "Aname F",
    "Arefer K",
    "(xs:selector",
    "Axpath f",
    ")xs:selector",
    "(xs:field",
    "Axpath @r",
    ")xs:field",
    ")xs:keyref",
    ")xs:element",
    ")xs:schema",
];

const KEY_VISIBILITY_SCHEMAS: [SchemaLines; 1] = [SchemaLines {
    location: "s",
    lines: &KEY_VISIBILITY_SCHEMA,
}];

const KEY_VISIBILITY_DOCUMENT: [&str; 15] = [
    "(g", "(g", "(i", "Av 1", ")i", ")g", "(g", "(i", "Av 1", ")i", ")g", "(f", "Ar 1", ")f", ")g",
];

const KEY_VISIBILITY_COMMANDS: [&[&str]; 2] = [&["errors"], &["remove 4"]];

const PURCHASE_ORDER_SCHEMA_1: [&str; 72] = [
    "(xs:schema",
    "Axmlns:xs http://www.w3.org/2001/XMLSchema",
    "Axmlns:po urn:po",
    "Axmlns:ad urn:ad",
    "AtargetNamespace urn:po",
    "AelementFormDefault qualified",
    "(xs:import",
    "Anamespace urn:ad",
    "AschemaLocation ad",
    ")xs:import",
    "(xs:simpleType",
    "Aname Sku",
    "(xs:restriction",
    "Abase xs:string",
    "(xs:pattern",
    "Avalue \\\\d{3}-[A-Z]{2}",
    ")xs:pattern",
    ")xs:restriction",
    ")xs:simpleType",
    "(xs:element",
    "Aname order",
    "(xs:complexType",
    "(xs:sequence",
    "(xs:element",
    "Aname shipTo",
    "Atype ad:Address",
    ")xs:element",
    "(xs:element",
    "Aname item",
    "AmaxOccurs unbounded",
    "(xs:complexType",
    "(xs:sequence",
    "(xs:element",
    "Aname quantity",
    "(xs:simpleType",
    "(xs:restriction",
    "Abase xs:positiveInteger",
    "(xs:maxExclusive",
    "Avalue 100",
    ")xs:maxExclusive",
    ")xs:restriction",
    ")xs:simpleType",
    ")xs:element",
    "(xs:element",
    "Aname price",
    "Atype xs:decimal",
    ")xs:element",
    ")xs:sequence",
    "(xs:attribute",
    "Aname part",
    "Atype po:Sku",
    "Ause required",
    ")xs:attribute",
    ")xs:complexType",
    ")xs:element",
    ")xs:sequence",
    "(xs:attribute",
    "Aname date",
    "Atype xs:date",
    ")xs:attribute",
    ")xs:complexType",
    "(xs:key",
    "Aname parts",
    "(xs:selector",
    "Axpath po:item",
    ")xs:selector",
    "(xs:field",
    "Axpath @part",
    ")xs:field",
    ")xs:key",
    ")xs:element",
    ")xs:schema",
];

const PURCHASE_ORDER_SCHEMA_2: [&str; 38] = [
    "(xs:schema",
    "Axmlns:xs http://www.w3.org/2001/XMLSchema",
    "Axmlns:ad urn:ad",
    "AtargetNamespace urn:ad",
    "AelementFormDefault qualified",
    "(xs:complexType",
    "Aname Address",
    "(xs:sequence",
    "(xs:element",
    "Aname name",
    "Atype xs:string",
    ")xs:element",
    "(xs:element",
    "Aname city",
    "Atype xs:string",
    ")xs:element",
    ")xs:sequence",
    "(xs:attribute",
    "Aname country",
    "Atype xs:NMTOKEN",
    "Adefault US",
    ")xs:attribute",
    ")xs:complexType",
    "(xs:complexType",
    "Aname UKAddress",
    "(xs:complexContent",
    "(xs:extension",
    "Abase ad:Address",
    "(xs:sequence",
    "(xs:element",
    "Aname postcode",
    "Atype xs:string",
    ")xs:element",
    ")xs:sequence",
    ")xs:extension",
    ")xs:complexContent",
    ")xs:complexType",
    ")xs:schema",
];

const PURCHASE_ORDER_SCHEMAS: [SchemaLines; 2] = [
    SchemaLines {
        location: "po",
        lines: &PURCHASE_ORDER_SCHEMA_1,
    },
    SchemaLines {
        location: "ad",
        lines: &PURCHASE_ORDER_SCHEMA_2,
    },
];

const PURCHASE_ORDER_DOCUMENT: [&str; 36] = [
    "(order",
    "Axmlns urn:po",
    "Axmlns:a urn:ad",
    "Axmlns:xsi http://www.w3.org/2001/XMLSchema-instance",
    "Adate 1999-10-20",
    "(shipTo",
    "Axsi:type a:UKAddress",
    "(a:name",
    "-H",
    ")a:name",
    "(a:city",
    "-C",
    ")a:city",
    "(a:postcode",
    "-P",
    ")a:postcode",
    ")shipTo",
    "(item",
    "Apart 926-AA",
    "(quantity",
    "-1",
    ")quantity",
    "(price",
    "-39.98",
    ")price",
    ")item",
    "(item",
    "Apart 872-AA",
    "(quantity",
    "-2",
    ")quantity",
    "(price",
    "-148.95",
    ")price",
    ")item",
    ")order",
];

const PURCHASE_ORDER_COMMANDS: [&[&str]; 13] = [
    &["text 11 100"],
    &["text 11 99"],
    &["set 14 part 926-AA"],
    &["set 14 part 926-A"],
    &["set 14 part 872-AA"],
    &["remove 1"],
    &["remove 7"],
    &["remove 7"],
    &["unset 2 xsi:type"],
    &["assess 2"],
    &["set 2 country GB"],
    &["rename 17 cost"],
    &["remove 14"],
];

/// A child whose term goes by its place: the declaration, or the wildcard behind it.
#[test]
fn ambivalent_child(rt: HostRuntime) -> Result<(), Fail> {
    let case = Case {
        schemas: &AMBIVALENT_CHILD_SCHEMAS,
        document: &AMBIVALENT_CHILD_DOCUMENT,
        commands: &AMBIVALENT_CHILD_COMMANDS,
    };
    alike::<PlainSession, EditSession, HostRuntime>(&rt, rt.alloc(), &case)?;
    Ok(())
}

/// A nil root with a fixed value, which is not nil any more, and gets texts.
#[test]
fn nil_and_fixed(rt: HostRuntime) -> Result<(), Fail> {
    let case = Case {
        schemas: &NIL_AND_FIXED_SCHEMAS,
        document: &NIL_AND_FIXED_DOCUMENT,
        commands: &NIL_AND_FIXED_COMMANDS,
    };
    alike::<PlainSession, EditSession, HostRuntime>(&rt, rt.alloc(), &case)?;
    Ok(())
}

/// A key that two scopes within have, and which one of them loses.
#[test]
fn key_visibility(rt: HostRuntime) -> Result<(), Fail> {
    let case = Case {
        schemas: &KEY_VISIBILITY_SCHEMAS,
        document: &KEY_VISIBILITY_DOCUMENT,
        commands: &KEY_VISIBILITY_COMMANDS,
    };
    alike::<PlainSession, EditSession, HostRuntime>(&rt, rt.alloc(), &case)?;
    Ok(())
}

/// An order, with a key, patterns, an attribute that the schema adds and a type that an element says.
#[test]
fn purchase_order(rt: HostRuntime) -> Result<(), Fail> {
    let case = Case {
        schemas: &PURCHASE_ORDER_SCHEMAS,
        document: &PURCHASE_ORDER_DOCUMENT,
        commands: &PURCHASE_ORDER_COMMANDS,
    };
    alike::<PlainSession, EditSession, HostRuntime>(&rt, rt.alloc(), &case)?;
    Ok(())
}
