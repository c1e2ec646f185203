ghost use Rattle.std.specs.Prelude.{◌≡◌, Some, slice_get};
ghost use Rattle.xs_codes.specs.Codes.{all_codes, order_of, text_of};
ghost use Rattle.xs_codes.specs.declared.code.Code.{Code as CodeValue};

use super::code::Code;

/// The code as it is printed.
pub fn code_text(code: Code) -> &'static str
    ensures text { result.now ≡ text_of code }
    // No other code is printed so.
    ensures apart { (other : CodeValue) → text_of other ≡ result.now → other ≡ code }
{
    printed(code)
}

/// Where the code stands in the list of all codes, from 0.
pub fn code_order(code: Code) -> u16
    ensures value { result ≡ order_of code }
    ensures place { slice_get all_codes result ≡ Some code }
{
    code as u16
}

/// The texts of all codes, in their order.
static TEXTS: [&str; 181] = [
    // Shape of schema documents.
    "x-shape.root",
    "x-shape.content",
    "x-shape.text",
    "x-shape.attribute",
    "x-shape.value",
    "x-unsupported.float",
    "x-unsupported.double",
    "x-unsupported.ENTITY",
    "x-unsupported.ENTITIES",
    "x-unsupported.NOTATION",
    "x-unsupported.notation",
    "x-unsupported.target",
    "x-limit.occurs",
    "x-limit.fields",
    "x-limit.value",
    "src-element.1",
    "src-element.2.1",
    "src-element.2.2",
    "src-element.3",
    "src-attribute.1",
    "src-attribute.2",
    "src-attribute.3.1",
    "src-attribute.3.2",
    "src-attribute.4",
    "src-simple-type.2",
    "src-simple-type.3",
    "src-union-memberTypes-or-simpleTypes",
    "p-props-correct.2.1",
    // Composition of schema documents.
    "x-location",
    "src-include.2.1",
    "src-redefine.3.1",
    "src-import.1.1",
    "src-import.1.2",
    "src-import.3.1",
    "src-expredef",
    "x-redefine.circle",
    "src-redefine.5",
    "src-redefine.6.1.1",
    "src-redefine.6.1.2",
    "src-redefine.7.1",
    // Names and references.
    "sch-props-correct.2",
    "x-limit.components",
    "no-xmlns",
    "no-xsi",
    "src-resolve",
    "src-resolve.4",
    // Circles and bases.
    "st-props-correct.2",
    "ct-props-correct.3",
    "mg-props-correct.2",
    "src-attribute_group.3",
    "e-props-correct.6",
    "src-ct.1",
    "src-ct.2",
    // Simple types and facets.
    "x-simple.base",
    "st-props-correct.3",
    "x-simple.final",
    "cos-list-of-atomic",
    "cos-applicable-facets",
    "src-single-facet-value",
    "x-pattern",
    "x-unsupported.block",
    "x-limit.pattern",
    "x-facet.literal",
    "enumeration-valid-restriction",
    "st-restrict-facets",
    "whiteSpace-valid-restriction",
    "length-valid-restriction",
    "minLength-valid-restriction",
    "maxLength-valid-restriction",
    "totalDigits-valid-restriction",
    "fractionDigits-valid-restriction",
    "length-minLength-maxLength",
    "minLength-less-than-equal-to-maxLength",
    "fractionDigits-totalDigits",
    "maxInclusive-maxExclusive",
    "minInclusive-minExclusive",
    "minInclusive-less-than-equal-to-maxInclusive",
    "minExclusive-less-than-equal-to-maxExclusive",
    "minExclusive-less-than-maxInclusive",
    "minInclusive-less-than-maxExclusive",
    "maxInclusive-valid-restriction",
    "maxExclusive-valid-restriction",
    "minInclusive-valid-restriction",
    "minExclusive-valid-restriction",
    // Attributes and value constraints.
    "a-props-correct.2",
    "a-props-correct.3",
    "au-props-correct.2",
    "ag-props-correct.2",
    "ct-props-correct.4",
    "ag-props-correct.3",
    "ct-props-correct.5",
    "src-attribute_group.2",
    "src-ct.4",
    "src-ct.5",
    "e-props-correct.2",
    "cos-valid-default.2.1",
    "cos-valid-default.2.2.2",
    "e-props-correct.5",
    // Complex derivation.
    "cos-ct-extends.1.1",
    "cos-ct-extends.1.4",
    "derivation-ok-restriction.1",
    "derivation-ok-restriction.2.1.1",
    "derivation-ok-restriction.2.1.2",
    "derivation-ok-restriction.2.1.3",
    "derivation-ok-restriction.2.2",
    "derivation-ok-restriction.3",
    "derivation-ok-restriction.4.1",
    "derivation-ok-restriction.4.2",
    "derivation-ok-restriction.4.3",
    "derivation-ok-restriction.5.2",
    "derivation-ok-restriction.5.3",
    "derivation-ok-restriction.5.4.1",
    "src-redefine.7.2.2",
    "e-props-correct.4",
    "x-limit.all",
    "cos-all-limited.1",
    "cos-all-limited.2",
    // Content models.
    "x-limit.positions",
    "x-limit.states",
    "x-limit.table",
    "cos-element-consistent",
    "cos-nonambig",
    // Particle restriction.
    "cos-particle-restrict.2",
    "rcase-NameAndTypeOK",
    "rcase-NSCompat",
    "rcase-RecurseAsIfGroup",
    "rcase-NSSubset",
    "rcase-NSRecurseCheckCardinality",
    "rcase-Recurse",
    "rcase-RecurseUnordered",
    "rcase-RecurseLax",
    "rcase-MapAndSum",
    "src-redefine.6.2.2",
    // Identity constraints of schemas.
    "c-selector-xpath",
    "c-fields-xpaths",
    "c-props-correct.2",
    // Assessment of elements.
    "cvc-elt.1",
    "cvc-elt.2",
    "cvc-elt.4.1",
    "cvc-elt.4.2",
    "cvc-elt.4.3",
    "cvc-type.2",
    "cvc-elt.3.1",
    "cvc-elt.3.2.1",
    "cvc-elt.3.2.2",
    "cvc-type.3.1.1",
    "cvc-type.3.1.2",
    "cvc-type.3.1.3",
    "cvc-complex-type.2.1",
    "cvc-complex-type.2.2",
    "cvc-complex-type.2.3",
    "cvc-complex-type.2.4",
    "cvc-complex-type.4",
    "cvc-elt.5.2.2.1",
    "cvc-elt.5.2.2.2",
    "cvc-identity-constraint.3",
    "cvc-identity-constraint.4.1",
    "cvc-identity-constraint.4.2.1",
    "cvc-identity-constraint.4.2.2",
    "cvc-identity-constraint.4.2.3",
    "cvc-identity-constraint.4.3",
    "cvc-id.1",
    "cvc-id.2",
    // Assessment of attributes.
    "cvc-complex-type.3.2.1",
    "cvc-complex-type.3.2.2",
    "cvc-attribute.3",
    "cvc-attribute.4",
    "cvc-au",
    // Values.
    "cvc-datatype-valid.1",
    "cvc-pattern-valid",
    "cvc-length-valid",
    "cvc-minLength-valid",
    "cvc-maxLength-valid",
    "cvc-enumeration-valid",
    "cvc-maxInclusive-valid",
    "cvc-maxExclusive-valid",
    "cvc-minInclusive-valid",
    "cvc-minExclusive-valid",
    "cvc-totalDigits-valid",
    "cvc-fractionDigits-valid",
    "x-limit.items",
];

/// The code's name, letter for letter.
fn printed(code: Code) -> &'static str
    ensures { result.now ≡ text_of code }
{
    TEXTS[code as usize]
}
