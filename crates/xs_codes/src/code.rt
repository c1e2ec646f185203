/// A code: a broken constraint of XML Schema by the name that the standard gives it (Structures,
/// appendix C; Datatypes, appendix C), or one of this project's own, which begin with `x-`. They
/// stand in the order in which they are tried.
#[derive(Clone, Copy, PartialEq)]
pub enum Code {
    // Shape of schema documents.
    /// `x-shape.root`
    XShapeRoot,
    /// `x-shape.content`
    XShapeContent,
    /// `x-shape.text`
    XShapeText,
    /// `x-shape.attribute`
    XShapeAttribute,
    /// `x-shape.value`
    XShapeValue,
    /// `x-unsupported.float`
    XUnsupportedFloat,
    /// `x-unsupported.double`
    XUnsupportedDouble,
    /// `x-unsupported.ENTITY`
    XUnsupportedEntity,
    /// `x-unsupported.ENTITIES`
    XUnsupportedEntities,
    /// `x-unsupported.NOTATION`
    XUnsupportedNotationType,
    /// `x-unsupported.notation`
    XUnsupportedNotationElement,
    /// `x-unsupported.target`
    XUnsupportedTarget,
    /// `x-limit.occurs`
    XLimitOccurs,
    /// `x-limit.fields`
    XLimitFields,
    /// `x-limit.value`
    XLimitValue,
    /// `src-element.1`
    SrcElement1,
    /// `src-element.2.1`
    SrcElement2_1,
    /// `src-element.2.2`
    SrcElement2_2,
    /// `src-element.3`
    SrcElement3,
    /// `src-attribute.1`
    SrcAttribute1,
    /// `src-attribute.2`
    SrcAttribute2,
    /// `src-attribute.3.1`
    SrcAttribute3_1,
    /// `src-attribute.3.2`
    SrcAttribute3_2,
    /// `src-attribute.4`
    SrcAttribute4,
    /// `src-simple-type.2`
    SrcSimpleType2,
    /// `src-simple-type.3`
    SrcSimpleType3,
    /// `src-union-memberTypes-or-simpleTypes`
    SrcUnionMemberTypesOrSimpleTypes,
    /// `p-props-correct.2.1`
    PPropsCorrect2_1,

    // Composition of schema documents.
    /// `x-location`
    XLocation,
    /// `src-include.2.1`
    SrcInclude2_1,
    /// `src-redefine.3.1`
    SrcRedefine3_1,
    /// `src-import.1.1`
    SrcImport1_1,
    /// `src-import.1.2`
    SrcImport1_2,
    /// `src-import.3.1`
    SrcImport3_1,
    /// `src-expredef`
    SrcExpredef,
    /// `x-redefine.circle`
    XRedefineCircle,
    /// `src-redefine.5`
    SrcRedefine5,
    /// `src-redefine.6.1.1`
    SrcRedefine6_1_1,
    /// `src-redefine.6.1.2`
    SrcRedefine6_1_2,
    /// `src-redefine.7.1`
    SrcRedefine7_1,

    // Names and references.
    /// `sch-props-correct.2`
    SchPropsCorrect2,
    /// `x-limit.components`
    XLimitComponents,
    /// `no-xmlns`
    NoXmlns,
    /// `no-xsi`
    NoXsi,
    /// `src-resolve`
    SrcResolve,
    /// `src-resolve.4`
    SrcResolve4,

    // Circles and bases.
    /// `st-props-correct.2`
    StPropsCorrect2,
    /// `ct-props-correct.3`
    CtPropsCorrect3,
    /// `mg-props-correct.2`
    MgPropsCorrect2,
    /// `src-attribute_group.3`
    SrcAttributeGroup3,
    /// `e-props-correct.6`
    EPropsCorrect6,
    /// `src-ct.1`
    SrcCt1,
    /// `src-ct.2`
    SrcCt2,

    // Simple types and facets.
    /// `x-simple.base`
    XSimpleBase,
    /// `st-props-correct.3`
    StPropsCorrect3,
    /// `x-simple.final`
    XSimpleFinal,
    /// `cos-list-of-atomic`
    CosListOfAtomic,
    /// `cos-applicable-facets`
    CosApplicableFacets,
    /// `src-single-facet-value`
    SrcSingleFacetValue,
    /// `x-pattern`
    XPattern,
    /// `x-unsupported.block`
    XUnsupportedBlock,
    /// `x-limit.pattern`
    XLimitPattern,
    /// `x-facet.literal`
    XFacetLiteral,
    /// `enumeration-valid-restriction`
    EnumerationValidRestriction,
    /// `st-restrict-facets`
    StRestrictFacets,
    /// `whiteSpace-valid-restriction`
    WhiteSpaceValidRestriction,
    /// `length-valid-restriction`
    LengthValidRestriction,
    /// `minLength-valid-restriction`
    MinLengthValidRestriction,
    /// `maxLength-valid-restriction`
    MaxLengthValidRestriction,
    /// `totalDigits-valid-restriction`
    TotalDigitsValidRestriction,
    /// `fractionDigits-valid-restriction`
    FractionDigitsValidRestriction,
    /// `length-minLength-maxLength`
    LengthMinLengthMaxLength,
    /// `minLength-less-than-equal-to-maxLength`
    MinLengthLessThanEqualToMaxLength,
    /// `fractionDigits-totalDigits`
    FractionDigitsTotalDigits,
    /// `maxInclusive-maxExclusive`
    MaxInclusiveMaxExclusive,
    /// `minInclusive-minExclusive`
    MinInclusiveMinExclusive,
    /// `minInclusive-less-than-equal-to-maxInclusive`
    MinInclusiveLessThanEqualToMaxInclusive,
    /// `minExclusive-less-than-equal-to-maxExclusive`
    MinExclusiveLessThanEqualToMaxExclusive,
    /// `minExclusive-less-than-maxInclusive`
    MinExclusiveLessThanMaxInclusive,
    /// `minInclusive-less-than-maxExclusive`
    MinInclusiveLessThanMaxExclusive,
    /// `maxInclusive-valid-restriction`
    MaxInclusiveValidRestriction,
    /// `maxExclusive-valid-restriction`
    MaxExclusiveValidRestriction,
    /// `minInclusive-valid-restriction`
    MinInclusiveValidRestriction,
    /// `minExclusive-valid-restriction`
    MinExclusiveValidRestriction,

    // Attributes and value constraints.
    /// `a-props-correct.2`
    APropsCorrect2,
    /// `a-props-correct.3`
    APropsCorrect3,
    /// `au-props-correct.2`
    AuPropsCorrect2,
    /// `ag-props-correct.2`
    AgPropsCorrect2,
    /// `ct-props-correct.4`
    CtPropsCorrect4,
    /// `ag-props-correct.3`
    AgPropsCorrect3,
    /// `ct-props-correct.5`
    CtPropsCorrect5,
    /// `src-attribute_group.2`
    SrcAttributeGroup2,
    /// `src-ct.4`
    SrcCt4,
    /// `src-ct.5`
    SrcCt5,
    /// `e-props-correct.2`
    EPropsCorrect2,
    /// `cos-valid-default.2.1`
    CosValidDefault2_1,
    /// `cos-valid-default.2.2.2`
    CosValidDefault2_2_2,
    /// `e-props-correct.5`
    EPropsCorrect5,

    // Complex derivation.
    /// `cos-ct-extends.1.1`
    CosCtExtends1_1,
    /// `cos-ct-extends.1.4`
    CosCtExtends1_4,
    /// `derivation-ok-restriction.1`
    DerivationOkRestriction1,
    /// `derivation-ok-restriction.2.1.1`
    DerivationOkRestriction2_1_1,
    /// `derivation-ok-restriction.2.1.2`
    DerivationOkRestriction2_1_2,
    /// `derivation-ok-restriction.2.1.3`
    DerivationOkRestriction2_1_3,
    /// `derivation-ok-restriction.2.2`
    DerivationOkRestriction2_2,
    /// `derivation-ok-restriction.3`
    DerivationOkRestriction3,
    /// `derivation-ok-restriction.4.1`
    DerivationOkRestriction4_1,
    /// `derivation-ok-restriction.4.2`
    DerivationOkRestriction4_2,
    /// `derivation-ok-restriction.4.3`
    DerivationOkRestriction4_3,
    /// `derivation-ok-restriction.5.2`
    DerivationOkRestriction5_2,
    /// `derivation-ok-restriction.5.3`
    DerivationOkRestriction5_3,
    /// `derivation-ok-restriction.5.4.1`
    DerivationOkRestriction5_4_1,
    /// `src-redefine.7.2.2`
    SrcRedefine7_2_2,
    /// `e-props-correct.4`
    EPropsCorrect4,
    /// `x-limit.all`
    XLimitAll,
    /// `cos-all-limited.1`
    CosAllLimited1,
    /// `cos-all-limited.2`
    CosAllLimited2,

    // Content models.
    /// `x-limit.positions`
    XLimitPositions,
    /// `x-limit.states`
    XLimitStates,
    /// `x-limit.table`
    XLimitTable,
    /// `cos-element-consistent`
    CosElementConsistent,
    /// `cos-nonambig`
    CosNonambig,

    // Particle restriction.
    /// `cos-particle-restrict.2`
    CosParticleRestrict2,
    /// `rcase-NameAndTypeOK`
    RcaseNameAndTypeOk,
    /// `rcase-NSCompat`
    RcaseNsCompat,
    /// `rcase-RecurseAsIfGroup`
    RcaseRecurseAsIfGroup,
    /// `rcase-NSSubset`
    RcaseNsSubset,
    /// `rcase-NSRecurseCheckCardinality`
    RcaseNsRecurseCheckCardinality,
    /// `rcase-Recurse`
    RcaseRecurse,
    /// `rcase-RecurseUnordered`
    RcaseRecurseUnordered,
    /// `rcase-RecurseLax`
    RcaseRecurseLax,
    /// `rcase-MapAndSum`
    RcaseMapAndSum,
    /// `src-redefine.6.2.2`
    SrcRedefine6_2_2,

    // Identity constraints of schemas.
    /// `c-selector-xpath`
    CSelectorXpath,
    /// `c-fields-xpaths`
    CFieldsXpaths,
    /// `c-props-correct.2`
    CPropsCorrect2,

    // Assessment of elements.
    /// `cvc-elt.1`
    CvcElt1,
    /// `cvc-elt.2`
    CvcElt2,
    /// `cvc-elt.4.1`
    CvcElt4_1,
    /// `cvc-elt.4.2`
    CvcElt4_2,
    /// `cvc-elt.4.3`
    CvcElt4_3,
    /// `cvc-type.2`
    CvcType2,
    /// `cvc-elt.3.1`
    CvcElt3_1,
    /// `cvc-elt.3.2.1`
    CvcElt3_2_1,
    /// `cvc-elt.3.2.2`
    CvcElt3_2_2,
    /// `cvc-type.3.1.1`
    CvcType3_1_1,
    /// `cvc-type.3.1.2`
    CvcType3_1_2,
    /// `cvc-type.3.1.3`
    CvcType3_1_3,
    /// `cvc-complex-type.2.1`
    CvcComplexType2_1,
    /// `cvc-complex-type.2.2`
    CvcComplexType2_2,
    /// `cvc-complex-type.2.3`
    CvcComplexType2_3,
    /// `cvc-complex-type.2.4`
    CvcComplexType2_4,
    /// `cvc-complex-type.4`
    CvcComplexType4,
    /// `cvc-elt.5.2.2.1`
    CvcElt5_2_2_1,
    /// `cvc-elt.5.2.2.2`
    CvcElt5_2_2_2,
    /// `cvc-identity-constraint.3`
    CvcIdentityConstraint3,
    /// `cvc-identity-constraint.4.1`
    CvcIdentityConstraint4_1,
    /// `cvc-identity-constraint.4.2.1`
    CvcIdentityConstraint4_2_1,
    /// `cvc-identity-constraint.4.2.2`
    CvcIdentityConstraint4_2_2,
    /// `cvc-identity-constraint.4.2.3`
    CvcIdentityConstraint4_2_3,
    /// `cvc-identity-constraint.4.3`
    CvcIdentityConstraint4_3,
    /// `cvc-id.1`
    CvcId1,
    /// `cvc-id.2`
    CvcId2,

    // Assessment of attributes.
    /// `cvc-complex-type.3.2.1`
    CvcComplexType3_2_1,
    /// `cvc-complex-type.3.2.2`
    CvcComplexType3_2_2,
    /// `cvc-attribute.3`
    CvcAttribute3,
    /// `cvc-attribute.4`
    CvcAttribute4,
    /// `cvc-au`
    CvcAu,

    // Values.
    /// `cvc-datatype-valid.1`
    CvcDatatypeValid1,
    /// `cvc-pattern-valid`
    CvcPatternValid,
    /// `cvc-length-valid`
    CvcLengthValid,
    /// `cvc-minLength-valid`
    CvcMinLengthValid,
    /// `cvc-maxLength-valid`
    CvcMaxLengthValid,
    /// `cvc-enumeration-valid`
    CvcEnumerationValid,
    /// `cvc-maxInclusive-valid`
    CvcMaxInclusiveValid,
    /// `cvc-maxExclusive-valid`
    CvcMaxExclusiveValid,
    /// `cvc-minInclusive-valid`
    CvcMinInclusiveValid,
    /// `cvc-minExclusive-valid`
    CvcMinExclusiveValid,
    /// `cvc-totalDigits-valid`
    CvcTotalDigitsValid,
    /// `cvc-fractionDigits-valid`
    CvcFractionDigitsValid,
    /// `x-limit.items`
    XLimitItems,
}
