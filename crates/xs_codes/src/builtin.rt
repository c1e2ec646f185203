/// A built-in simple type that is supported (Datatypes 3; `anySimpleType` is of Structures 3.14.7).
#[derive(Clone, Copy, PartialEq, Eq)]
pub enum Builtin {
    /// `string`
    String,
    /// `normalizedString`
    NormalizedString,
    /// `token`
    Token,
    /// `anyURI`
    AnyUri,
    /// `anySimpleType`
    AnySimpleType,
    /// `language`
    Language,
    /// `Name`
    Name,
    /// `NMTOKEN`
    NmToken,
    /// `NCName`
    NcName,
    /// `ID`
    Id,
    /// `IDREF`
    IdRef,
    /// `NMTOKENS`
    NmTokens,
    /// `IDREFS`
    IdRefs,
    /// `QName`
    QName,
    /// `boolean`
    Boolean,
    /// `decimal`
    Decimal,
    /// `integer`
    Integer,
    /// `byte`
    Byte,
    /// `short`
    Short,
    /// `int`
    Int,
    /// `long`
    Long,
    /// `unsignedByte`
    UnsignedByte,
    /// `unsignedShort`
    UnsignedShort,
    /// `unsignedInt`
    UnsignedInt,
    /// `unsignedLong`
    UnsignedLong,
    /// `nonPositiveInteger`
    NonPositiveInteger,
    /// `negativeInteger`
    NegativeInteger,
    /// `nonNegativeInteger`
    NonNegativeInteger,
    /// `positiveInteger`
    PositiveInteger,
    /// `hexBinary`
    HexBinary,
    /// `base64Binary`
    Base64Binary,
    /// `dateTime`
    DateTime,
    /// `date`
    Date,
    /// `time`
    Time,
    /// `gYearMonth`
    GYearMonth,
    /// `gYear`
    GYear,
    /// `gMonthDay`
    GMonthDay,
    /// `gDay`
    GDay,
    /// `gMonth`
    GMonth,
    /// `duration`
    Duration,
}
