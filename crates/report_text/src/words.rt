ghost use Rattle.std.specs.Prelude.{◌≡◌};
ghost use Rattle.report_text.specs.Words as words;

use assess_records::{Attempted, Validity, ValueSource};

/// The word for a validity.
pub fn validity_word(validity: Validity) -> &'static str
    ensures { result.now ≡ words.validity_word validity }
{
    match validity {
        Validity::Valid => "valid",
        Validity::Invalid => "invalid",
        Validity::NotKnown => "notKnown",
    }
}

/// The word for how far an element or attribute was assessed.
pub fn attempted_word(attempted: Attempted) -> &'static str
    ensures { result.now ≡ words.attempted_word attempted }
{
    match attempted {
        Attempted::Full => "full",
        Attempted::Partial => "partial",
        Attempted::Untried => "none",
    }
}

/// The word for where the text of an element or attribute comes from.
pub fn source_word(source: ValueSource) -> &'static str
    ensures { result.now ≡ words.source_word source }
{
    match source {
        ValueSource::Given => "given",
        ValueSource::Schema => "schema",
    }
}
