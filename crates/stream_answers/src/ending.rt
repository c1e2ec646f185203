ghost use Rattle.std.specs.Prelude.{◌≡◌};
ghost use Rattle.stream_answers.specs.Output.{ending_of};

use assess_records::Validity;
use told::Ending;

/// How a stream ended, by the root's validity.
pub fn ending_of(validity: Validity) -> Ending
    ensures { result ≡ ending_of validity }
{
    match validity {
        Validity::Valid => Ending::Valid,
        Validity::Invalid | Validity::NotKnown => Ending::NotValid,
    }
}
