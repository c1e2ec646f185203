ghost use Rattle.std.specs.Prelude.{◌≡◌};

use told::{BreakOff, Ending};

/// How a run ended. The last three of its kinds are no answer to the stream.
#[derive(Clone, Copy)]
pub enum Status {
    /// The schema set is accepted, and the root is valid where a document was asked for.
    Valid,
    /// The root is invalid, or its validity is not known.
    NotValid,
    /// The schema set breaks a constraint of the standard.
    SchemaRefused,
    /// A line of the stream is refused.
    ListingRefused,
    /// A limit is passed.
    Limit,
    /// A schema names what is not supported.
    Unsupported,
    /// The words are none of the program's.
    Words,
    /// A read failed.
    ReadFault,
    /// A write failed.
    WriteFault,
    /// Memory was wanting.
    Memory,
}

impl Status {
    ghost use Rattle.xsv_run.specs.Statuses.{is_broken, number_of, status_by};

    /// The number that the program ends with.
    pub fn number(self) -> u8
        ensures { result ≡ number_of self }
    {
        match self {
            Status::Valid => 0,
            Status::NotValid => 1,
            Status::SchemaRefused => 2,
            Status::ListingRefused => 3,
            Status::Limit => 4,
            Status::Unsupported => 5,
            Status::Words => 6,
            Status::ReadFault => 7,
            Status::WriteFault => 8,
            Status::Memory => 9,
        }
    }

    /// Whether the run was broken off: the status is no answer.
    pub fn is_broken(self) -> bool
        ensures { result ≡ is_broken self }
    {
        matches!(
            self,
            Status::ReadFault | Status::WriteFault | Status::Memory
        )
    }

    /// The status of a stream that ended, or that was broken off.
    pub fn of_stream(ended: Result<Ending, BreakOff>) -> Status
        ensures { result ≡ status_by ended }
    {
        match ended {
            Ok(Ending::Valid) => Status::Valid,
            Ok(Ending::NotValid) => Status::NotValid,
            Ok(Ending::SchemaRefused) => Status::SchemaRefused,
            Ok(Ending::ListingRefused) => Status::ListingRefused,
            Ok(Ending::Limit) => Status::Limit,
            Ok(Ending::Unsupported) => Status::Unsupported,
            Err(BreakOff::Memory) => Status::Memory,
            Err(BreakOff::WriteFault) => Status::WriteFault,
        }
    }
}
