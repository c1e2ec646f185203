use std::alloc::AllocError;
use xsv_io::Failed;

/// Why an answer was broken off.
#[derive(Clone, Copy)]
pub enum BreakOff {
    /// Memory was wanting. Nothing of the answer was written.
    Memory,
    /// The sink failed. A front of the answer was written.
    WriteFault,
}

impl From<AllocError> for BreakOff {
    ghost use Rattle.std.specs.Prelude.{◌≡◌};
    ghost use Rattle.told.specs.declared.break_off.BreakOff.TheVariants.{Memory};

    ghost from_gives = { λ _ e. e ≡ Memory };

    fn from(_: AllocError) -> Self {
        BreakOff::Memory
    }
}

impl From<Failed> for BreakOff {
    ghost use Rattle.std.specs.Prelude.{◌≡◌};
    ghost use Rattle.told.specs.declared.break_off.BreakOff.TheVariants.{WriteFault};

    ghost from_gives = { λ _ e. e ≡ WriteFault };

    fn from(_: Failed) -> Self {
        BreakOff::WriteFault
    }
}
