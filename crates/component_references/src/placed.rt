ghost use Rattle.std.specs.Prelude.{◌≡◌};
ghost use Rattle.xs_components.specs.declared.common.Place.{Place as PlaceValue};

use xs_components::{AttrGroupDef, ComplexType, ElementDecl, GroupDef, Place, SimpleType};

// A component that is represented somewhere.
pub(crate) trait Placed {
    ghost place_of: { Self → PlaceValue };

    fn place(&self) -> Place
        ensures place { result ≡ place_of self.now };
}

impl Placed for SimpleType {
    ghost place_of = { λ part. part.at };

    fn place(&self) -> Place {
        self.at
    }
}

impl Placed for ComplexType {
    ghost place_of = { λ part. part.at };

    fn place(&self) -> Place {
        self.at
    }
}

impl Placed for ElementDecl {
    ghost place_of = { λ part. part.at };

    fn place(&self) -> Place {
        self.at
    }
}

impl Placed for GroupDef {
    ghost place_of = { λ part. part.at };

    fn place(&self) -> Place {
        self.at
    }
}

impl Placed for AttrGroupDef {
    ghost place_of = { λ part. part.at };

    fn place(&self) -> Place {
        self.at
    }
}
