ghost use Rattle.std.specs.Prelude.{◌≡◌, IfOk, OnOk};
ghost use Rattle.xs_names.specs.Names.{Grown};
ghost use Rattle.representations.specs.Naming as naming;
ghost use Rattle.representations.specs.Methods.{defaults_of};
ghost use Rattle.representations.specs.Wildcards.{KnowsTarget};

use crate::{Defaults, Naming, naming_of, number_space};
use schema_shape::Shape;
use std::alloc::AllocError;
use xs_names::{Names, NsId, Text};

/// How the elements of a document are read that has a target namespace in a set.
#[derive(Drop)]
pub struct Reading {
    /// How names are meant.
    pub naming: Naming,
    /// The number of the target namespace.
    pub target: NsId,
    pub defaults: Defaults,
}

impl Reading {
    /// How the document of these shapes is read, whose first shape is that of the schema element. Its target namespace comes into
    /// the table.
    ///
    /// # Errors
    ///
    /// `AllocError` is want of memory.
    pub fn of(
        names: &mut Names,
        target: &Option<Text>,
        shapes: &[Shape],
    ) -> Result<Reading, AllocError>
        ensures table { OnOk result (names.new ≡ naming.with_space_of names.old target.now) }
        ensures naming { IfOk result (λ reading. reading.naming ≡ naming.naming_of target.now shapes.now) }
        ensures defaults { IfOk result (λ reading. reading.defaults ≡ defaults_of shapes.now) }
        ensures target { IfOk result (KnowsTarget names.new) }
        ensures number { IfOk result (λ reading. naming.IsSpaceNumber names.new target.now reading.target) }
        ensures grown { Grown names.old names.new }
    {
        let naming = naming_of(target, shapes)?;
        let target = number_space(names, target)?;
        Ok(Reading {
            naming,
            target,
            defaults: Defaults::of(shapes),
        })
    }
}
