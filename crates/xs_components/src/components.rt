ghost use Rattle.std.specs.Prelude.{◌≡◌, IfOk};
ghost use Rattle.xs_components.specs.Tables.{no_tables};

use crate::table::Table;
use crate::{
    AttrGroupDef, AttributeDecl, ComplexType, Constraint, ElementDecl, GroupDef, Particle,
    ParticleId, Rules, SimpleType,
};
use std::alloc::{AllocError, Global};
use std::marker::Model;

/// What a compiled schema set is made of (Structures 3.15.1): a table of each kind of component, the rules that it was
/// read by, and the particle of each complex type's content once that is known.
///
/// A component has its number from the order of adding, and a rank, which is 0 at first and serves those who go along
/// references. Contracts see a record of lists, with the ranks in lists of their own.
pub struct Components {
    pub rules: Rules,
    pub(crate) simples: Table<SimpleType>,
    pub(crate) complexes: Table<ComplexType>,
    pub(crate) contents: Vec<Option<ParticleId>>,
    pub(crate) elements: Table<ElementDecl>,
    pub(crate) attributes: Table<AttributeDecl>,
    pub(crate) groups: Table<GroupDef>,
    pub(crate) attr_groups: Table<AttrGroupDef>,
    pub(crate) constraints: Table<Constraint>,
    pub(crate) particles: Table<Particle>,
}

impl Model for Components {
    ghost use Rattle.std.specs.Prelude.{◌≡◌, length};
    ghost use Rattle.xs_components.specs.Tables.{Tables};

    ghost Value = { Tables };

    ghost view = { λ c. record {
      rules = c.rules;
      simples = c.simples;
      complexes = c.complexes;
      contents = c.contents.items;
      elements = c.elements;
      attributes = c.attributes;
      groups = c.groups;
      attr_groups = c.attr_groups;
      constraints = c.constraints;
      particles = c.particles;
    } };

    ghost invariant = { λ c. length c.contents.items ≡ length c.complexes.parts };
}

impl Components {
    /// No components, and the rules of 1.0.
    pub fn new(alloc: Global) -> Result<Self, AllocError>
        ensures tables { IfOk result (λ parts. parts ≡ no_tables) }
    {
        Ok(Components {
            rules: Rules::V10,
            simples: Table::new(alloc),
            complexes: Table::new(alloc),
            contents: Vec::new(alloc),
            elements: Table::new(alloc),
            attributes: Table::new(alloc),
            groups: Table::new(alloc),
            attr_groups: Table::new(alloc),
            constraints: Table::new(alloc),
            particles: Table::new(alloc),
        })
    }
}

impl Drop for Components {
    fn drop(self) {
        let Components {
            rules: _,
            simples,
            complexes,
            contents,
            elements,
            attributes,
            groups,
            attr_groups,
            constraints,
            particles,
        } = self;
        drop(simples);
        drop(complexes);
        drop(contents);
        drop(elements);
        drop(attributes);
        drop(groups);
        drop(attr_groups);
        drop(constraints);
        drop(particles);
    }
}
