//! What the tables are made in.

ghost use Rattle.std.specs.Prelude.{◌≡◌, [], None, IfOk};
ghost use Rattle.std.specs.Prelude.{List, Bool};
ghost use Rattle.xs_components.specs.Tables.{Tables};
ghost use Rattle.attr_uses.specs.Uses.{no_uses, any_type_uses, own_uses};
ghost use Rattle.attr_uses.specs.Written.{own_parts};
ghost use Rattle.attr_uses.specs.Tables.{StandsFor, IsStore};
ghost use Rattle.attr_uses.specs.inside.Kept.{Keeps};

use crate::{UseHolder, UseMap, UseMaps, own};
use std::alloc::{AllocError, Global};
use xs_components::{Components, NsConstraint, Process, Wildcard};
use xs_lists::Listed;

/// The table of one type or of one attribute group, among those that are kept together.
#[derive(Clone, Copy)]
pub struct KeptTable {
    pub(crate) uses: UseMap,
    pub(crate) prohibited: UseMap,
    pub(crate) wildcard: Option<u32>,
}

// The maps and the wildcards of all tables.
pub(crate) struct Store {
    pub maps: UseMaps,
    pub wildcards: Listed<Wildcard>,
}

// How many times the numbers of names are halved.
const DEPTH: u32 = 32;

impl Store {
    // A store that has the wildcard of anyType alone.
    pub(crate) fn new(alloc: Global) -> Result<Store, AllocError>
        ensures store { IfOk result IsStore }
    {
        let maps = UseMaps::new(alloc, DEPTH)?;
        let mut wildcards = Listed::new(alloc);
        wildcards.push(Wildcard {
            namespaces: NsConstraint::Any,
            process: Process::Lax,
        })?;
        Ok(Store { maps, wildcards })
    }

    // The table of anyType.
    pub(crate) fn any_type(&self) -> KeptTable
        requires store { IsStore self.now }
        ensures table { (t : Tables) (ids : List Bool) → StandsFor t ids self.now result any_type_uses }
    {
        KeptTable {
            wildcard: Some(0),
            ..self.nothing()
        }
    }

    // The table of what has no attribute uses.
    pub(crate) fn nothing(&self) -> KeptTable
        ensures table { (t : Tables) (ids : List Bool) → StandsFor t ids self.now result no_uses }
    {
        KeptTable {
            uses: self.maps.nothing(),
            prohibited: self.maps.nothing(),
            wildcard: None,
        }
    }

    // What is written in a component.
    pub(crate) fn own_table(
        &mut self,
        parts: &Components,
        ids: &[bool],
        holder: UseHolder,
    ) -> Result<KeptTable, AllocError>
        requires deep { self.old.maps.depth ≡ 32 }
        ensures made { IfOk result (λ made. Keeps self.old self.new × StandsFor parts.now ids.now self.new made (own_uses holder (own_parts parts.now holder))) }
    {
        let uses = own::own_uses(&mut self.maps, parts, ids, holder)?;
        let names = own::prohibited_in(parts, holder);
        let prohibited = own::own_names(&mut self.maps, holder, names)?;
        let written = own::wildcard_in(parts, holder)?;
        let wildcard = self.keep(written)?;
        Ok(KeptTable {
            uses,
            prohibited,
            wildcard,
        })
    }
}

impl Drop for Store {
    fn drop(self) {
        let Store { maps, wildcards } = self;
        drop(maps);
        drop(wildcards);
    }
}
