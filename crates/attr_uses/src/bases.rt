//! What a complex type has by its base.

ghost use Rattle.std.specs.Prelude.{◌≡◌, ◌<◌, List, Bool, Some, length, slice_get, slice_index, IfOk};
ghost use Rattle.xs_components.specs.Tables.{Tables};
ghost use Rattle.xs_components.specs.declared.common.TypeId.TheVariants.{Complex};
ghost use Rattle.component_references.specs.Ranked.{IsRanked};
ghost use Rattle.attr_uses.specs.Uses as spec;
ghost use Rattle.attr_uses.specs.Uses.{AttrUses, uses_of};
ghost use Rattle.attr_uses.specs.Tables.{StandsFor, Answers, IsStore};
ghost use Rattle.attr_uses.specs.inside.Kept.{Keeps, IsTable, IsMade, IsKnown, AreGroups, AreBelow, IsTypeAnswer};

use crate::groups::{Answer, or_fault};
use crate::own::fault_at;
use crate::store::{KeptTable, Store};
use crate::wildcards::Joining;
use crate::{Join, UseHolder};
use std::alloc::{AllocError, Global};
use xs_codes::Code;
use xs_components::{ComplexType, Components, TypeId};

impl Store {
    // The table of the complex type of a number; `types` has those of lower rank.
    pub(crate) fn type_table(
        &mut self,
        alloc: Global,
        parts: &Components,
        ids: &[bool],
        groups: &[Answer],
        types: &[Answer],
        number: u32,
    ) -> Result<Answer, AllocError>
        requires ranked { IsRanked parts.now }
        requires store { IsStore self.old }
        requires there { number < length parts.now.complexes.parts }
        requires groups { AreGroups parts.now ids.now self.old groups.now }
        requires types { AreBelow (length parts.now.complexes.parts) parts.now.complexes.ranks (slice_index parts.now.complexes.ranks number) (IsTypeAnswer parts.now ids.now self.old types.now) }
        ensures made { IfOk result (λ answer. Keeps self.old self.new × Answers parts.now ids.now self.new answer (uses_of parts.now (Complex number))) }
    {
        let part = complex_in(parts, number);
        let answer = self.with_own_groups(alloc, parts, ids, groups, UseHolder::Complex(number))?;
        let own = match answer {
            Ok(own) => own,
            Err(fault) => return Ok(Err(fault)),
        };
        match self.known_table(types, part.base) {
            Ok(base) => self.with_base(alloc, part, own, base),
            Err(fault) => Ok(Err(fault)),
        }
    }

    // The table of a type; `types` has those of complex types.
    pub(crate) fn known_table(&self, types: &[Answer], of: TypeId) -> Answer
        requires store { IsStore self.now }
        ensures table { (t : Tables) (ids : List Bool) → IsKnown t ids self.now types.now of → Answers t ids self.now result (uses_of t of) }
    {
        match of {
            TypeId::AnyType => Ok(self.any_type()),
            TypeId::Builtin(_) => Ok(self.nothing()),
            TypeId::Simple(_) => Ok(self.nothing()),
            TypeId::Complex(id) => match answer_at(types, id.number()) {
                Some(answer) => answer,
                None => Ok(self.nothing()),
            },
        }
    }

    // The table of a complex type, by what it has of its own and by groups, and by its base.
    fn with_base(
        &mut self,
        alloc: Global,
        part: &ComplexType,
        own: KeptTable,
        base: KeptTable,
    ) -> Result<Answer, AllocError>
        requires own { IsTable self.old own }
        requires base { IsTable self.old base }
        ensures made { (t : Tables) (ids : List Bool) (a b : AttrUses) → StandsFor t ids self.old own a → StandsFor t ids self.old base b
            → IfOk result (λ answer. Keeps self.old self.new × Answers t ids self.new answer (spec.with_base t part.now a b)) }
    {
        if !part.by_extension {
            let table = self.restricted(own, base)?;
            return Ok(Ok(table));
        }
        let made = self.extended(alloc, own, base)?;
        Ok(or_fault(made, fault_at(part.at, Code::SrcCt5)))
    }

    // By extension: the wildcard is united with that of the base; None where the union has no form.
    fn extended(
        &mut self,
        alloc: Global,
        own: KeptTable,
        base: KeptTable,
    ) -> Result<Option<KeptTable>, AllocError>
        requires own { IsTable self.old own }
        requires base { IsTable self.old base }
        ensures made { (t : Tables) (ids : List Bool) (a b : AttrUses) → StandsFor t ids self.old own a → StandsFor t ids self.old base b
            → IfOk result (λ made. Keeps self.old self.new × IsMade t ids self.new made (spec.extended_uses a b)) }
    {
        let wildcard = match self.joined(alloc, Joining::Union, own.wildcard, base.wildcard)? {
            Some(wildcard) => wildcard,
            None => return Ok(None),
        };
        let uses = self.maps.combine(Join::Union, own.uses, base.uses)?;
        Ok(Some(KeptTable {
            uses,
            wildcard,
            ..own
        }))
    }

    // By restriction: of the base's uses, those whose names are neither prohibited nor those of the type's own.
    fn restricted(&mut self, own: KeptTable, base: KeptTable) -> Result<KeptTable, AllocError>
        requires own { IsTable self.old own }
        requires base { IsTable self.old base }
        ensures made { (t : Tables) (ids : List Bool) (a b : AttrUses) → StandsFor t ids self.old own a → StandsFor t ids self.old base b
            → IfOk result (λ made. Keeps self.old self.new × StandsFor t ids self.new made (spec.restricted_uses t a b)) }
    {
        let left = self.maps.combine(Join::Without, own.prohibited, base.uses)?;
        let uses = self.maps.combine(Join::Override, own.uses, left)?;
        Ok(KeptTable { uses, ..own })
    }
}

// The complex type of a number.
fn complex_in(parts: &Components, number: u32) -> &ComplexType
    requires { number < length parts.now.complexes.parts }
    ensures { slice_get parts.now.complexes.parts number ≡ Some result.now }
{
    &parts.complexes()[number as usize]
}

// The answer for a number, if there is one.
fn answer_at(answers: &[Answer], number: u32) -> Option<Answer>
    ensures { result ≡ slice_get answers.now number }
{
    match answers.get(number as usize) {
        Some(answer) => Some(*answer),
        None => None,
    }
}
