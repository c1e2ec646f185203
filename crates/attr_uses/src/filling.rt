//! The tables of all components, in the order of ranks.

ghost use Rattle.std.specs.Prelude.{◌≡◌, ◌<◌, length, slice_index, IfOk, OnOk};
ghost use Rattle.component_references.specs.Order.{IsOrder};
ghost use Rattle.component_references.specs.Ranked.{IsRanked};
ghost use Rattle.attr_uses.specs.Uses.{group_uses};
ghost use Rattle.attr_uses.specs.Tables.{Answers, IsStore};
ghost use Rattle.attr_uses.specs.inside.Kept.{Keeps, AreGroups, AreTypes, AreBelow, IsGroupAnswer};

use crate::UseHolder;
use crate::groups::Answer;
use crate::store::Store;
use component_references::order_of;
use std::alloc::{AllocError, Global};
use xs_components::Components;
use xs_lists::Listed;

impl Store {
    // The tables of all attribute groups.
    pub(crate) fn all_groups(
        &mut self,
        alloc: Global,
        parts: &Components,
        ids: &[bool],
    ) -> Result<Listed<Answer>, AllocError>
        requires ranked { IsRanked parts.now }
        requires store { IsStore self.old }
        ensures made { IfOk result (λ groups. Keeps self.old self.new × AreGroups parts.now ids.now self.new groups) }
    {
        let order = order_of(alloc, parts.attr_group_ranks())?;
        let mut groups = self.no_answers(alloc, parts.attr_groups().len())?;
        self.fill_groups(alloc, parts, ids, &order, groups.as_mut_slice())?;
        Ok(Listed::from_vec(groups))
    }

    // The tables of all complex types.
    pub(crate) fn all_types(
        &mut self,
        alloc: Global,
        parts: &Components,
        ids: &[bool],
        groups: &[Answer],
    ) -> Result<Listed<Answer>, AllocError>
        requires ranked { IsRanked parts.now }
        requires store { IsStore self.old }
        requires groups { AreGroups parts.now ids.now self.old groups.now }
        ensures made { IfOk result (λ types. Keeps self.old self.new × AreTypes parts.now ids.now self.new types) }
    {
        let order = order_of(alloc, parts.complex_ranks())?;
        let mut types = self.no_answers(alloc, parts.complexes().len())?;
        self.fill_types(alloc, parts, ids, groups, &order, types.as_mut_slice())?;
        Ok(Listed::from_vec(types))
    }

    // So many answers, to be written over.
    fn no_answers(&self, alloc: Global, count: usize) -> Result<Vec<Answer>, AllocError>
        ensures { IfOk result (λ answers. length answers.items ≡ count) }
    {
        Vec::from_elem(alloc, Ok(self.nothing()), count)
    }

    // Writes the table of each group, those that it refers to before it.
    fn fill_groups(
        &mut self,
        alloc: Global,
        parts: &Components,
        ids: &[bool],
        order: &[u32],
        groups: &mut [Answer],
    ) -> Result<(), AllocError>
        requires ranked { IsRanked parts.now }
        requires store { IsStore self.old }
        requires order { IsOrder (length parts.now.attr_groups.parts) parts.now.attr_groups.ranks order.now }
        requires alike { length groups.old ≡ length parts.now.attr_groups.parts }
        ensures made { OnOk result (Keeps self.old self.new × AreGroups parts.now ids.now self.new groups.new) }
    {
        for x in order {
            let answer = self.group_table(alloc, parts, ids, groups, *x)?;
            groups[*x as usize] = answer;
        }
        Ok(())
    }

    // Writes the table of each complex type, its base's before it.
    fn fill_types(
        &mut self,
        alloc: Global,
        parts: &Components,
        ids: &[bool],
        groups: &[Answer],
        order: &[u32],
        types: &mut [Answer],
    ) -> Result<(), AllocError>
        requires ranked { IsRanked parts.now }
        requires store { IsStore self.old }
        requires groups { AreGroups parts.now ids.now self.old groups.now }
        requires order { IsOrder (length parts.now.complexes.parts) parts.now.complexes.ranks order.now }
        requires alike { length types.old ≡ length parts.now.complexes.parts }
        ensures made { OnOk result (Keeps self.old self.new × AreTypes parts.now ids.now self.new types.new) }
    {
        for x in order {
            let answer = self.type_table(alloc, parts, ids, groups, types, *x)?;
            types[*x as usize] = answer;
        }
        Ok(())
    }

    // The table of the attribute group of a number; `groups` has those of lower rank.
    fn group_table(
        &mut self,
        alloc: Global,
        parts: &Components,
        ids: &[bool],
        groups: &[Answer],
        number: u32,
    ) -> Result<Answer, AllocError>
        requires ranked { IsRanked parts.now }
        requires store { IsStore self.old }
        requires there { number < length parts.now.attr_groups.parts }
        requires groups { AreBelow (length parts.now.attr_groups.parts) parts.now.attr_groups.ranks (slice_index parts.now.attr_groups.ranks number) (IsGroupAnswer parts.now ids.now self.old groups.now) }
        ensures made { IfOk result (λ answer. Keeps self.old self.new × Answers parts.now ids.now self.new answer (group_uses parts.now number)) }
    {
        self.with_own_groups(alloc, parts, ids, groups, UseHolder::AttrGroup(number))
    }
}
