ghost use Rattle.std.specs.Prelude.{◌≡◌, IfOk, OnOk};
ghost use Rattle.xs_names.specs.Names.{Grown};
ghost use Rattle.representations.specs.declared.parts.Represented.TheVariants as made;
ghost use Rattle.representations.specs.Named as named;
ghost use Rattle.representations.specs.Forms.{members_table, spaces_table};
ghost use Rattle.representations.specs.Naming.{with_space_of, with_global, with_reference_if, reference_number_if, name_in};
ghost use Rattle.representations.specs.Lasting.{IsLasting};
ghost use Rattle.representations.specs.Types.{type_name_if, type_names};
ghost use Rattle.representations.specs.Wildcards.{KnowsTarget, wildcard_of};

use crate::types::{type_name_if, type_names};
use crate::{Reading, Represented, number_space};
use schema_shape::WildcardForm;
use std::alloc::{AllocError, Global};
use tree_rows::Expanded;
use xs_names::{Names, Text};

impl Reading {
    /// An import. Its namespace comes into the table.
    pub(crate) fn import(
        &self,
        names: &mut Names,
        namespace: &Option<Text>,
    ) -> Result<Represented, AllocError>
        ensures table { OnOk result (names.new ≡ with_space_of names.old namespace.now) }
        ensures form { IfOk result (IsLasting names.new (λ t. made.Nothing)) }
        ensures named { IfOk result (λ form. named.AreIn names.new (named.names_of form)) }
        ensures grown { Grown names.old names.new }
    {
        number_space(names, namespace)?;
        Ok(Represented::Nothing)
    }

    /// A named group.
    pub(crate) fn group(&self, names: &mut Names, name: &Text) -> Result<Represented, AllocError>
        ensures table { OnOk result (names.new ≡ with_global self.now.naming name.now names.old) }
        ensures form { IfOk result (IsLasting names.new (λ t. made.Group (name_in t self.now.naming.target name.now))) }
        ensures named { IfOk result (λ form. named.AreIn names.new (named.names_of form)) }
        ensures grown { Grown names.old names.new }
    {
        Ok(Represented::Group {
            name: self.naming.declare_global(names, name)?,
        })
    }

    /// A named group of attributes.
    pub(crate) fn attribute_group(
        &self,
        names: &mut Names,
        name: &Text,
    ) -> Result<Represented, AllocError>
        ensures table { OnOk result (names.new ≡ with_global self.now.naming name.now names.old) }
        ensures form { IfOk result (IsLasting names.new (λ t. made.AttributeGroup (name_in t self.now.naming.target name.now))) }
        ensures named { IfOk result (λ form. named.AreIn names.new (named.names_of form)) }
        ensures grown { Grown names.old names.new }
    {
        Ok(Represented::AttributeGroup {
            name: self.naming.declare_global(names, name)?,
        })
    }

    /// A reference to a group.
    pub(crate) fn group_reference(
        &self,
        names: &mut Names,
        to: &Option<Expanded>,
    ) -> Result<Represented, AllocError>
        ensures table { OnOk result (names.new ≡ with_reference_if self.now.naming to.now names.old) }
        ensures form { IfOk result (IsLasting names.new (λ t. made.GroupReference (reference_number_if t self.now.naming to.now))) }
        ensures named { IfOk result (λ form. named.AreIn names.new (named.names_of form)) }
        ensures grown { Grown names.old names.new }
    {
        Ok(Represented::GroupReference {
            to: self.naming.refer_if(names, to)?,
        })
    }

    /// A reference to a group of attributes.
    pub(crate) fn attribute_group_reference(
        &self,
        names: &mut Names,
        to: &Option<Expanded>,
    ) -> Result<Represented, AllocError>
        ensures table { OnOk result (names.new ≡ with_reference_if self.now.naming to.now names.old) }
        ensures form { IfOk result (IsLasting names.new (λ t. made.AttributeGroupReference (reference_number_if t self.now.naming to.now))) }
        ensures named { IfOk result (λ form. named.AreIn names.new (named.names_of form)) }
        ensures grown { Grown names.old names.new }
    {
        Ok(Represented::AttributeGroupReference {
            to: self.naming.refer_if(names, to)?,
        })
    }

    /// A restriction or an extension in simpleContent or complexContent.
    pub(crate) fn derivation(
        &self,
        names: &mut Names,
        by_extension: bool,
        base: &Option<Expanded>,
    ) -> Result<Represented, AllocError>
        ensures table { OnOk result (names.new ≡ with_reference_if self.now.naming base.now names.old) }
        ensures form { IfOk result (IsLasting names.new (λ t. made.Derivation by_extension (type_name_if t self.now.naming base.now))) }
        ensures named { IfOk result (λ form. named.AreIn names.new (named.names_of form)) }
        ensures grown { Grown names.old names.new }
    {
        Ok(Represented::Derivation {
            by_extension,
            base: type_name_if(&self.naming, names, base)?,
        })
    }

    /// A restriction of a simple type.
    pub(crate) fn restriction(
        &self,
        names: &mut Names,
        base: &Option<Expanded>,
    ) -> Result<Represented, AllocError>
        ensures table { OnOk result (names.new ≡ with_reference_if self.now.naming base.now names.old) }
        ensures form { IfOk result (IsLasting names.new (λ t. made.Restriction (type_name_if t self.now.naming base.now))) }
        ensures named { IfOk result (λ form. named.AreIn names.new (named.names_of form)) }
        ensures grown { Grown names.old names.new }
    {
        Ok(Represented::Restriction {
            base: type_name_if(&self.naming, names, base)?,
        })
    }

    /// A list.
    pub(crate) fn item_type(
        &self,
        names: &mut Names,
        of: &Option<Expanded>,
    ) -> Result<Represented, AllocError>
        ensures table { OnOk result (names.new ≡ with_reference_if self.now.naming of.now names.old) }
        ensures form { IfOk result (IsLasting names.new (λ t. made.ItemType (type_name_if t self.now.naming of.now))) }
        ensures named { IfOk result (λ form. named.AreIn names.new (named.names_of form)) }
        ensures grown { Grown names.old names.new }
    {
        Ok(Represented::ItemType {
            of: type_name_if(&self.naming, names, of)?,
        })
    }

    /// A union.
    pub(crate) fn union(
        &self,
        alloc: Global,
        names: &mut Names,
        members: &[Expanded],
    ) -> Result<Represented, AllocError>
        ensures table { OnOk result (names.new ≡ members_table self.now.naming members.now names.old) }
        ensures form { IfOk result (IsLasting names.new (λ t. made.Union (type_names t self.now.naming members.now))) }
        ensures named { IfOk result (λ form. named.AreIn names.new (named.names_of form)) }
        ensures grown { Grown names.old names.new }
    {
        Ok(Represented::Union {
            members: type_names(alloc, &self.naming, names, members)?,
        })
    }

    /// A wildcard for elements.
    pub(crate) fn any(
        &self,
        alloc: Global,
        names: &mut Names,
        form: &WildcardForm,
    ) -> Result<Represented, AllocError>
        requires { KnowsTarget names.old self.now }
        ensures table { OnOk result (names.new ≡ spaces_table form.now.spaces names.old) }
        ensures form { IfOk result (IsLasting names.new (λ t. made.Any (wildcard_of t self.now.naming form.now))) }
        ensures named { IfOk result (λ form. named.AreIn names.new (named.names_of form)) }
        ensures grown { Grown names.old names.new }
    {
        Ok(Represented::Any(self.wildcard(alloc, names, form)?))
    }

    /// A wildcard for attributes.
    pub(crate) fn any_attribute(
        &self,
        alloc: Global,
        names: &mut Names,
        form: &WildcardForm,
    ) -> Result<Represented, AllocError>
        requires { KnowsTarget names.old self.now }
        ensures table { OnOk result (names.new ≡ spaces_table form.now.spaces names.old) }
        ensures form { IfOk result (IsLasting names.new (λ t. made.AnyAttribute (wildcard_of t self.now.naming form.now))) }
        ensures named { IfOk result (λ form. named.AreIn names.new (named.names_of form)) }
        ensures grown { Grown names.old names.new }
    {
        Ok(Represented::AnyAttribute(self.wildcard(alloc, names, form)?))
    }
}
