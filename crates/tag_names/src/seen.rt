ghost use Rattle.std.specs.Prelude.{◌≡◌, ◌||◌, [], ◌∷◌, ◌++◌, ℕ, List, map, IfOk, OnOk};
ghost use Rattle.std.specs.Option.{option_copied};
ghost use Rattle.tree_rows.specs.declared.name.Expanded.{Expanded as Name};
ghost use Rattle.tree_rows.specs.declared.row.Binding.{Binding};
ghost use Rattle.tag_names.specs.Keys.{name_of};
ghost use Rattle.tag_names.specs.Scopes as scopes;
ghost use Rattle.tag_names.specs.Tags as tags;
ghost use Rattle.tag_names.specs.declared.lines.AttributeLine.{AttributeLine};

use crate::Prefixes;
use crate::doubles::{NameKey, space_key};
use crate::judged::{attribute_space, is_unbound};
use crate::parts::{binds, is_no_qname, parts_of};
use indexmap::IndexSet;
use std::alloc::{AllocError, Global};

/// What stands against the names of attribute lines.
#[derive(Clone, Copy)]
pub(crate) struct LineFaults {
    /// A name is no QName.
    pub(crate) bad: bool,
    /// The prefix of an attribute is not bound.
    pub(crate) unbound: bool,
    /// Two attributes have one expanded name.
    pub(crate) double: bool,
}

/// Attribute lines that were seen. Of an attribute the name alone is kept, of a binding nothing.
#[derive(Drop)]
pub(crate) struct SeenLines {
    alloc: Global,
    names: IndexSet<NameKey>,
    faults: LineFaults,
}

/// The key of the expanded name that an attribute of this name has, where these bindings come before a scope.
fn key_in(
    alloc: Global,
    own: Option<&Prefixes>,
    scope: &Prefixes,
    name: &str,
) -> Result<NameKey, AllocError>
    ensures { IfOk result (λ key. name_of key ≡ tags.attribute_name (scopes.own_of (option_copied own.entry) ++ scope.now) name.now) }
{
    let parts = parts_of(name);
    let space = attribute_space(own, scope, parts.prefix)?;
    Ok(NameKey {
        namespace: space_key(alloc, &space.namespace)?,
        local: String::from_str(alloc, parts.local)?,
    })
}

impl SeenLines {
    ghost use Rattle.tag_names.specs.Seen.{repeats_after, line_faults, faults_with};

    /// No lines. There is room for the names of so many.
    pub(crate) fn new(alloc: Global, count: usize) -> Result<Self, AllocError>
        ensures { IfOk result (λ seen. (scope : List Binding) (lines : List AttributeLine) → faults_with scope seen lines ≡ line_faults scope lines) }
    {
        Ok(SeenLines {
            alloc,
            names: IndexSet::with_capacity(alloc, count)?,
            faults: LineFaults {
                bad: false,
                unbound: false,
                double: false,
            },
        })
    }

    /// What stands against the lines that were seen.
    pub(crate) fn faults(&self) -> LineFaults
        ensures { (scope : List Binding) → result ≡ faults_with scope self.now [] }
    {
        self.faults
    }

    /// Whether the name of an attribute came before, where these bindings come before a scope.
    fn comes_again(
        &mut self,
        own: Option<&Prefixes>,
        scope: &Prefixes,
        name: &str,
    ) -> Result<bool, AllocError>
        ensures again { IfOk result (λ again. (more : List Name) → (again || repeats_after (map name_of self.new.names.keys) more)
            ≡ repeats_after (map name_of self.old.names.keys) (tags.attribute_name (scopes.own_of (option_copied own.entry) ++ scope.now) name.now ∷ more)) }
        ensures same { self.new.faults ≡ self.old.faults }
    {
        let key = key_in(self.alloc, own, scope, name)?;
        let added = self.names.insert(key)?;
        Ok(!added)
    }

    /// Takes the name of an attribute.
    fn take_attribute(
        &mut self,
        own: Option<&Prefixes>,
        scope: &Prefixes,
        name: &str,
    ) -> Result<(), AllocError>
        ensures double { OnOk result ((more : List Name) → (self.new.faults.double || repeats_after (map name_of self.new.names.keys) more)
            ≡ (self.old.faults.double || repeats_after (map name_of self.old.names.keys) (tags.attribute_name (scopes.own_of (option_copied own.entry) ++ scope.now) name.now ∷ more))) }
        ensures bad { OnOk result (self.new.faults.bad ≡ self.old.faults.bad) }
        ensures unbound { OnOk result (self.new.faults.unbound ≡ self.old.faults.unbound) }
    {
        if self.faults.double {
            return Ok(());
        }
        let again = self.comes_again(own, scope, name)?;
        self.faults.double = again;
        Ok(())
    }

    /// Takes the name of the next line, where these bindings come before a scope.
    pub(crate) fn take(
        &mut self,
        own: Option<&Prefixes>,
        scope: &Prefixes,
        name: &str,
    ) -> Result<(), AllocError>
        ensures { OnOk result ((value : List ℕ) (more : List AttributeLine) → faults_with (scopes.own_of (option_copied own.entry) ++ scope.now) self.new more
            ≡ faults_with (scopes.own_of (option_copied own.entry) ++ scope.now) self.old (record { name = name.now; value = value } ∷ more)) }
    {
        let bad = is_no_qname(name);
        self.faults.bad = self.faults.bad || bad;
        if binds(name) {
            return Ok(());
        }
        let unbound = is_unbound(own, scope, parts_of(name).prefix);
        self.faults.unbound = self.faults.unbound || unbound;
        self.take_attribute(own, scope, name)?;
        Ok(())
    }
}
